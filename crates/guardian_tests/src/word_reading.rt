//! The words of rows. A text that isn't such a word is `NotSpelled`.

use crate::row_fault::{Result, RowFault};
use argus_actions::ActionId;
use argus_values::ObjId;

/// The first word, and what comes after it: a space separates them.
pub(crate) fn first_word<'a>(text: &'a str) -> (&'a str, &'a str) {
    text.split_once(' ').unwrap_or((text, ""))
}

/// An action, as `a0`.
pub(crate) fn action(text: &str) -> Result<ActionId> {
    let digits = text.strip_prefix("a").ok_or(RowFault::NotSpelled)?;
    Ok(ActionId(digits.parse::<u32>()?))
}

/// An object, as `o0`.
pub(crate) fn object(text: &str) -> Result<ObjId> {
    let digits = text.strip_prefix("o").ok_or(RowFault::NotSpelled)?;
    Ok(ObjId(digits.parse::<u32>()?))
}
