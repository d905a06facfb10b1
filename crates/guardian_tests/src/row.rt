//! A row: what it asks, and whether it is answered as it says.

use crate::row_fault::{Result, RowFault};
use std::io::Print;

/// Whether the line is a row: no comment, and no line for a row below it.
pub(crate) fn is_row(line: &str) -> bool {
    !matches!(
        line.as_bytes().first(),
        None | Some(b'#' | b'|' | b':' | b'=')
    )
}

/// What comes before the row's arrow.
pub(crate) fn asked_in<'a>(row: &'a str) -> &'a str {
    let (asked, _) = row.split_once(" -> ").unwrap_or((row, ""));
    asked
}

/// Prints the row if what is told is none of the answers behind its arrow, which `or` separates.
pub(crate) fn compare(rt: &impl Print, row: &str, answered: Result<()>, told: &str) -> Result<()> {
    let told = match answered {
        Ok(()) => told.trim_start(),
        Err(fault) => fault.as_str(),
    };
    let (_, wanted) = row.split_once(" -> ").unwrap_or((row, ""));
    if is_one_of(told, wanted) {
        return Ok(());
    }
    println!(rt; "{row}\n  got {told}")?;
    Err(RowFault::Other)
}

fn is_one_of(text: &str, wanted: &str) -> bool {
    for one in wanted.split(" or ") {
        if one == text {
            return true;
        }
    }
    false
}
