//! `Hold`: what happens when an arm comes to a step.

use crate::row_fault::{Result, RowFault};
use crate::word_reading::first_word;

/// What happens when an arm comes to a step that is directly in it. Both are counted from 0.
///
/// ```text
/// let hold = Hold::of_words("1 0 until 0 1")?;
/// ```
#[derive(Clone, Copy)]
pub(crate) struct Hold {
    pub(crate) arm: u32,
    pub(crate) step: u32,
    pub(crate) kind: HoldKind,
}

/// What an arm meets at a step.
#[derive(Clone, Copy)]
pub(crate) enum HoldKind {
    /// It is held up until this arm has come to this step.
    Until(u32, u32),
    /// From here on no allocation is allowed.
    Refuse,
    /// From here on any number is.
    Allow,
}

impl Hold {
    /// As `1 0 until 0 1`, `0 1 refuse`, `2 0 allow`.
    pub(crate) fn of_words(words: &str) -> Result<Hold> {
        let (arm, rest) = first_word(words);
        let (step, rest) = first_word(rest);
        let (arm, step) = (arm.parse::<u32>()?, step.parse::<u32>()?);
        let kind = HoldKind::of_words(rest)?;
        Ok(Hold { arm, step, kind })
    }
}

impl HoldKind {
    fn of_words(words: &str) -> Result<HoldKind> {
        let (word, rest) = first_word(words);
        match word {
            "until" => {
                let (arm, step) = first_word(rest);
                Ok(HoldKind::Until(arm.parse::<u32>()?, step.parse::<u32>()?))
            }
            "refuse" => Ok(HoldKind::Refuse),
            "allow" => Ok(HoldKind::Allow),
            _ => Err(RowFault::NotSpelled),
        }
    }
}
