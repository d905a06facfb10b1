//! `TextTaken`: how much of a text was taken.

use crate::text_end::TextEnd;

/// How much of a text was taken, and why no more.
///
/// ```text
/// let taken = bank.resume(b"0 begin_top -> a0\n1 commit");
/// // TextTaken { bytes: 18, lines: 1, end: TextEnd::Torn }
/// ```
#[derive(Clone, Copy, Debug)]
pub struct TextTaken {
    /// How many bytes, from the first on.
    pub bytes: usize,
    /// How many lines these are.
    pub lines: usize,
    pub end: TextEnd,
}
