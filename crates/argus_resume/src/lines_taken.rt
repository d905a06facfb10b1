//! `LinesTaken`: how much of a text was taken.

use crate::taken_end::TakenEnd;

/// How much of a text was taken, and why no more.
///
/// ```text
/// let taken = resuming.take(b"0 begin_top -> a0\n1 commit");
/// // LinesTaken { bytes: 18, lines: 1, end: TakenEnd::Torn }
/// ```
#[derive(Debug, Drop)]
pub struct LinesTaken {
    /// How many bytes, from the first one on.
    pub bytes: usize,
    /// How many lines these are.
    pub lines: usize,
    pub end: TakenEnd,
}
