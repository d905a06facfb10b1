//! `TakenFrom`: how much of what a reader had was taken.

use crate::read_end::ReadEnd;

/// How much of what a reader had was taken, and why no more.
///
/// ```text
/// let taken = resuming.take_from(&mut reader);
/// // TakenFrom { bytes: 18, lines: 1, end: ReadEnd::Torn }
/// ```
#[derive(Debug, Drop)]
pub struct TakenFrom {
    /// How many bytes, from the first on.
    pub bytes: u64,
    /// How many lines these are.
    pub lines: u64,
    pub end: ReadEnd,
}
