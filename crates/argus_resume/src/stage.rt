//! `Stage`: how far a guardian has come that is being made from lines.

use crate::entry_lines::EntryLines;
use crate::opening_lines::OpeningLines;

/// How far a guardian that is being made from lines has come.
#[derive(Drop)]
pub(crate) enum Stage {
    // An opening, which may go on.
    Opening(OpeningLines),
    // A guardian: with no line, or with an entry.
    Entries(EntryLines),
}
