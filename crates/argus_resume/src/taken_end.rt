//! `TakenEnd`: why no more lines of a text were taken.

use crate::line_fault::LineFault;

/// Why no more lines of a text were taken.
///
/// ```text
/// match resuming.take(text).end {
///     TakenEnd::Whole => ..,                  // all of it
///     TakenEnd::Torn => ..,                   // what is left has no line feed
///     TakenEnd::Fault(fault) => ..,           // the next line isn't one of the listing
///     TakenEnd::OutOfMemory => ..,            // the same text goes on from there
/// }
/// ```
#[derive(Debug, Drop)]
pub enum TakenEnd {
    /// All of the text was taken.
    Whole,
    /// Bytes are left, and there is no line feed among them.
    Torn,
    /// The next line is at fault.
    Fault(LineFault),
    /// There is no memory for the next line.
    OutOfMemory,
}
