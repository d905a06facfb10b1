//! `ReadEnd`: why no more lines of a reader were taken.

use crate::line_fault::LineFault;

/// Why no more lines of a reader were taken.
///
/// ```text
/// match resuming.take_from(&mut reader).end {
///     ReadEnd::Whole => ..,                   // all that the reader had
///     ReadEnd::Torn => ..,                    // what it had behind has no line feed
///     ReadEnd::Fault(fault) => ..,            // the next line isn't one of the listing
///     ReadEnd::OutOfMemory => ..,
///     ReadEnd::Read => ..,                    // the reader has failed
/// }
/// ```
#[derive(Debug, Drop)]
pub enum ReadEnd {
    /// All that the reader had was taken.
    Whole,
    /// All whole lines that the reader had were taken, and bytes after them have no line feed.
    Torn,
    /// The next line is at fault.
    Fault(LineFault),
    /// There is no memory, for the bytes of a line or for what it says; or there were 2^49 reads,
    /// however short.
    OutOfMemory,
    /// A read failed.
    Read,
}
