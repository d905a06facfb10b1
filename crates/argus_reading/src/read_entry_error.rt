//! `ReadEntryError`: why a line wasn't read.

use argus_texts::ReadFault;
use thiserror::Error;

/// Why a line wasn't read.
///
/// ```text
/// match read_entry(heap, line) {
///     Ok((number, entry)) => ..,
///     Err(ReadEntryError::Fault(fault)) => ..,     // no line from byte fault.at on
///     Err(ReadEntryError::Shape(fault)) => ..,     // no shape from byte fault.at on
///     Err(ReadEntryError::OutOfMemory) => ..,      // nothing is said of the line
/// }
/// ```
#[derive(Clone, Copy, Debug, PartialEq, Eq, Error)]
pub enum ReadEntryError {
    /// The text isn't a line: `at` is the length of its longest prefix that begins one.
    #[error("no line of an entry: {0}")]
    Fault(ReadFault),
    /// The text isn't a line, since what it declares isn't a shape: `at` is where the shape ought
    /// to begin.
    #[error("no shape: {0}")]
    Shape(ReadFault),
    /// There was no memory for the entry.
    #[error("out of memory")]
    OutOfMemory,
}
