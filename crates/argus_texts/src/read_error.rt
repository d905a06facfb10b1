//! `ReadError`: why a text wasn't read.

use crate::read_fault::ReadFault;
use thiserror::Error;

/// Why a text wasn't read.
///
/// ```text
/// match read_value(heap, text) {
///     Ok(value) => ..,
///     Err(ReadError::Fault(fault)) => ..,   // the text is wrong from byte fault.at on
///     Err(ReadError::Memory) => ..,            // nothing is said of the text
/// }
/// ```
#[derive(Clone, Copy, Debug, PartialEq, Eq, Error)]
pub enum ReadError {
    /// The text isn't an accepted form.
    #[error("{0}")]
    Fault(ReadFault),
    /// There was no memory for the result.
    #[error("out of memory")]
    Memory,
}
