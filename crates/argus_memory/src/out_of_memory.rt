//! `OutOfMemory`: the error of an allocation that was refused.

use std::alloc::{AllocError, AllocFailed};
use thiserror::Error;

/// An allocation was refused: by the machine, or by the budget of the heap that was asked.
///
/// A call that returns it has changed nothing, unless its documentation says otherwise.
///
/// ```text
/// match content.duplicate(heap) {
///     Ok(copy) => ..,
///     Err(OutOfMemory) => ..,          // nothing was copied
/// }
/// ```
#[derive(Clone, Copy, Debug, PartialEq, Eq, Error)]
#[error("out of memory")]
pub struct OutOfMemory;

impl From<AllocError> for OutOfMemory {
    fn from(_refused: AllocError) -> OutOfMemory {
        OutOfMemory
    }
}

impl<T: Drop> From<AllocFailed<T>> for OutOfMemory {
    fn from(_refused: AllocFailed<T>) -> OutOfMemory {
        OutOfMemory
    }
}
