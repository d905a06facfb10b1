//! `Stopped`: a run came to a stop before its end.

use argus_memory::OutOfMemory;
use std::alloc::{AllocError, AllocFailed};

/// The run came to a stop before its end: there is no memory, or its caller can't go on.
///
/// ```text
/// match run_steps(heap, &mut caller, &[], steps, None) {
///     Ok(flow) => ..,
///     Err(Stopped) => ..,             // some of the calls were made
/// }
/// ```
#[derive(Clone, Copy, Debug, PartialEq, Eq)]
pub struct Stopped;

impl From<OutOfMemory> for Stopped {
    fn from(_refused: OutOfMemory) -> Stopped {
        Stopped
    }
}

impl From<AllocError> for Stopped {
    fn from(_refused: AllocError) -> Stopped {
        Stopped
    }
}

impl<T: Drop> From<AllocFailed<T>> for Stopped {
    fn from(_refused: AllocFailed<T>) -> Stopped {
        Stopped
    }
}
