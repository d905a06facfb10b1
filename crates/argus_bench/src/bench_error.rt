//! `BenchError`: why a run has no figure.

use argus_values::OutOfMemory;
use std::alloc::{AllocError, AllocFailed};
use std::io;
use std::num::ParseIntError;

/// Why a run has no figure.
///
/// ```text
/// assert!(rt; matches!(work_of("round"), Err(BenchError::UnknownWork)));
/// ```
#[derive(Clone, Copy)]
pub(crate) enum BenchError {
    UnknownWork,
    /// The guardian refused a call, or returned what the run doesn't ask for. A guardian begins at
    /// most a million actions, so a run of too many turns ends like this.
    OtherReply,
    /// The clock can't be read, or a line not printed.
    Host,
    OutOfMemory,
}

impl BenchError {
    /// What is printed.
    pub(crate) fn as_str(self) -> &'static str {
        match self {
            BenchError::UnknownWork => "no such work",
            BenchError::OtherReply => "a call wasn't answered as the run needs",
            BenchError::Host => "the clock can't be read, or a line not printed",
            BenchError::OutOfMemory => "out of memory",
        }
    }
}

impl From<io::Error> for BenchError {
    fn from(_fault: io::Error) -> BenchError {
        BenchError::Host
    }
}

impl From<ParseIntError> for BenchError {
    fn from(_error: ParseIntError) -> BenchError {
        BenchError::UnknownWork
    }
}

impl From<OutOfMemory> for BenchError {
    fn from(_refused: OutOfMemory) -> BenchError {
        BenchError::OutOfMemory
    }
}

impl From<AllocError> for BenchError {
    fn from(_refused: AllocError) -> BenchError {
        BenchError::OutOfMemory
    }
}

impl<T: Drop> From<AllocFailed<T>> for BenchError {
    fn from(_refused: AllocFailed<T>) -> BenchError {
        BenchError::OutOfMemory
    }
}
