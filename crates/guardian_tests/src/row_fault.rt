//! `RowFault`: why a row isn't answered as it says.

use argus_guardian::ReadEntryError;
use argus_values::OutOfMemory;
use std::alloc::{AllocError, AllocFailed};
use std::io;
use std::num::ParseIntError;

/// Why a row isn't answered as it says.
///
/// ```text
/// assert!(rt; matches!(call_of(heap, "ask"), Err(RowFault::NotSpelled)));
/// ```
#[derive(Clone, Copy)]
pub(crate) enum RowFault {
    /// What comes before the arrow asks for nothing.
    NotSpelled,
    /// There is no memory.
    OutOfMemory,
    /// After a refused allocation something had changed.
    Changed,
    /// Another answer came, which is printed.
    Other,
    /// A file wasn't read, or a line not printed.
    Stream,
}

/// What comes of a row, or why it isn't answered as it says.
pub(crate) type Result<T> = std::result::Result<T, RowFault>;

impl RowFault {
    /// What is printed in place of an answer.
    pub(crate) fn as_str(self) -> &'static str {
        match self {
            RowFault::NotSpelled => "it is no row",
            RowFault::OutOfMemory => "out of memory",
            RowFault::Changed => "a refused allocation has changed something",
            RowFault::Other => "another answer",
            RowFault::Stream => "a stream fails",
        }
    }
}

impl From<ReadEntryError> for RowFault {
    fn from(error: ReadEntryError) -> RowFault {
        match error {
            ReadEntryError::Fault(_) | ReadEntryError::Shape(_) => RowFault::NotSpelled,
            ReadEntryError::OutOfMemory => RowFault::OutOfMemory,
        }
    }
}

impl From<OutOfMemory> for RowFault {
    fn from(_refused: OutOfMemory) -> RowFault {
        RowFault::OutOfMemory
    }
}

impl From<AllocError> for RowFault {
    fn from(_refused: AllocError) -> RowFault {
        RowFault::OutOfMemory
    }
}

impl<T: Drop> From<AllocFailed<T>> for RowFault {
    fn from(_refused: AllocFailed<T>) -> RowFault {
        RowFault::OutOfMemory
    }
}

impl From<ParseIntError> for RowFault {
    fn from(_error: ParseIntError) -> RowFault {
        RowFault::NotSpelled
    }
}

impl From<io::Error> for RowFault {
    fn from(_error: io::Error) -> RowFault {
        RowFault::Stream
    }
}
