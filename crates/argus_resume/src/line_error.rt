//! `LineError`: why a line wasn't taken.

use crate::line_fault::LineFault;
use argus_memory::OutOfMemory;
use std::alloc::AllocFailed;
use thiserror::Error;

/// Why a line wasn't taken. Nothing has changed, and the line may be passed in again.
///
/// ```text
/// match resuming.take_line(line) {
///     Ok(()) => ..,
///     Err(LineError::Fault(fault)) => ..,         // it isn't the next line
///     Err(LineError::OutOfMemory) => ..,          // nothing is said of the line
/// }
/// ```
#[derive(Debug, Drop, Error)]
pub enum LineError {
    /// It isn't the next line of the listing.
    #[error("{0}")]
    Fault(LineFault),
    /// There is no memory.
    #[error("out of memory")]
    OutOfMemory,
}

impl From<OutOfMemory> for LineError {
    ghost use Rattle.std.specs.Prelude.{◌≡◌};
    ghost use Rattle.argus_resume.specs.declared.line_error.LineError.TheVariants as error;

    ghost from_gives = { λ _ given. given ≡ error.OutOfMemory };

    fn from(_refused: OutOfMemory) -> LineError {
        LineError::OutOfMemory
    }
}

impl<T: Drop> From<AllocFailed<T>> for LineError {
    ghost use Rattle.std.specs.Prelude.{◌≡◌};
    ghost use Rattle.argus_resume.specs.declared.line_error.LineError.TheVariants as error;

    ghost from_gives = { λ _ given. given ≡ error.OutOfMemory };

    fn from(_refused: AllocFailed<T>) -> LineError {
        LineError::OutOfMemory
    }
}
