//! `KeepError`: why entries aren't in the log.

use argus_values::OutOfMemory;
use sqlite::Error;

/// Why entries aren't in the log, as far as is known.
#[derive(Clone, Copy, Debug, PartialEq, Eq)]
pub enum KeepError {
    OutOfMemory,
    /// The log isn't the guardian's: it has another name, or ends elsewhere, since another store has
    /// written it.
    OtherLog,
    /// The database refused.
    Database(Error),
}

impl From<OutOfMemory> for KeepError {
    fn from(_: OutOfMemory) -> KeepError {
        KeepError::OutOfMemory
    }
}

impl From<Error> for KeepError {
    fn from(error: Error) -> KeepError {
        KeepError::Database(error)
    }
}
