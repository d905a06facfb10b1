//! `CheckpointError`: why no checkpoint was made.

use thiserror::Error;

/// Why no checkpoint was made; the guardian is unchanged. If several apply, the first in this order
/// is returned.
///
/// ```text
/// assert_eq!(rt; guardian.begin_top()?, Reply::Begun(ActionId(0)));
/// assert_eq!(rt; guardian.checkpoint(), Err(CheckpointError::Busy));
/// ```
#[derive(Clone, Copy, Debug, PartialEq, Eq, Error)]
pub enum CheckpointError {
    /// An action is live.
    #[error("an action is live")]
    Busy,
    /// The next entry's number is past the greatest that a journal's first entry may have.
    #[error("the journal is full")]
    Full,
    /// There was no memory for the copies of shapes and contents.
    #[error("out of memory")]
    Memory,
}
