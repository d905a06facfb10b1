//! `LookFault`: why a look returned nothing.

use thiserror::Error;

/// Why a look returned nothing. The looker still sees what it saw before.
///
/// | Fault | Text | When |
/// |---|---|---|
/// | `Memory` | `out of memory` | there is no memory for the copies |
/// | `Closed` | `board closed` | the board has ended |
///
/// ```text
/// let found = looker.look(heap, &[ObjId(0), ObjId(1)])?;
/// ```
#[derive(Clone, Copy, Debug, PartialEq, Eq, Error)]
pub enum LookFault {
    /// There was no memory for the copies.
    #[error("out of memory")]
    Memory,
    /// The board has ended.
    #[error("board closed")]
    Closed,
}
