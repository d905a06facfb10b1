//! `NameError`: why a text isn't a name.

use argus_memory::OutOfMemory;
use std::alloc::AllocError;
use thiserror::Error;

/// Why a text isn't a [`Name`](crate::Name).
///
/// ```text
/// match Name::new(heap, "Balance") {
///     Ok(name) => ..,
///     Err(NameError::BadName) => ..,          // here: a capital letter
///     Err(NameError::OutOfMemory) => ..,
/// }
/// ```
#[derive(Clone, Copy, Debug, PartialEq, Eq, Error)]
pub enum NameError {
    /// The text isn't 1 to 32 bytes of `[a-z0-9_]`.
    #[error("a name is 1 to 32 bytes of a-z, 0-9 and _")]
    BadName,
    /// There was no memory for the copy.
    #[error("out of memory")]
    OutOfMemory,
}

impl From<AllocError> for NameError {
    ghost use Rattle.argus_contents.specs.declared.name_error.NameError.TheVariants as error;
    ghost use Rattle.std.specs.Prelude.{◌≡◌};

    ghost from_gives = { λ _ given. given ≡ error.OutOfMemory };

    fn from(_refused: AllocError) -> NameError {
        NameError::OutOfMemory
    }
}
