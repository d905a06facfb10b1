//! `ListError`: why a listing wasn't written, or not all of it.

use argus_memory::OutOfMemory;
use thiserror::Error;

/// Why a listing isn't there, or not all of it.
///
/// | Error | Text | When |
/// |---|---|---|
/// | `OutOfMemory` | `out of memory` | there is no memory |
/// | `Write` | `write fault` | the writer failed, or accepted nothing |
///
/// ```text
/// write_listing(heap, &guardian, script.names(), Listing::Bases, &mut writer)?;
/// ```
#[derive(Clone, Copy, Debug, PartialEq, Eq, Error)]
pub enum ListError {
    #[error("out of memory")]
    OutOfMemory,
    /// A write failed, or accepted nothing.
    #[error("write fault")]
    Write,
}

impl From<OutOfMemory> for ListError {
    ghost use Rattle.std.specs.Prelude.{◌≡◌};
    ghost use Rattle.argus_listings.specs.declared.list_error.ListError.TheVariants as variants;

    ghost from_gives = { λ _ e. e ≡ variants.OutOfMemory };

    fn from(_refused: OutOfMemory) -> ListError {
        ListError::OutOfMemory
    }
}
