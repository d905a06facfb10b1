//! `Unread`: why no part of a shape was read.

use std::alloc::AllocFailed;

/// Why no part of a shape was read.
#[derive(Debug, Drop)]
pub enum Unread {
    /// The text doesn't begin with a form that could be a part of a shape there.
    NoForm,
    /// There was no memory for what was read.
    Memory,
}

impl<T: Drop> From<AllocFailed<T>> for Unread {
    ghost use Rattle.std.specs.Prelude.{◌≡◌};
    ghost use Rattle.argus_texts.specs.declared.unread.Unread.TheVariants as unread;

    ghost from_gives = { λ _ given. given ≡ unread.Memory };

    fn from(_refused: AllocFailed<T>) -> Unread {
        Unread::Memory
    }
}
