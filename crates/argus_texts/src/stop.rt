//! `Stop`: why a part of a text wasn't read.

use argus_memory::OutOfMemory;
use std::alloc::{AllocError, AllocFailed};

/// Why a part of a text wasn't read.
///
/// It counts the bytes that are left, and not those that were read, so that a reader can pass on
/// unchanged what the reader of a part returned.
#[derive(Debug, Drop)]
pub enum Stop {
    /// This many bytes are left where the text stops being the beginning of a form.
    Left(usize),
    /// There was no memory for what was read.
    Memory,
}

impl From<OutOfMemory> for Stop {
    ghost use Rattle.std.specs.Prelude.{◌≡◌};
    ghost use Rattle.argus_texts.specs.declared.stop.Stop.TheVariants as stop;

    ghost from_gives = { λ _ given. given ≡ stop.Memory };

    fn from(_refused: OutOfMemory) -> Stop {
        Stop::Memory
    }
}

impl From<AllocError> for Stop {
    ghost use Rattle.std.specs.Prelude.{◌≡◌};
    ghost use Rattle.argus_texts.specs.declared.stop.Stop.TheVariants as stop;

    ghost from_gives = { λ _ given. given ≡ stop.Memory };

    fn from(_refused: AllocError) -> Stop {
        Stop::Memory
    }
}

impl<T: Drop> From<AllocFailed<T>> for Stop {
    ghost use Rattle.std.specs.Prelude.{◌≡◌};
    ghost use Rattle.argus_texts.specs.declared.stop.Stop.TheVariants as stop;

    ghost from_gives = { λ _ given. given ≡ stop.Memory };

    fn from(_refused: AllocFailed<T>) -> Stop {
        Stop::Memory
    }
}
