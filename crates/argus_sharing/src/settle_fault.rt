//! `SettleFault`: why the receipts and the seats of a sharing don't agree with its journal.

use argus_memory::OutOfMemory;
use std::alloc::AllocFailed;
use thiserror::Error;

/// Why the receipts and the seats of a sharing don't agree with its journal.
///
/// | Fault | When | Text |
/// |---|---|---|
/// | `NotThere` | the entry of this number isn't the receipt's | `entry 3 is not that of the
/// receipt` |
/// | `Twice` | an earlier receipt has this number | `entry 3 has two receipts` |
/// | `Count` | the seats made more or fewer calls | `5 entries, and 4 calls of the seats` |
/// | `Folded` | a checkpoint has forgotten the entry | `entry 3 was folded` |
/// | `OutOfMemory` | there is no memory | `out of memory` |
///
/// An entry is the receipt's if it has its call and its reply. The numbers of entries are the
/// journal's, from its beginning; `Count` has how many entries and calls were made since the
/// sharing began. `OutOfMemory` may come in place of any other result.
///
/// Of one receipt `Folded` comes before `NotThere`, and that before `Twice`; of two receipts the
/// earlier one's fault; `Count` after all receipts.
///
/// ```text
/// if let Err(SettleFault::Twice(at)) = check(heap, journal, start, made, receipts) {
///     ..                              // two receipts have this number
/// }
/// ```
#[derive(Clone, Copy, Debug, PartialEq, Eq, Error)]
pub enum SettleFault {
    #[error("entry {0} is not that of the receipt")]
    NotThere(u64),
    #[error("entry {0} has two receipts")]
    Twice(u64),
    /// How many entries were made since the sharing began, and how many the seats made.
    #[error("{journal} entries, and {seats} calls of the seats")]
    Count { journal: u64, seats: u128 },
    #[error("entry {0} was folded")]
    Folded(u64),
    #[error("out of memory")]
    OutOfMemory,
}

impl From<OutOfMemory> for SettleFault {
    ghost use Rattle.std.specs.Prelude.{◌≡◌};
    ghost use Rattle.argus_sharing.specs.declared.settle_fault.SettleFault.TheVariants as fault;

    ghost from_gives = { λ _ e. e ≡ fault.OutOfMemory };

    fn from(_refused: OutOfMemory) -> SettleFault {
        SettleFault::OutOfMemory
    }
}

impl<T: Drop> From<AllocFailed<T>> for SettleFault {
    ghost use Rattle.std.specs.Prelude.{◌≡◌};
    ghost use Rattle.argus_sharing.specs.declared.settle_fault.SettleFault.TheVariants as fault;

    ghost from_gives = { λ _ e. e ≡ fault.OutOfMemory };

    fn from(_refused: AllocFailed<T>) -> SettleFault {
        SettleFault::OutOfMemory
    }
}
