//! `Sharing`: what names one sharing of a guardian.

use argus_board::Board;
use std::marker::Brand;
use std::sync::ledger::Ledger;

/// One sharing of a guardian: its ledger, its board, and how long the journal was at its start. The
/// caller that shares a guardian picks these in a proof; code is generic in it.
///
/// ```text
/// fn share<N: Sharing, R: Wait + Drop>(
///     rt: R,
///     heap: Heap,
///     guardian: Guardian,
///     blank: Blank,
///     keeper: Keeper,
/// ) -> Result<Guardian, NotShared>
///     requires name { blank.name ≡ N.name }
///     requires parts { (blank.parts ≡ N.parts) × (blank.parts ≡ 2) }
///     requires places { N.places ≡ 0 }
///     requires starts { StartsWith N.Board N.start guardian keeper }
/// {
///     let parts = Shared::<N, R>::new(rt, heap, guardian, 2, 0, blank, keeper)?;
///     ..                                          // two seats call, and settle
/// }
///
/// let guardian = share::<Brand, _>(rt, heap, guardian, Blank::new(2), Keeper::new())?;
/// ```
pub trait Sharing: Ledger + Board {
    ghost use Rattle.std.specs.Prelude.{ℕ};

    /// The number of the journal's next entry at the start.
    ghost start: { ℕ };
}

impl Sharing for Brand {
    ghost start = { 0 };
}
