//! Sharing a guardian, whose seats and lookers answer rows.

ghost use Rattle.std.specs.Prelude.{◌≡◌};
ghost use Rattle.argus_guardian.specs.Starting.{StartsWith};

use crate::host::Host;
use crate::row_fault::{Result, RowFault};
use crate::session::play;
use crate::setting::Setting;
use argus_guardian::{Guardian, Keeper, NotShared, Shared, Sharing};
use std::marker::Brand;
use std::mem::replace;
use std::sync::ledger::Blank;

/// Shares the guardian among this many seats and lookers, which answer its rows. Where an allocation
/// is refused it is shared with memory.
pub(crate) fn share<R: Host>(
    rt: R,
    setting: Setting<'_>,
    guardian: &mut Guardian,
    seats: u8,
    lookers: u8,
) -> Result<()> {
    if !share_once(rt, setting, guardian, seats, lookers)? {
        setting.budget.lift();
        if !share_once(rt, setting, guardian, seats, lookers)? {
            return Err(RowFault::OutOfMemory);
        }
    }
    Ok(())
}

// Whether it is shared. If not, it is unchanged.
fn share_once<R: Host>(
    rt: R,
    setting: Setting<'_>,
    guardian: &mut Guardian,
    seats: u8,
    lookers: u8,
) -> Result<bool> {
    let taken = replace(guardian, Guardian::new(setting.heap));
    share_as::<Brand, R>(
        rt,
        setting,
        taken,
        seats,
        lookers,
        Blank::new(u64::from(seats)),
        Keeper::new(),
        guardian,
    )
}

// Whether the guardian that was taken is shared. If not, it is put back.
fn share_as<N: Sharing + Send + Sync, R: Host>(
    rt: R,
    setting: Setting<'_>,
    taken: Guardian,
    seats: u8,
    lookers: u8,
    blank: Blank,
    keeper: Keeper,
    guardian: &mut Guardian,
) -> Result<bool>
    requires name { blank.name ≡ N.name }
    requires parts { (blank.parts ≡ N.parts) × (blank.parts ≡ seats) }
    requires places { N.places ≡ lookers }
    requires starts { StartsWith N.Board N.start taken keeper }
{
    let (seats, lookers) = (u32::from(seats), u32::from(lookers));
    match Shared::<N, R>::new(rt, setting.heap, taken, seats, lookers, blank, keeper) {
        Ok(parts) => {
            *guardian = play(rt, setting, parts)?;
            Ok(true)
        }
        Err(NotShared { guardian: kept }) => {
            *guardian = kept;
            Ok(false)
        }
    }
}
