//! A call that waits in one thread, and what another thread does meanwhile.

use crate::calling::make_call;
use crate::each_call::make_each;
use crate::host::Host;
use crate::row_fault::Result;
use crate::setting::Setting;
use argus_actions::ActionId;
use argus_guardian::{Receipt, Seat, Shared, Sharing};
use argus_journal::Call;
use argus_values::{Change, ObjId, OutOfMemory, Room, Value};
use std::sync::Wait;
use std::sync::atomic::{AtomicU64, Ordering};
use std::thread::{join, yield_now};

/// How often a thread yields, so that another one may begin to wait, or wake up.
pub(crate) const YIELDS: u32 = 1000;

/// Makes the waiting call by the second seat in a thread of its own. When that has begun, the first
/// seat makes the others, whose receipts are added: calls between commas, one by one; or `together` and
/// such calls.
pub(crate) fn wait_meanwhile<N: Sharing + Send + Sync, R: Host>(
    rt: &R,
    setting: Setting<'_>,
    shared: &Shared<N, R>,
    first: &mut Seat<N>,
    second: &mut Seat<N>,
    patience: u32,
    others: &str,
    receipts: &mut Vec<Receipt, Room>,
) -> Result<Receipt> {
    let word = AtomicU64::new(0);
    let begun = &word;
    let (waited, made) = join(
        rt,
        move || wait_there(rt, shared, second, patience, begun),
        || {
            wait_for(rt, begun);
            make_others(rt, setting, shared, first, others, receipts)
        },
    );
    made?;
    Ok(waited?)
}

// Always the same call.
fn wait_there<N: Sharing, R: Wait + Drop>(
    rt: &R,
    shared: &Shared<N, R>,
    seat: &mut Seat<N>,
    patience: u32,
    begun: &AtomicU64,
) -> std::result::Result<Receipt, OutOfMemory> {
    begun.store(1, Ordering::SeqCst);
    let waiting = Call::Alter(ActionId(2), ObjId(0), Change::SetField(0, Value::Int(1)));
    shared.call_waiting(rt, seat, waiting, patience)
}

// Yields until the other thread has begun, and then for some time.
fn wait_for(rt: &impl Wait, begun: &AtomicU64) {
    for _ in rt.forever() {
        if begun.load(Ordering::SeqCst) == 1 {
            break;
        }
        yield_now();
    }
    take_turns(YIELDS);
}

/// Yields this many times.
pub(crate) fn take_turns(turns: u32) {
    for _turn in 0..turns {
        yield_now();
    }
}

fn make_others<N: Sharing, R: Wait + Drop>(
    rt: &R,
    setting: Setting<'_>,
    shared: &Shared<N, R>,
    seat: &mut Seat<N>,
    others: &str,
    receipts: &mut Vec<Receipt, Room>,
) -> Result<()> {
    if let Some(together) = others.strip_prefix("together ") {
        make_each(rt, setting, shared, seat, together, 0, receipts)?;
        return Ok(());
    }
    for call in others.split(", ") {
        let receipt = make_call(rt, setting, shared, seat, call)?;
        receipts.push(receipt)?;
        take_turns(YIELDS);
    }
    Ok(())
}
