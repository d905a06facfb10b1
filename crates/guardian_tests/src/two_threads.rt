//! Two threads pay into one account of a guardian that they share. docs/RATTLE.md shows it.

ghost use Rattle.std.specs.Prelude.{◌≡◌};
ghost use Rattle.argus_guardian.specs.Starting.{StartsWith};

use crate::host::Host;
use crate::row_fault::RowFault;
use argus_actions::ActionId;
use argus_guardian::{Guardian, Keeper, Parts, Receipt, Seat, Shared, Sharing};
use argus_journal::{Call, Reply};
use argus_values::{Change, Content, Heap, ObjId, OutOfMemory, Room, Shape, Ty, Value};
use std::collections::VecDeque;
use std::marker::Brand;
use std::sync::Wait;
use std::sync::ledger::Blank;
use std::thread::{Threads, join};

const ACCOUNT: ObjId = ObjId(0);

/// Prints how many payments two threads have made, and how many entries the journal has then.
pub(crate) fn print_payments<R: Host>(rt: R, heap: Heap) -> Result<(), RowFault> {
    let mut guardian = Guardian::new(heap);
    let items = VecDeque::new(heap.room());
    let empty = Change::create(heap, Content::Arr { low: 1, items })?;
    if let Ok(shape) = Shape::arr(Ty::Int) {
        guardian.call(Call::Declare(shape))?;
    }
    guardian.call(Call::BeginTop)?;
    guardian.call(Call::Alter(ActionId(0), ACCOUNT, empty))?;
    guardian.call(Call::Commit(ActionId(0)))?;
    let guardian = pay_from_threads::<Brand, R>(rt, heap, guardian, Blank::new(2), Keeper::new())?;
    let entries = guardian.journal().journal().len();
    if let Some(Some(Content::Arr { items, .. })) = guardian.base(ACCOUNT) {
        println!(rt; "settled: {} payments, {entries} entries", items.len())?;
    }
    Ok(())
}

// Shares the guardian, and settles with all receipts. The conditions say which sharing this is.
fn pay_from_threads<N: Sharing + Send + Sync, R: Threads + Wait + Copy + Drop + Send + Sync>(
    rt: R,
    heap: Heap,
    guardian: Guardian,
    blank: Blank,
    keeper: Keeper,
) -> Result<Guardian, RowFault>
    requires name { blank.name ≡ N.name }
    requires parts { (blank.parts ≡ N.parts) × (blank.parts ≡ 2) }
    requires places { N.places ≡ 0 }
    requires starts { StartsWith N.Board N.start guardian keeper }
{
    let parts = Shared::<N, R>::new(rt, heap, guardian, 2, 0, blank, keeper);
    let Parts {
        shared,
        mut seats,
        ..
    } = parts.map_err(|_| OutOfMemory)?;
    let second = seats.pop().ok_or(OutOfMemory)?;
    let first = seats.pop().ok_or(OutOfMemory)?;
    let (one, other) = join(
        &rt,
        || pay(rt, heap, &shared, first, 70),
        || pay(rt, heap, &shared, second, 30),
    );
    let ((first, mut receipts), (second, mut others)) = (one?, other?);
    receipts.append(&mut others)?;
    seats.push(first)?;
    seats.push(second)?;
    let settled = shared.settle(seats, receipts.as_slice());
    settled.map_err(|_| RowFault::Other)
}

// A topaction that adds a payment. Each call that was made has a receipt.
fn pay<N: Sharing, R: Wait + Drop>(
    rt: R,
    heap: Heap,
    shared: &Shared<N, R>,
    mut seat: Seat<N>,
    amount: i64,
) -> Result<(Seat<N>, Vec<Receipt, Room>), OutOfMemory> {
    let mut receipts = Vec::new(heap.room());
    if let Some(a) = begin(&rt, shared, &mut seat, &mut receipts)? {
        let payment = Call::Alter(a, ACCOUNT, Change::Addh(Value::Int(amount)));
        receipts.push(shared.call_waiting(&rt, &mut seat, payment, 1000)?)?;
        receipts.push(shared.call(&rt, &mut seat, Call::Commit(a))?)?;
    }
    Ok((seat, receipts))
}

// Begins a topaction. `None` if that is refused.
fn begin<N: Sharing, R: Wait + Drop>(
    rt: &R,
    shared: &Shared<N, R>,
    seat: &mut Seat<N>,
    receipts: &mut Vec<Receipt, Room>,
) -> Result<Option<ActionId>, OutOfMemory> {
    let begun = shared.call(rt, seat, Call::BeginTop)?;
    let action = match begun.reply {
        Reply::Begun(a) => Some(a),
        _ => None,
    };
    receipts.push(begun)?;
    Ok(action)
}
