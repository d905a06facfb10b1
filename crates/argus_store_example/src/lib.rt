//! A bank that outlives its process: each run pays into an account of a guardian that a database keeps.
#![tactic(auto)]

mod folding;

use argus_actions::ActionId;
use argus_guardian::{Guardian, ResumedGuardian, Resuming};
use argus_journal::{Call, Reply};
use argus_store::laws::{
    acknowledged_is_durable, appends_are_listed, kept_is_resumed, kept_takes_steps,
};
use argus_store::{KeepError, Kept, Store, listing_text};
use argus_values::{Change, Content, Heap, ObjId, OutOfMemory, Room, Shape, Ty, Value};
use folding::fold;
use sqlite::{Alter, Connection, FileStore, Unknown};
use sqlite_disk::Disk;
use std::alloc::Global;
use std::collections::VecDeque;

const FILE: &str = "bank.db";

// A program that makes many logs gives each a name of its own, 32 hexadecimal digits by chance.
const NAME: &str = "5f0c2d4b9e8a4f7a8f60c3a51b7d9e24";

const ACCOUNT: ObjId = ObjId(0);

// After so many payments the log begins again with what the account holds.
const FOLDED: usize = 3;

/// Pays once, and prints how much is kept: what the program does.
pub fn run(rt: HostRuntime) -> Result<(), KeepError> {
    let heap = Heap::new(rt.alloc()).map_err(|_| KeepError::OutOfMemory)?;
    make_log(&rt)?;
    print_payment(&rt, heap)
}

fn make_log(rt: &HostRuntime) -> Result<(), KeepError> {
    make_log_in(Connection::open(rt, FILE)?)
}

fn print_payment(rt: &HostRuntime, heap: Heap) -> Result<(), KeepError> {
    pay_and_close(rt, heap, Store::open(rt, FILE, Unknown)?)
}

// If the database is empty, it gets a log.
fn make_log_in<S: Alter + Drop>(conn: Connection<S>) -> Result<(), KeepError> {
    Store::create(conn, NAME, "1")?;
    Ok(())
}

// Pays, and says how much is kept.
fn pay_and_close<D: Disk + Drop>(
    rt: &HostRuntime,
    heap: Heap,
    store: Store<FileStore<D>>,
) -> Result<(), KeepError> {
    if let Some((payments, entries, store)) = pay(rt.alloc(), heap, store)? {
        let _ = println!(rt; "{payments} payments and {entries} entries are kept");
        drop(store.stop());
    }
    Ok(())
}

// One more payment. How many are kept then, and how many entries.
fn pay<S: Alter + Drop>(
    alloc: Global,
    heap: Heap,
    store: Store<S>,
) -> Result<Option<(usize, u64, Store<S>)>, KeepError> {
    let Some(mut bank) = resumed(alloc, heap, store)? else {
        return Ok(None);
    };
    if bank.guardian().base(ACCOUNT).is_none() {
        open_account(heap, &mut bank)?;
    }
    commit_one(&mut bank, Change::Addh(Value::Int(70)))?;
    let (guardian, mut store, end) = bank.into_parts();
    let payments = match guardian.base(ACCOUNT) {
        Some(Some(Content::Arr { items, .. })) => items.len(),
        _ => return Ok(None),
    };
    if payments % FOLDED == 0 {
        fold(heap, guardian, &mut store, NAME, end)?;
    }
    Ok(Some((payments, end.next, store)))
}

// An account without payments.
fn open_account<S: Alter>(heap: Heap, bank: &mut Kept<S>) -> Result<(), KeepError> {
    let items = VecDeque::new(heap.room());
    let empty = Change::create(heap, Content::Arr { low: 1, items })?;
    if let Ok(shape) = Shape::arr(Ty::Int) {
        bank.call(Call::Declare(shape))?;
    }
    commit_one(bank, empty)
}

// The guardian that the log has, over the log. The laws say that it has all that was acknowledged, for a
// proof that needs this.
fn resumed<S: Alter + Drop>(
    alloc: Global,
    heap: Heap,
    mut store: Store<S>,
) -> Result<Option<Kept<S>>, KeepError> {
    kept_takes_steps::<S>();
    acknowledged_is_durable();
    kept_is_resumed();
    appends_are_listed();
    let Some(text) = listing_of(alloc, &mut store)? else {
        return Ok(None);
    };
    let Some(guardian) = guardian_of(heap, text.as_slice()) else {
        return Ok(None);
    };
    let Some(end) = store.end(NAME)? else {
        return Ok(None);
    };
    Ok(Kept::over(heap, guardian, store, name_of_log(heap)?, end))
}

// The listing of the log.
fn listing_of<S: Alter + Drop>(
    alloc: Global,
    store: &mut Store<S>,
) -> Result<Option<Vec<u8>>, KeepError> {
    let Some(head) = store.head()? else {
        return Ok(None);
    };
    let (opening, batches) = (store.opening()?, store.batches()?);
    match listing_text(alloc, &head, opening.as_slice(), batches.as_slice()) {
        Ok(text) => Ok(Some(text)),
        Err(_) => Ok(None),
    }
}

fn guardian_of(heap: Heap, text: &[u8]) -> Option<Guardian> {
    let mut resuming = Resuming::new(heap);
    resuming.take(text);
    match resuming.into_guardian() {
        Ok(ResumedGuardian { guardian, .. }) => Some(guardian),
        Err(_) => None,
    }
}

fn name_of_log(heap: Heap) -> Result<String<Room>, OutOfMemory> {
    let mut name = String::new(heap.room());
    name.push_str(NAME)?;
    Ok(name)
}

// A topaction with one change. `Ok`: it is in the database.
fn commit_one<S: Alter>(bank: &mut Kept<S>, change: Change) -> Result<(), KeepError> {
    if let Reply::Begun(action) = bank.call(Call::BeginTop)? {
        bank.call(Call::Alter(action, ACCOUNT, change))?;
        bank.commit(action)?;
    }
    Ok(())
}
