//! `check`: whether receipts and seats agree with a journal.

ghost use Rattle.std.specs.Prelude.{◌+◌, ◌≡◌, ◌≤◌, ◌++◌, ◌∷◌, [], All, None, Some, map, IfErr};
ghost use Rattle.std.specs.Prelude.{IfOk, OnOk};
ghost use Rattle.argus_entries.specs.{Call.plain_call, Entry.plain_entry, Reply.plain_reply};
ghost use Rattle.argus_entries.specs.Same.{same_call, same_entry, same_reply};
ghost use Rattle.argus_journal.specs.Folding.{next_entry_number};
ghost use Rattle.argus_journal.specs.Journal.{entries_of, entry_at, opening_of};
ghost use Rattle.argus_sharing.specs.Checking.{AreApart, IsSettleAnswer, Stands, first_fault};
ghost use Rattle.argus_sharing.specs.Checking.{is_entry, receipt_fault, settle_fault};
ghost use Rattle.argus_sharing.specs.Receipt.{plain_receipt};

use crate::receipt::Receipt;
use crate::settle_fault::SettleFault;
use argus_entries::Entry;
use argus_journal::Journal;
use argus_memory::{Heap, OutOfMemory};
use indexmap::IndexSet;
use std::alloc::Global;
use std::hash::{BuildHasherDefault, FoldHasher};

// The numbers of receipts that are in the journal, so nobody can choose them to collide.
type Numbers = IndexSet<u64, BuildHasherDefault<FoldHasher>, Global>;

/// Whether receipts and seats agree with a journal: each receipt's entry is in it at its number, no
/// two receipts have the same number, and the seats made as many calls as there are entries after
/// the first `start`.
///
/// It returns the first fault: for each receipt in turn `Folded`, `NotThere` and `Twice` in this
/// order, then `Count`. `OutOfMemory` may come in place of any result. Its time grows with the size
/// of the receipts only.
///
/// Condition: the journal has had at least `start` entries, folded ones counted.
///
/// ```text
/// check(heap, journal, 0, 3, receipts.as_slice())?;
/// ```
pub fn check(
    heap: Heap,
    journal: &Journal,
    start: u64,
    made: u128,
    receipts: &[Receipt],
) -> Result<(), SettleFault>
    requires { start ≤ next_entry_number (opening_of journal.now) (entries_of journal.now) }
    ensures stand { OnOk result
        (All (Stands (opening_of journal.now) (entries_of journal.now))
        (map plain_receipt receipts.now)) }
    ensures apart { OnOk result (AreApart (map plain_receipt receipts.now)) }
    ensures count { OnOk result
        (next_entry_number (opening_of journal.now) (entries_of journal.now) ≡ start + made) }
    ensures fault { IfErr result (IsSettleAnswer
        (settle_fault (opening_of journal.now) (entries_of journal.now) start made
        (map plain_receipt receipts.now))) }
{
    check_receipts(heap, journal, receipts)?;
    let entries = journal.len() - start;
    if u128::from(entries) == made {
        Ok(())
    } else {
        Err(SettleFault::Count {
            journal: entries,
            seats: made,
        })
    }
}

// No numbers, and room for this many.
fn room_for(heap: Heap, count: usize) -> Result<Numbers, OutOfMemory>
    ensures { IfOk result (λ numbers. numbers.keys ≡ []) }
{
    let hasher = BuildHasherDefault::default();
    let numbers = IndexSet::with_capacity_and_hasher(heap.ask()?, count, hasher)?;
    Ok(numbers)
}

// Whether each receipt is without a fault.
fn check_receipts(heap: Heap, journal: &Journal, receipts: &[Receipt]) -> Result<(), SettleFault>
    ensures ok { OnOk result (first_fault (opening_of journal.now) (entries_of journal.now) []
        (map plain_receipt receipts.now) ≡ None) }
    ensures err { IfErr result (IsSettleAnswer (first_fault (opening_of journal.now)
        (entries_of journal.now) [] (map plain_receipt receipts.now))) }
{
    if receipts.is_empty() {
        return Ok(());
    }
    let mut earlier = room_for(heap, receipts.len())?;
    for receipt in receipts {
        check_receipt(journal, &mut earlier, receipt)?;
    }
    Ok(())
}

// Whether the receipt is without a fault after those with these numbers; if so, its number is
// added.
fn check_receipt(
    journal: &Journal,
    earlier: &mut Numbers,
    receipt: &Receipt,
) -> Result<(), SettleFault>
    ensures ok { OnOk result (receipt_fault (opening_of journal.now) (entries_of journal.now)
        earlier.old.keys (plain_receipt receipt.now) ≡ None) }
    ensures added { OnOk result
        (earlier.new.keys ≡ earlier.old.keys ++ (plain_receipt receipt.now).at ∷ []) }
    ensures err { IfErr result (IsSettleAnswer (receipt_fault (opening_of journal.now)
        (entries_of journal.now) earlier.old.keys (plain_receipt receipt.now))) }
{
    if receipt.at < journal.first_entry() {
        return Err(SettleFault::Folded(receipt.at));
    }
    if !stands(journal, receipt) {
        return Err(SettleFault::NotThere(receipt.at));
    }
    if earlier.insert(receipt.at)? {
        Ok(())
    } else {
        Err(SettleFault::Twice(receipt.at))
    }
}

// Whether the receipt's call and reply are in the journal at its number.
fn stands(journal: &Journal, receipt: &Receipt) -> bool
    ensures { result ≡ is_entry (plain_receipt receipt.now).entry
        (entry_at (opening_of journal.now) (entries_of journal.now) receipt.now.at) }
{
    match journal.get(receipt.at) {
        Some(entry) => is_of(entry, receipt),
        None => false,
    }
}

// Whether the entry has the receipt's call and reply.
fn is_of(entry: &Entry, receipt: &Receipt) -> bool
    ensures { result ≡ same_entry (plain_entry entry.now) (plain_receipt receipt.now).entry }
{
    has_call(entry, receipt) && has_reply(entry, receipt)
}

fn has_call(entry: &Entry, receipt: &Receipt) -> bool
    ensures { result ≡ same_call (plain_call entry.now.call) (plain_call receipt.now.call) }
{
    entry.call == receipt.call
}

fn has_reply(entry: &Entry, receipt: &Receipt) -> bool
    ensures { result ≡ same_reply (plain_reply entry.now.reply) (plain_reply receipt.now.reply) }
{
    entry.reply == receipt.reply
}
