//! `listing_text`: the text of a log's listing, from rows that follow from one another.

ghost use Rattle.std.specs.Prelude.{◌≡◌, ◌↔◌, ◌++◌, ◌≤◌, ℕ, IfErr, IfOk, IsTrue, List, OnOk, map};
ghost use Rattle.std.specs.Prelude.{codes, flat_map, decimal, pos, ◌≢◌, ◌∷◌, [], MatchOption};
ghost use Rattle.argus_store.specs.declared.faulty_row.Table.TheVariants.{Batch as OfBatch, Opening};
ghost use Rattle.argus_store.specs.declared.faulty_row.RowFault.TheVariants.{Number};
ghost use Rattle.argus_store.specs.Journal.{Batch, Journal, OpeningLine, shown_batch, shown_line};
ghost use Rattle.argus_store.specs.{End.end_after, Listing.{AreOf, HasNoListing}};
ghost use Rattle.argus_store.specs.declared.listing_error.ListingError.TheVariants as error;
ghost use Rattle.argus_store.specs.Chain.{AreInPlace, BeginsElsewhere, Follow, IsChained, IsFirstFaulty};
ghost use Rattle.argus_store.specs.Chain.{IsFirstWrong, IsNext, IsOtherEnd, IsOutOfPlace, IsWrong};
ghost use Rattle.argus_store.specs.Chain.{begins_after, ended, faulty, StandsBefore, joined, listing_of};

use crate::end::End;
use crate::faulty_row::{FaultyRow, RowFault, Table};
use crate::head::Head;
use crate::listing_error::ListingError;
use crate::rows::{has_number, has_sum, key_of, number_of, split, text_of};
use crate::summing::sum_of;
use itoa::Buffer;
use sqlite::Row;
use std::alloc::Global;

/// The text of a log's listing, from its head, its opening's rows and its batches', as a store reads
/// them: the opening's lines, then those of the batches, each with a line feed behind it. At `Row`
/// they don't follow from one another, and this is the first row that doesn't.
///
/// ```text
/// let Some(head) = store.head()? else { return Ok(None) };
/// let (opening, batches) = (store.opening()?, store.batches()?);
/// let text = listing_text(rt.alloc(), &head, opening.as_slice(), batches.as_slice())?;
/// ```
pub fn listing_text(
    alloc: Global,
    head: &Head,
    opening: &[Row],
    batches: &[Row],
) -> Result<Vec<u8>, ListingError>
    ensures listed { (j : Journal) → AreOf j head.now opening.now batches.now
        → IfOk result (λ text. (text.items ≡ listing_of j) × IsChained j) }
    ensures faulty { (j : Journal) → AreOf j head.now opening.now batches.now
        → IfErr result (HasNoListing (IsFirstFaulty j)) }
{
    let mut text = Vec::new(alloc);
    push_lines(&mut text, opening)?;
    let entry = entry_behind(head, opening, batches)?;
    let start = start_of(head.name.as_str(), entry, text.as_slice());
    let end = push_batches(&mut text, head.name.as_str(), start, batches)?;
    compare_ends(head.end, end)?;
    Ok(text)
}

// Where the chain begins: behind the opening's lines, of which this is the text.
fn start_of(name: &str, entry: u64, text: &[u8]) -> End
    ensures { (ls : List OpeningLine) → text.now ≡ flat_map (λ (l : OpeningLine). ended l.text) ls
        → result ≡ begins_after name.now ls entry }
{
    End {
        next: entry,
        sum: sum_of(name.as_bytes(), entry, 0, without_last_feed(text)),
    }
}

fn without_last_feed(text: &[u8]) -> &[u8]
    ensures { (ls : List OpeningLine) → text.now ≡ flat_map (λ (l : OpeningLine). ended l.text) ls
        → result.now ≡ joined ls }
{
    match text.strip_suffix(b"\n") {
        Some(lines) => lines,
        None => text,
    }
}

// Whether the log's row says where the last batch ends.
fn compare_ends(said: End, end: End) -> Result<(), ListingError>
    ensures same { OnOk result (said ≡ end) }
    ensures wrong { IfErr result (HasNoListing (IsOtherEnd said end)) }
{
    if said.next != end.next {
        return Err(error_at(Table::Log, 0, RowFault::Number));
    }
    if said.sum != end.sum {
        return Err(error_at(Table::Log, 0, RowFault::Sum));
    }
    Ok(())
}

fn error_at(table: Table, row: i64, fault: RowFault) -> ListingError
    ensures { result ≡ error.Row (faulty table row fault) }
{
    ListingError::Row(FaultyRow { table, row, fault })
}

fn append(text: &mut Vec<u8>, more: &[u8]) -> Result<(), ListingError>
    ensures done { OnOk result (text.new.items ≡ text.old.items ++ more.now) }
    ensures failed { IfErr result (λ e. e ≡ error.OutOfMemory) }
{
    match text.extend_from_slice(more) {
        Ok(()) => Ok(()),
        Err(_) => Err(ListingError::OutOfMemory),
    }
}

// Appends the opening's lines, which have the numbers from 0 on.
fn push_lines(text: &mut Vec<u8>, rows: &[Row]) -> Result<(), ListingError>
    ensures pushed { (ls : List OpeningLine) → rows.now ≡ map shown_line ls
        → OnOk result ((text.new.items
        ≡ text.old.items ++ flat_map (λ (l : OpeningLine). ended l.text) ls) × AreInPlace 0 ls) }
    ensures faulty { (ls : List OpeningLine) → rows.now ≡ map shown_line ls
        → IfErr result (HasNoListing (IsOutOfPlace 0 ls)) }
{
    let mut number = 0;
    let mut rest = rows;
    while let Some((row, more)) = split(rest) {
        match push_line(text, number, row) {
            Ok(()) => {}
            Err(error) => return Err(error),
        }
        number += 1;
        rest = more;
    }
    Ok(())
}

// Appends the line of a row with this number.
fn push_line(text: &mut Vec<u8>, number: u64, row: &Row) -> Result<(), ListingError>
    ensures pushed { (l : OpeningLine) → row.now ≡ shown_line l
        → OnOk result ((text.new.items ≡ text.old.items ++ ended l.text)
        × (l.number ≡ pos number)) }
    ensures faulty { (l : OpeningLine) → row.now ≡ shown_line l
        → IfErr result (HasNoListing (λ fault. (l.number ≢ pos number)
        × (fault ≡ faulty Opening l.number Number))) }
{
    if !has_number(row, number) {
        return Err(error_at(Table::Opening, key_of(row), RowFault::Number));
    }
    let Some(line) = text_of(row) else {
        return Err(error_at(Table::Opening, key_of(row), RowFault::Kind));
    };
    append(text, line)?;
    append(text, b"\n")?;
    Ok(())
}

// The entry with which the batches begin, or the log ends if there are none, if the opening stands
// before it.
fn entry_behind(head: &Head, opening: &[Row], batches: &[Row]) -> Result<u64, ListingError>
    ensures entry { (j : Journal) → AreOf j head.now opening.now batches.now
        → IfOk result (λ entry. StandsBefore entry j.opening) }
    ensures faulty { (j : Journal) → AreOf j head.now opening.now batches.now
        → AreInPlace 0 j.opening → IfErr result (HasNoListing (BeginsElsewhere j)) }
{
    match batches {
        [] => standing(opening, head.end.next, Table::Log, 0),
        [first, ..] => entry_of(opening, first),
    }
}

// The entry that this row says comes next, if the opening stands before it.
fn standing(opening: &[Row], entry: u64, table: Table, row: i64) -> Result<u64, ListingError>
    ensures entry { (ls : List OpeningLine) → opening.now ≡ map shown_line ls
        → IfOk result (λ entry. StandsBefore entry ls) }
    ensures faulty { (ls : List OpeningLine) → opening.now ≡ map shown_line ls
        → IfErr result (HasNoListing (λ fault. ¬ StandsBefore entry ls
        × (fault ≡ faulty table row Number))) }
{
    if stands_before(opening, entry) {
        Ok(entry)
    } else {
        Err(error_at(table, row, RowFault::Number))
    }
}

// The entry of a batch, if the opening stands before it.
fn entry_of(opening: &[Row], first: &Row) -> Result<u64, ListingError>
    ensures entry { (ls : List OpeningLine) → opening.now ≡ map shown_line ls
        → IfOk result (λ entry. StandsBefore entry ls) }
    ensures faulty { (ls : List OpeningLine) (b : Batch) → opening.now ≡ map shown_line ls
        → first.now ≡ shown_batch b
        → IfErr result (HasNoListing (λ fault.
        ((entry : ℕ) → b.first ≡ pos entry → ¬ StandsBefore entry ls)
        × (fault ≡ faulty OfBatch b.first Number))) }
{
    match number_of(first) {
        Some(entry) => standing(opening, entry, Table::Batch, key_of(first)),
        None => Err(error_at(Table::Batch, key_of(first), RowFault::Number)),
    }
}

// Whether the opening says that it stands before this entry.
fn stands_before(opening: &[Row], entry: u64) -> bool
    ensures { (ls : List OpeningLine) → opening.now ≡ map shown_line ls
        → IsTrue result ↔ StandsBefore entry ls }
{
    let [first, ..] = opening else {
        return entry == 0;
    };
    match text_of(first) {
        Some(line) => says_entry(line, entry),
        None => false,
    }
}

pub(crate) fn says_entry(line: &[u8], entry: u64) -> bool
    ensures { IsTrue result ↔ ((rest : List ℕ)
        × (line.now ≡ codes "opening entries " ++ (decimal entry ++ (codes " " ++ rest)))) }
{
    let mut digits = Buffer::new();
    let Some(number) = behind(b"opening entries ", line) else {
        return false;
    };
    let Some(end) = behind(digits.format(entry).as_bytes(), number) else {
        return false;
    };
    behind(b" ", end).is_some()
}

// The rest of a line that begins like this.
fn behind<'a>(start: &[u8], line: &'a [u8]) -> Option<&'a [u8]>
    ensures { MatchOption result ((rest : List ℕ) → ¬ (line.now ≡ start.now ++ rest))
        (λ rest. line.now ≡ start.now ++ rest.now) }
{
    line.strip_prefix(start)
}

// Appends the lines of each batch, if it follows from what is before it, and tells where the last
// one ends.
fn push_batches(
    text: &mut Vec<u8>,
    name: &str,
    start: End,
    rows: &[Row],
) -> Result<End, ListingError>
    ensures pushed { (bs : List Batch) → rows.now ≡ map shown_batch bs
        → IfOk result (λ end. Follow name.now start bs end
        × (text.new.items ≡ text.old.items ++ flat_map (λ (b : Batch). ended b.lines) bs)) }
    ensures faulty { (bs : List Batch) → rows.now ≡ map shown_batch bs
        → IfErr result (HasNoListing (IsFirstWrong name.now start bs)) }
{
    let mut at = start;
    let mut rest = rows;
    while let Some((row, more)) = split(rest) {
        match push_batch(text, name, at, row) {
            Ok(after) => at = after,
            Err(error) => return Err(error),
        }
        rest = more;
    }
    Ok(at)
}

fn push_batch(text: &mut Vec<u8>, name: &str, at: End, row: &Row) -> Result<End, ListingError>
    ensures pushed { (b : Batch) → row.now ≡ shown_batch b
        → IfOk result (λ after. IsNext name.now at b × (after ≡ end_after name.now at b.lines)
        × (text.new.items ≡ text.old.items ++ ended b.lines)) }
    ensures faulty { (b : Batch) → row.now ≡ shown_batch b
        → IfErr result (HasNoListing (IsWrong name.now at b)) }
{
    let key = key_of(row);
    if !has_number(row, at.next) {
        return Err(error_at(Table::Batch, key, RowFault::Number));
    }
    let Some(lines) = text_of(row) else {
        return Err(error_at(Table::Batch, key, RowFault::Kind));
    };
    let Some(after) = at.after_bytes(name, lines) else {
        return Err(error_at(Table::Batch, key, RowFault::TooLarge));
    };
    if !has_sum(row, after.sum) {
        return Err(error_at(Table::Batch, key, RowFault::Sum));
    }
    append(text, lines)?;
    append(text, b"\n")?;
    Ok(after)
}
