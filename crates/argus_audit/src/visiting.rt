//! What the entries leave in an object: its writes are visited, and no other entries.

ghost use Rattle.std.specs.Prelude.{IfOk, OnOk, Some, reverse, slice_get, true, ◌+◌, ◌<◌, ◌≡◌};
ghost use Rattle.argus_audit.specs.{Audit.IsAudit, Places.first_entries, Writes.Skips};
ghost use Rattle.argus_contents.specs.Content.{KeepsLimits, plain_option};
ghost use Rattle.argus_entries.specs.Entry.{PlainEntry, plain_entry};
ghost use Rattle.argus_journal.specs.{Entries.content_after_call, Journal.{entries_of, opening_of}};
ghost use Rattle.argus_journal.specs.{Legal.Legal, Opening.{content_in, is_sound}};
ghost use Rattle.argus_journal.specs.Replaying.{replayed, writer_by};

use crate::audit::Audit;
use crate::owning::counts;
use crate::reading::{count, entry_at};
use crate::writes::write_of;
use argus_actions::ActionId;
use argus_contents::{Content, ObjId, alter_in_place};
use argus_entries::{Call, Entry};
use argus_journal::Journal;
use argus_memory::{Heap, OutOfMemory};

/// What the writes that count for the reader leave in the object; without a reader, for good.
pub(crate) fn replay(
    heap: Heap,
    journal: &Journal,
    audit: &Audit,
    reader: Option<ActionId>,
    o: ObjId,
) -> Result<Option<Content>, OutOfMemory>
    requires legal { Legal (opening_of journal.now) (entries_of journal.now) }
    requires audit { IsAudit audit.now (opening_of journal.now) (entries_of journal.now) }
    ensures { let j = entries_of journal.now in
        IfOk result (λ content. plain_option content
        ≡ replayed (opening_of journal.now) j reader o.0 j) }
{
    let end = count(journal);
    let mut content = opening_content(heap, journal, o)?;
    let mut place = audit.writes().first(journal, o);
    while place < end {
        visit(heap, journal, audit, reader, o, place, &mut content)?;
        place = next_place(journal, audit, o, place, end);
    }
    Ok(content)
}

// Makes the write at this place again, if it is one of the object's and counts.
fn visit(
    heap: Heap,
    journal: &Journal,
    audit: &Audit,
    reader: Option<ActionId>,
    o: ObjId,
    place: usize,
    content: &mut Option<Content>,
) -> Result<(), OutOfMemory>
    requires legal { Legal (opening_of journal.now) (entries_of journal.now) }
    requires sound { is_sound (opening_of journal.now) ≡ true }
    requires audit { IsAudit audit.now (opening_of journal.now) (entries_of journal.now) }
    requires content { let j = entries_of journal.now in plain_option content.old
        ≡ replayed (opening_of journal.now) j reader o.0 (first_entries j place) }
    ensures { let j = entries_of journal.now in OnOk result (plain_option content.new
        ≡ replayed (opening_of journal.now) j reader o.0 (first_entries j (place + 1))) }
{
    let Some(entry) = entry_at(journal, place) else {
        return Ok(());
    };
    let Some(a) = writer_of(entry, o) else {
        return Ok(());
    };
    if counts(journal, audit.tree(), reader, a) {
        write(heap, entry, content)?;
    }
    Ok(())
}

// The place to go on with, after this one: no entry between them writes the object.
fn next_place(journal: &Journal, audit: &Audit, o: ObjId, place: usize, end: usize) -> usize
    requires audit { IsAudit audit.now (opening_of journal.now) (entries_of journal.now) }
    requires there { place < end }
    ensures later { place < result }
    ensures skips { Skips (reverse (entries_of journal.now)) o.0 (place + 1) result }
{
    match writer_at(journal, place, o) {
        Some(_) => audit.writes().next(journal, o, place).max(place + 1),
        None => place + 1,
    }
}

// The action that writes the object by the entry at this place.
fn writer_at(journal: &Journal, place: usize, o: ObjId) -> Option<ActionId>
    ensures { (e : PlainEntry) → slice_get (reverse (entries_of journal.now)) place ≡ Some e
        → result ≡ writer_by e.call e.reply o.0 }
{
    writer_of(entry_at(journal, place)?, o)
}

// The action that writes the object by this entry.
fn writer_of(entry: &Entry, o: ObjId) -> Option<ActionId>
    ensures { let e = plain_entry entry.now in result ≡ writer_by e.call e.reply o.0 }
{
    match write_of(entry) {
        Some((a, written)) => { if written == o { Some(a) } else { None } }
        None => None,
    }
}

// What the entry's call makes of the content.
fn write(heap: Heap, entry: &Entry, content: &mut Option<Content>) -> Result<(), OutOfMemory>
    requires { KeepsLimits (plain_option content.old) }
    ensures { OnOk result (plain_option content.new
        ≡ content_after_call (plain_entry entry.now).call (plain_option content.old)) }
{
    match &entry.call {
        Call::Alter(_, _, change) => {
            let _ = alter_in_place(heap, content, change)?;
            Ok(())
        }
        Call::TestWrite(_, _) => Ok(()),
        Call::Declare(_) | Call::BeginTop | Call::BeginSub(_) | Call::BeginNested(_) => Ok(()),
        Call::Commit(_) | Call::Abort(_) | Call::AbortOthers(_) => Ok(()),
        Call::Ask(_, _, _) | Call::TestRead(_, _) => Ok(()),
    }
}

// A copy of what the object held in the opening; none if it wasn't declared. The opening is sound.
fn opening_content(heap: Heap, journal: &Journal, o: ObjId) -> Result<Option<Content>, OutOfMemory>
    ensures sound { is_sound (opening_of journal.now) ≡ true }
    ensures content { IfOk result (λ content. plain_option content
        ≡ content_in (opening_of journal.now).objects o.0) }
{
    match journal.opening(o) {
        Some((_, content)) => Content::duplicate_option(heap, content),
        None => Ok(None),
    }
}
