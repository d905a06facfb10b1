//! `Writes`: where in a journal each object is written.

ghost use Rattle.std.specs.{Option.option_map, Prelude.{slice_set, ◌+◌, ◌≡◌}};
ghost use Rattle.std.specs.Prelude.{IfOk, None, Some, if◌then◌else◌, length, reverse, slice_get};
ghost use Rattle.argus_audit.specs.Writes.{AreHeads, AreLinks, AreWrites, IsWrite, Skips};
ghost use Rattle.argus_audit.specs.Writes.{written_by};
ghost use Rattle.argus_entries.specs.{Entry.{PlainEntry, plain_entry}, Reply.plain_reply};
ghost use Rattle.argus_contents.specs.Answer.{plain_answer};
ghost use Rattle.argus_journal.specs.Events as events;
ghost use Rattle.argus_journal.specs.Journal.{entries_of};

use crate::reading::{count, entry_at};
use argus_actions::ActionId;
use argus_contents::{Answer, ObjId};
use argus_entries::{Call, Entry, Reply};
use argus_journal::Journal;
use argus_memory::{Heap, OutOfMemory, Room};

/// The places of each object's writes: of the first one, and for each write that of the next. A
/// place is passed by only if its entry doesn't write the object.
#[derive(Drop)]
pub(crate) struct Writes {
    // For each object the place of its first write; past the last entry if there is none.
    first: Vec<usize, Room>,
    // For each write the place of the object's next one; for other entries 0.
    next: Vec<usize, Room>,
}

impl Writes {
    /// The writes of this many objects. `OutOfMemory`: there was no memory for their places.
    pub(crate) fn of(heap: Heap, journal: &Journal, objects: u32) -> Result<Writes, OutOfMemory>
        ensures { IfOk result (λ writes. AreWrites writes (reverse (entries_of journal.now))) }
    {
        let count = count(journal);
        let mut first = vec![in heap.room(); count; objects as usize]?;
        let mut next = vec![in heap.room(); 0; count]?;
        link(journal, first.as_mut_slice(), next.as_mut_slice());
        Ok(Writes { first, next })
    }

    /// A place to begin with: no entry before it writes the object.
    pub(crate) fn first(&self, journal: &Journal, o: ObjId) -> usize
        requires { AreWrites self.now (reverse (entries_of journal.now)) }
        ensures { Skips (reverse (entries_of journal.now)) o.0 0 result }
    {
        match head_of(self.first.as_slice(), o) {
            Some(place) => place,
            None => 0,
        }
    }

    /// A place to go on with behind a write of the object: no entry after this place and before
    /// that one writes it.
    pub(crate) fn next(&self, journal: &Journal, o: ObjId, place: usize) -> usize
        requires writes { AreWrites self.now (reverse (entries_of journal.now)) }
        requires written { IsWrite (reverse (entries_of journal.now)) o.0 place }
        ensures { Skips (reverse (entries_of journal.now)) o.0 (place + 1) result }
    {
        match self.next.get(place) {
            Some(next) => *next,
            None => 0,
        }
    }
}

// Links each write to the next one of its object, the newest first.
fn link(journal: &Journal, first: &mut [usize], next: &mut [usize])
    requires heads { AreHeads (reverse (entries_of journal.now))
        (length (entries_of journal.now)) first.old }
    requires links { AreLinks (reverse (entries_of journal.now)) next.old }
    ensures heads { AreHeads (reverse (entries_of journal.now)) 0 first.new }
    ensures links { AreLinks (reverse (entries_of journal.now)) next.new }
{
    let mut place = count(journal);
    while place > 0 {
        place -= 1;
        link_entry(journal, place, first, next);
    }
}

// Links the entry at this place, if it is a write.
fn link_entry(journal: &Journal, place: usize, first: &mut [usize], next: &mut [usize])
    requires heads { AreHeads (reverse (entries_of journal.now)) (place + 1) first.old }
    requires links { AreLinks (reverse (entries_of journal.now)) next.old }
    ensures heads { AreHeads (reverse (entries_of journal.now)) place first.new }
    ensures links { AreLinks (reverse (entries_of journal.now)) next.new }
{
    let Some(o) = object_at(journal, place) else {
        return;
    };
    if let Some(head) = head_of(first, o) {
        store(next, place, head);
        store(first, o.0 as usize, place);
    }
}

// The head of the object's links.
fn head_of(first: &[usize], o: ObjId) -> Option<usize>
    ensures { result ≡ slice_get first.now o.0 }
{
    first.get(o.0 as usize).copied()
}

// Stores the number at this index, if there is room for it.
fn store(numbers: &mut [usize], index: usize, number: usize)
    ensures { numbers.new ≡ slice_set numbers.old index number }
{
    if index < numbers.len() {
        numbers[index] = number;
    }
}

// The object that the entry at this place writes.
fn object_at(journal: &Journal, place: usize) -> Option<ObjId>
    ensures { (e : PlainEntry) → slice_get (reverse (entries_of journal.now)) place ≡ Some e
        → result ≡ option_map (λ write. write.1) (written_by e.call e.reply) }
{
    match write_of(entry_at(journal, place)?) {
        Some((_, o)) => Some(o),
        None => None,
    }
}

/// The action that writes an object by this entry, and the object.
pub(crate) fn write_of(entry: &Entry) -> Option<(ActionId, ObjId)>
    ensures { result ≡ written_by (plain_entry entry.now).call (plain_entry entry.now).reply }
{
    match &entry.call {
        Call::Alter(a, o, _) => write_if(is_answered(&entry.reply), *a, *o),
        Call::TestWrite(a, o) => write_if(says_yes(&entry.reply), *a, *o),
        Call::Declare(_) | Call::BeginTop | Call::BeginSub(_) | Call::BeginNested(_) => None,
        Call::Commit(_) | Call::Abort(_) | Call::AbortOthers(_) => None,
        Call::Ask(_, _, _) | Call::TestRead(_, _) => None,
    }
}

fn write_if(does: bool, a: ActionId, o: ObjId) -> Option<(ActionId, ObjId)>
    ensures { result ≡ (if does then Some (a, o) else None) }
{
    if does { Some((a, o)) } else { None }
}

fn is_answered(reply: &Reply) -> bool
    ensures { result ≡ events.is_answered (plain_reply reply.now) }
{
    match reply {
        Reply::Answered(_) => true,
        Reply::Object(_) | Reply::Begun(_) | Reply::Refused(_) => false,
    }
}

fn says_yes(reply: &Reply) -> bool
    ensures { result ≡ events.says_yes (plain_reply reply.now) }
{
    match reply {
        Reply::Answered(answer) => truth_of(answer),
        Reply::Object(_) | Reply::Begun(_) | Reply::Refused(_) => false,
    }
}

fn truth_of(answer: &Answer) -> bool
    ensures { result ≡ events.truth_of (plain_answer answer.now) }
{
    match answer {
        Answer::Flag(truth) => *truth,
        Answer::Done | Answer::Val(_) | Answer::Num(_) => false,
        Answer::Body(_) | Answer::Signal(_) => false,
    }
}
