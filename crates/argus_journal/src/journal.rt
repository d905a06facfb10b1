//! `Journal`: the calls of a guardian in order, with their replies.

ghost use Rattle.std.specs.Prelude.{◌≡◌, ◌<◌, ◌≤◌, ◌+◌, ◌-◌, [], ◌∷◌, None, OnOk, length};
ghost use Rattle.std.specs.Prelude.{slice_get, true};
ghost use Rattle.argus_contents.specs.declared.limits.TheConstants.{MAX_ACTIONS, MAX_OBJECTS};
ghost use Rattle.argus_entries.specs.Entry.{plain_entry};
ghost use Rattle.argus_journal.specs.{Folding.{fold, next_entry_number}, Legal.Legal};
ghost use Rattle.argus_journal.specs.Opening.{KeepsNumbers, empty, is_sound, opening_with};
ghost use Rattle.argus_journal.specs.declared.limits.TheConstants.{MAX_FIRST_ENTRY};

use crate::chunks::Chunks;
use argus_contents::{Content, ObjId, Shape};
use argus_entries::Entry;
use argus_memory::{Heap, OutOfMemory, Room};

/// The calls that were made to a guardian, in order, each with its reply.
///
/// It begins with an opening: objects with their shapes and contents, and how many actions and
/// entries went before. Contracts see the opening, the entries (the newest first), and room for how
/// many more entries there is.
///
/// ```text
/// let mut journal = Journal::new(heap);
/// journal.reserve()?;
/// journal.push(Entry { call: Call::BeginTop, reply: Reply::Begun(ActionId(0)) });
/// assert_eq!(rt; journal.len(), 1);
/// ```
#[derive(Drop)]
pub struct Journal {
    objects: Vec<(Shape, Option<Content>), Room>,
    first_action: u32,
    first_entry: u64,
    entries: Chunks,
    ghost few_objects: { length objects.items ≤ MAX_OBJECTS },
    ghost few_actions: { first_action ≤ MAX_ACTIONS },
    ghost numbered: { first_entry ≤ MAX_FIRST_ENTRY },
    ghost sound: { is_sound (opening_with objects.items first_action first_entry) ≡ true },
}

impl Journal {
    ghost use Rattle.argus_journal.specs.Journal.{HasEntries, IsNewest, entries_of, entry_at};
    ghost use Rattle.argus_journal.specs.Journal.{first_entries_of, opening_of};
    ghost use Rattle.argus_journal.specs.Journal.{plain_entry_found};
    ghost use Rattle.argus_journal.specs.Journal.{plain_opened, room_of};

    /// A journal without entries, objects and actions. It takes no memory.
    pub fn new(heap: Heap) -> Journal
        ensures opening { opening_of result ≡ empty }
        ensures entries { entries_of result ≡ [] }
    {
        Journal::starting_at(heap, Vec::new(heap.room()), 0, 0)
    }

    /// A journal without entries that goes on where another ended: with these objects, in the order
    /// of their numbers, and this many actions and entries before it. It takes no memory.
    ///
    /// At most `MAX_OBJECTS` objects, at most `MAX_ACTIONS` actions, at most `MAX_FIRST_ENTRY`
    /// entries; each content fits its shape, with all these objects declared.
    pub fn starting_at(
        heap: Heap,
        objects: Vec<(Shape, Option<Content>), Room>,
        first_action: u32,
        first_entry: u64,
    ) -> Journal
        requires few_objects { length objects.items ≤ MAX_OBJECTS }
        requires few_actions { first_action ≤ MAX_ACTIONS }
        requires numbered { first_entry ≤ MAX_FIRST_ENTRY }
        requires sound { is_sound (opening_with objects.items first_action first_entry) ≡ true }
        ensures opening { opening_of result ≡ opening_with objects.items first_action first_entry }
        ensures entries { entries_of result ≡ [] }
    {
        Journal {
            objects,
            first_action,
            first_entry,
            entries: Chunks::new(heap),
        }
    }

    /// The number of the first entry: how many went before the opening.
    pub fn first_entry(&self) -> u64
        ensures first { result ≡ (opening_of self.now).first_entry }
        ensures limits { KeepsNumbers (opening_of self.now) }
    {
        self.first_entry
    }

    /// The number of the first action: how many were begun before the opening.
    pub fn first_action(&self) -> u32
        ensures first { result ≡ (opening_of self.now).first_action }
        ensures limits { KeepsNumbers (opening_of self.now) }
    {
        self.first_action
    }

    /// What the opening says of an object: its shape, and its content if there is one. `None` if
    /// the opening doesn't have the object. Each content in it fits its shape.
    pub fn opening(&self, o: ObjId) -> Option<(&Shape, &Option<Content>)>
        ensures object { plain_opened result ≡ slice_get (opening_of self.now).objects o.0 }
        ensures sound { is_sound (opening_of self.now) ≡ true }
    {
        match self.objects.get(o.0 as usize) {
            Some((shape, content)) => Some((shape, content)),
            None => None,
        }
    }

    /// Makes room for one more entry. No room is lost, and after `OutOfMemory` nothing has changed.
    #[inline(always)]
    pub fn reserve(&mut self) -> Result<(), OutOfMemory>
        ensures opening { opening_of self.new ≡ opening_of self.old }
        ensures entries { entries_of self.new ≡ entries_of self.old }
        ensures room { room_of self.old ≤ room_of self.new }
        ensures ok { OnOk result (0 < room_of self.new) }
    {
        self.entries.reserve()
    }

    /// Appends an entry, in the reserved room. It takes no memory.
    pub fn push(&mut self, entry: Entry)
        requires { 0 < room_of self.old }
        ensures opening { opening_of self.new ≡ opening_of self.old }
        ensures entries { entries_of self.new ≡ plain_entry entry ∷ entries_of self.old }
        ensures room { room_of self.new + 1 ≡ room_of self.old }
    {
        self.entries.push(entry);
    }

    /// Folds the entries into the opening: these are the objects of its fold, with their bases, and
    /// the number of the next action. It takes no memory, and frees the room of the entries.
    ///
    /// The journal has to be legal, and the number of its next entry at most `MAX_FIRST_ENTRY`.
    pub fn fold(&mut self, objects: Vec<(Shape, Option<Content>), Room>, first_action: u32)
        requires legal { Legal (opening_of self.old) (entries_of self.old) }
        requires numbered { next_entry_number (opening_of self.old) (entries_of self.old)
            ≤ MAX_FIRST_ENTRY }
        requires is_fold { let s = opening_of self.old in let j = entries_of self.old in
            opening_with objects.items first_action (next_entry_number s j) ≡ fold s j }
        ensures opening { opening_of self.new ≡ fold (opening_of self.old) (entries_of self.old) }
        ensures entries { entries_of self.new ≡ [] }
        ensures room { room_of self.new ≡ 0 }
    {
        let first_entry = self.len();
        self.entries.clear();
        self.objects = objects;
        self.first_action = first_action;
        self.first_entry = first_entry;
    }

    /// The number of the next entry: how many went before the opening, and how many came since.
    pub fn len(&self) -> u64
        ensures { result ≡ next_entry_number (opening_of self.now) (entries_of self.now) }
    {
        self.first_entry + self.entries.len() as u64
    }

    /// The entry with this number. `None` if there is no such entry, or it came before the opening.
    pub fn get(&self, at: u64) -> Option<&Entry>
        ensures { plain_entry_found result ≡ entry_at (opening_of self.now)
            (entries_of self.now) at }
    {
        if at < self.first_entry {
            return None;
        }
        self.entries.get((at - self.first_entry) as usize)
    }

    /// How many entries there are since the opening.
    pub(crate) fn count(&self) -> usize
        ensures all { first_entries_of self.now result ≡ entries_of self.now }
        ensures there { HasEntries self.now result }
    {
        self.entries.len()
    }

    /// The newest of this many entries, the first since the opening. `None` if they are none.
    pub(crate) fn newest(&self, count: usize) -> Option<&Entry>
        requires { HasEntries self.now count }
        ensures newest { IsNewest (plain_entry_found result) (first_entries_of self.now count)
            (first_entries_of self.now (count - 1)) }
        ensures none { plain_entry_found result ≡ None → count ≡ 0 }
    {
        if count == 0 {
            return None;
        }
        self.entries.get(count - 1)
    }
}
