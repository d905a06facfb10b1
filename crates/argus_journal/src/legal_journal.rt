//! `LegalJournal`: a journal whose type says that it is legal.

ghost use Rattle.std.specs.Prelude.{◌≡◌, ◌<◌, ◌≤◌, ◌+◌, [], ◌∷◌, length, true, OnOk};
ghost use Rattle.argus_contents.specs.declared.limits.TheConstants.{MAX_ACTIONS, MAX_OBJECTS};
ghost use Rattle.argus_entries.specs.Entry.{plain_entry};
ghost use Rattle.argus_journal.specs.{Answers.answer, Folding.{fold, next_entry_number}};
ghost use Rattle.argus_journal.specs.Journal.{IsLegal, IsLegal-prop, entries_of, opening_of};
ghost use Rattle.argus_journal.specs.{Legal.Legal, declared.limits.TheConstants.MAX_FIRST_ENTRY};
ghost use Rattle.argus_journal.specs.Opening.{KeepsNumbers, empty, is_sound, opening_with};

use crate::journal::Journal;
use argus_contents::{Content, Shape};
use argus_entries::Entry;
use argus_memory::{Heap, OutOfMemory, Room};

/// A journal in which each reply is known to be the answer of the entries before it. So every law
/// of a legal journal holds of it, and its opening is sound and within the limits.
///
/// ```text
/// let mut kept = LegalJournal::new(heap);
/// kept.reserve()?;
/// kept.push(Entry { call: Call::BeginTop, reply: Reply::Begun(ActionId(0)) });
/// assert_eq!(rt; owner_of(kept.journal(), ActionId(0)), Some(Owner::Held(ActionId(0))));
/// ```
#[derive(Drop)]
pub struct LegalJournal {
    journal: Journal,
    ghost legal: { IsLegal journal } by { IsLegal-prop journal },
}

impl LegalJournal {
    ghost use Rattle.argus_journal.specs.LegalJournal.{entries_in, opening_in, room_in};

    /// A journal without entries, objects and actions. It takes no memory.
    pub fn new(heap: Heap) -> LegalJournal
        ensures opening { opening_in result ≡ empty }
        ensures entries { entries_in result ≡ [] }
    {
        LegalJournal {
            journal: Journal::new(heap),
        }
    }

    /// A journal without entries that goes on where another ended, as `Journal::starting_at` makes
    /// it. It takes no memory.
    pub fn starting_at(
        heap: Heap,
        objects: Vec<(Shape, Option<Content>), Room>,
        first_action: u32,
        first_entry: u64,
    ) -> LegalJournal
        requires few_objects { length objects.items ≤ MAX_OBJECTS }
        requires few_actions { first_action ≤ MAX_ACTIONS }
        requires numbered { first_entry ≤ MAX_FIRST_ENTRY }
        requires sound { is_sound (opening_with objects.items first_action first_entry) ≡ true }
        ensures opening { opening_in result ≡ opening_with objects.items first_action first_entry }
        ensures entries { entries_in result ≡ [] }
    {
        LegalJournal {
            journal: Journal::starting_at(heap, objects, first_action, first_entry),
        }
    }

    /// The journal, for reading: it is legal, and its opening is sound and within the limits.
    pub fn journal(&self) -> &Journal
        ensures opening { opening_of result.now ≡ opening_in self.now }
        ensures entries { entries_of result.now ≡ entries_in self.now }
        ensures legal { Legal (opening_of result.now) (entries_of result.now) }
        ensures sound { is_sound (opening_of result.now) ≡ true }
        ensures limits { KeepsNumbers (opening_of result.now) }
    {
        &self.journal
    }

    /// Makes room for one more entry. No room is lost, and after `OutOfMemory` nothing has changed.
    #[inline(always)]
    pub fn reserve(&mut self) -> Result<(), OutOfMemory>
        ensures opening { opening_in self.new ≡ opening_in self.old }
        ensures entries { entries_in self.new ≡ entries_in self.old }
        ensures room { room_in self.old ≤ room_in self.new }
        ensures ok { OnOk result (0 < room_in self.new) }
    {
        self.journal.reserve()
    }

    /// Appends an entry whose reply is the answer, in the reserved room. It takes no memory.
    #[inline(always)]
    pub fn push(&mut self, entry: Entry)
        requires room { 0 < room_in self.old }
        requires answered { (plain_entry entry).reply
            ≡ answer (opening_in self.old) (entries_in self.old) (plain_entry entry).call }
        ensures opening { opening_in self.new ≡ opening_in self.old }
        ensures entries { entries_in self.new ≡ plain_entry entry ∷ entries_in self.old }
        ensures room { room_in self.new + 1 ≡ room_in self.old }
    {
        self.journal.push(entry);
    }

    /// Folds the entries into the opening, as `Journal::fold` does. It takes no memory, and frees
    /// the room of the entries.
    pub fn fold(&mut self, objects: Vec<(Shape, Option<Content>), Room>, first_action: u32)
        requires numbered { next_entry_number (opening_in self.old) (entries_in self.old)
            ≤ MAX_FIRST_ENTRY }
        requires is_fold { let s = opening_in self.old in let j = entries_in self.old in
            opening_with objects.items first_action (next_entry_number s j) ≡ fold s j }
        ensures opening { opening_in self.new ≡ fold (opening_in self.old) (entries_in self.old) }
        ensures entries { entries_in self.new ≡ [] }
        ensures room { room_in self.new ≡ 0 }
    {
        self.journal.fold(objects, first_action);
    }
}
