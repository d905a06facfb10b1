//! A journal's entries by their places: the first since the opening has place 0.

ghost use Rattle.std.specs.Prelude.{length, reverse, slice_get, ◌+◌, ◌<◌, ◌≡◌};
ghost use Rattle.argus_journal.specs.Journal.{entries_of, opening_of, plain_entry_found};

use argus_entries::Entry;
use argus_journal::Journal;

/// How many entries came since the opening.
pub(crate) fn count(journal: &Journal) -> usize
    ensures all { result ≡ length (entries_of journal.now) }
    ensures numbered { (opening_of journal.now).first_entry + result < 18446744073709551616 }
{
    (journal.len() - journal.first_entry()) as usize
}

/// The entry at this place, if there is one.
pub(crate) fn entry_at(journal: &Journal, place: usize) -> Option<&Entry>
    ensures { plain_entry_found result ≡ slice_get (reverse (entries_of journal.now)) place }
{
    if place < count(journal) {
        journal.get(journal.first_entry() + place as u64)
    } else {
        None
    }
}
