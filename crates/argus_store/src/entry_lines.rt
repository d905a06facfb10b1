//! The lines of a journal's entries, as a log gets them.

ghost use Rattle.std.specs.Prelude.{◌≡◌, ◌≤◌, ◌-◌, ◌++◌, IfOk, OnOk, drop, reverse, string_bytes};
ghost use Rattle.argus_journal.specs.Journal.{entries_of, entry_at, opening_of};
ghost use Rattle.argus_journal.specs.EntrySpelling.{entry_line};
ghost use Rattle.argus_guardian.specs.Listing.{each_from};
ghost use Rattle.argus_store.specs.Kept.{line_of, lines_from};

use argus_journal::{Journal, write_entry};
use argus_values::{Heap, OutOfMemory, Room};

/// The lines of the entries from this number on, each with its line feed.
pub(crate) fn entry_lines(
    heap: Heap,
    journal: &Journal,
    from: u64,
) -> Result<String<Room>, OutOfMemory>
    ensures { (opening_of journal.now).first_entry ≤ from → IfOk result (λ text. string_bytes text
        ≡ lines_from (record { opening = opening_of journal.now; entries = entries_of journal.now }) from) }
{
    let mut text = String::new(heap.room());
    for at in from..journal.len() {
        append_line(journal, at, &mut text)?;
    }
    Ok(text)
}

// Appends the line of the entry with this number, if the journal has it.
fn append_line(journal: &Journal, at: u64, text: &mut String<Room>) -> Result<(), OutOfMemory>
    ensures { OnOk result (string_bytes text.new ≡ string_bytes text.old
        ++ line_of at (entry_at (opening_of journal.now) (entries_of journal.now) at)) }
{
    if let Some(entry) = journal.get(at) {
        write_entry(at, entry, text)?;
        text.push_str("\n")?;
    }
    Ok(())
}
