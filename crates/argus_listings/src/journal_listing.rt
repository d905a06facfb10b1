//! The lines of a journal: of its opening, and of its entries.

ghost use Rattle.std.specs.Prelude.{IfErr, OnErr, OnOk, false, length, string_bytes, true, ◌++◌};
ghost use Rattle.std.specs.Prelude.{◌≡◌, ◌≤◌, ◌↔◌};
ghost use Rattle.argus_contents.specs.Content.{plain_option};
ghost use Rattle.argus_contents.specs.declared.limits.TheConstants.{MAX_OBJECTS};
ghost use Rattle.argus_entries.specs.{Entry.plain_entry, EntrySpelling.entry_line};
ghost use Rattle.argus_journal.specs.Journal.{entries_of, opening_of};
ghost use Rattle.argus_listings.specs.Listing.{each_from, entries_text, folded_line, opened_line};
ghost use Rattle.argus_listings.specs.{Listing.opening_text, Flushing.{Added, Cut}};
ghost use Rattle.argus_listings.specs.declared.list_error.ListError.TheVariants.{Write};
ghost use Rattle.argus_streams.specs.FailStop.{has_failed, inner_of};

use crate::appending::{append, append_content, append_number};
use crate::flushing::flush_long;
use crate::list_error::ListError;
use argus_contents::{Content, ObjId, Shape};
use argus_entries::{Entry, write_entry};
use argus_journal::Journal;
use argus_memory::{OutOfMemory, Room};
use argus_streams::FailStop;
use argus_texts::write_shape;
use std::io::Write;

/// The lines of the opening, if entries went before it.
pub(crate) fn write_opening<W: Write + Drop>(
    journal: &Journal,
    text: &mut String<Room>,
    writer: &mut FailStop<W>,
) -> Result<(), ListError>
    requires { has_failed writer.old ≡ false }
    ensures ok { OnOk result (Added (W.contents (inner_of writer.old)) (string_bytes text.old)
        (W.contents (inner_of writer.new)) (string_bytes text.new)
        (opening_text (opening_of journal.now))) }
    ensures fine { OnOk result (has_failed writer.new ≡ false) }
    ensures cut { OnErr result (Cut (W.contents (inner_of writer.old)) (string_bytes text.old)
        (W.contents (inner_of writer.new)) (opening_text (opening_of journal.now))) }
    ensures failed { IfErr result (λ e. (e ≡ Write) ↔ (has_failed writer.new ≡ true)) }
{
    if journal.first_entry() == 0 {
        return Ok(());
    }
    append_folded(journal.first_entry(), journal.first_action(), text)?;
    write_opened(journal, text, writer)
}

fn append_folded(entries: u64, actions: u32, text: &mut String<Room>) -> Result<(), OutOfMemory>
    ensures { OnOk result (string_bytes text.new
        ≡ string_bytes text.old ++ folded_line entries actions) }
{
    append_number("opening entries ", entries, text)?;
    append_number(" actions ", u64::from(actions), text)?;
    append("\n", text)
}

// The lines of the opening's objects.
fn write_opened<W: Write + Drop>(
    journal: &Journal,
    text: &mut String<Room>,
    writer: &mut FailStop<W>,
) -> Result<(), ListError>
    requires few { length (opening_of journal.now).objects ≤ MAX_OBJECTS }
    requires fine { has_failed writer.old ≡ false }
    ensures ok { OnOk result (Added (W.contents (inner_of writer.old)) (string_bytes text.old)
        (W.contents (inner_of writer.new)) (string_bytes text.new)
        (each_from opened_line 0 (opening_of journal.now).objects)) }
    ensures fine { OnOk result (has_failed writer.new ≡ false) }
    ensures cut { OnErr result (Cut (W.contents (inner_of writer.old)) (string_bytes text.old)
        (W.contents (inner_of writer.new))
        (each_from opened_line 0 (opening_of journal.now).objects)) }
    ensures failed { IfErr result (λ e. (e ≡ Write) ↔ (has_failed writer.new ≡ true)) }
{
    let mut o = 0;
    while let Some((shape, content)) = journal.opening(ObjId(o)) {
        append_opened(o, shape, content, text)?;
        flush_long(text, writer)?;
        o += 1;
    }
    Ok(())
}

fn append_opened(
    o: u32,
    shape: &Shape,
    content: &Option<Content>,
    text: &mut String<Room>,
) -> Result<(), OutOfMemory>
    ensures { OnOk result (string_bytes text.new ≡ string_bytes text.old
        ++ opened_line o (shape.now, plain_option content.now)) }
{
    append_number("opening o", u64::from(o), text)?;
    append(" ", text)?;
    write_shape(shape, text)?;
    append(" ", text)?;
    append_content(content, text)?;
    append("\n", text)
}

/// The lines of the entries since the opening.
pub(crate) fn write_entries<W: Write + Drop>(
    journal: &Journal,
    text: &mut String<Room>,
    writer: &mut FailStop<W>,
) -> Result<(), ListError>
    requires { has_failed writer.old ≡ false }
    ensures ok { OnOk result (Added (W.contents (inner_of writer.old)) (string_bytes text.old)
        (W.contents (inner_of writer.new)) (string_bytes text.new)
        (entries_text (opening_of journal.now) (entries_of journal.now))) }
    ensures fine { OnOk result (has_failed writer.new ≡ false) }
    ensures cut { OnErr result (Cut (W.contents (inner_of writer.old)) (string_bytes text.old)
        (W.contents (inner_of writer.new))
        (entries_text (opening_of journal.now) (entries_of journal.now))) }
    ensures failed { IfErr result (λ e. (e ≡ Write) ↔ (has_failed writer.new ≡ true)) }
{
    for at in journal.first_entry()..journal.len() {
        let Some(entry) = journal.get(at) else {
            return Ok(());
        };
        append_entry(at, entry, text)?;
        flush_long(text, writer)?;
    }
    Ok(())
}

fn append_entry(at: u64, entry: &Entry, text: &mut String<Room>) -> Result<(), OutOfMemory>
    ensures { OnOk result (string_bytes text.new
        ≡ string_bytes text.old ++ entry_line at (plain_entry entry.now)) }
{
    write_entry(at, entry, text)?;
    append("\n", text)
}
