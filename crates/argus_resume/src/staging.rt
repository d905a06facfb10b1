//! How a guardian that is being made takes one more line.

ghost use Rattle.std.specs.Prelude.{IfErr, IfOk, MatchOption, OnErr, OnOk, [], codes, false, take};
ghost use Rattle.std.specs.Prelude.{⊤, ◌++◌, ◌∷◌, ◌≡◌};
ghost use Rattle.argus_entries.specs.{Call.plain_call, Entry.{PlainEntry, plain_entry}};
ghost use Rattle.argus_entries.specs.Reply.{plain_reply};
ghost use Rattle.argus_journal.specs.JournalView.{next_entry, with_entry};
ghost use Rattle.argus_reading.specs.Line.{IsReadable};
ghost use Rattle.argus_resume.specs.{FrontLine.{IsFrontError, entry_with}, Stage.taken_by};
ghost use Rattle.argus_resume.specs.{JournalText.journal_text, Taking.IsFirstLine};
ghost use Rattle.argus_resume.specs.Lines.{IsLineError, IsLineOf, IsOfOpening};
ghost use Rattle.argus_resume.specs.Stage.{AreEntries, IsCounted, IsLevel, StageInvariant, SaysOf};
ghost use Rattle.argus_resume.specs.Stage.{journal_taken, opened_alone, opening_line, opening_read};

use crate::entry_lines::{EntryLines, make, make_call};
use crate::entry_reading::entry_numbered;
use crate::frequent_line::frequent_line;
use crate::line_error::LineError;
use crate::line_fault::LineFault;
use crate::opening_lines::OpeningLines;
use crate::opening_taking::{first_line, next_line};
use crate::stage::Stage;
use argus_entries::{Call, Entry, Reply};
use argus_memory::{Heap, OutOfMemory};
use argus_texts::front::{Stop, word};
use std::mem::replace;

/// Takes a line.
pub(crate) fn take_text(heap: Heap, stage: &mut Stage, line: &str) -> Result<(), LineError>
    requires { StageInvariant stage.old }
    ensures kept { StageInvariant stage.new }
    ensures text { OnOk result (journal_text (journal_taken stage.new)
        ≡ journal_text (journal_taken stage.old) ++ (line.now ++ 10 ∷ [])) }
    ensures fault { IfErr result (λ e. IsLineError e (journal_taken stage.old) line.now) }
    ensures err { OnErr result (journal_taken stage.new ≡ journal_taken stage.old) }
{
    come_back(heap, stage)?;
    match word(line, "opening ") {
        Ok(rest) => take_opening_line(heap, stage, rest),
        Err(Stop::Left(_)) => take_entry_line(heap, stage, line),
        Err(Stop::Memory) => Err(LineError::OutOfMemory),
    }
}

fn come_back(heap: Heap, stage: &mut Stage) -> Result<(), OutOfMemory>
    requires { StageInvariant stage.old }
    ensures kept { StageInvariant stage.new }
    ensures level { OnOk result (IsLevel stage.new) }
    ensures journal { journal_taken stage.new ≡ journal_taken stage.old }
{
    match stage {
        Stage::Opening(_) => Ok(()),
        Stage::Entries(entries) => entries.come_back(heap),
    }
}

/// Takes a line of an opening, from the word after `opening` on.
fn take_opening_line(heap: Heap, stage: &mut Stage, rest: &str) -> Result<(), LineError>
    requires stage { StageInvariant stage.old }
    requires level { IsLevel stage.old }
    ensures kept { StageInvariant stage.new }
    ensures text { OnOk result (journal_text (journal_taken stage.new)
        ≡ journal_text (journal_taken stage.old) ++ opening_line rest.now) }
    ensures fault { IfErr result (λ e. IsLineError e (journal_taken stage.old)
        (codes "opening " ++ rest.now)) }
    ensures err { OnErr result (journal_taken stage.new ≡ journal_taken stage.old) }
{
    match stage {
        Stage::Opening(lines) => next_line(heap, lines, rest),
        Stage::Entries(entries) => {
            if entries.guardian.journal().journal().len() > 0 {
                return Err(LineError::Fault(LineFault::NotAnOpening));
            }
            let lines = first_line(heap, rest)?;
            *stage = Stage::Opening(lines);
            Ok(())
        }
    }
}

/// Takes the line at the front, with its line feed, if it is that of a frequent entry, and returns
/// how many bytes it has. `None`: nothing was taken.
pub(crate) fn take_frequent(stage: &mut Stage, text: &[u8]) -> Result<Option<usize>, LineError>
    requires { StageInvariant stage.old }
    ensures kept { StageInvariant stage.new }
    ensures some { IfOk result (λ taken. MatchOption taken ⊤ (λ count. IsFirstLine count text.now)) }
    ensures text { IfOk result (λ taken. MatchOption taken
        (journal_taken stage.new ≡ journal_taken stage.old)
        (λ count. journal_text (journal_taken stage.new)
        ≡ journal_text (journal_taken stage.old) ++ take count text.now)) }
    ensures fault { IfErr result (λ e. IsFrontError e (journal_taken stage.old) text.now) }
    ensures err { OnErr result (journal_taken stage.new ≡ journal_taken stage.old) }
{
    let Stage::Entries(entries) = stage else {
        return Ok(None);
    };
    if entries.is_ahead {
        return Ok(None);
    }
    let Some((call, reply, rest)) = frequent_line(text, entries.next_number()) else {
        return Ok(None);
    };
    take_call(entries, call, &reply)?;
    Ok(Some(text.len() - rest.len()))
}

/// Takes the line of an entry.
fn take_entry_line(heap: Heap, stage: &mut Stage, line: &str) -> Result<(), LineError>
    requires stage { StageInvariant stage.old }
    requires level { IsLevel stage.old }
    requires other { IsOfOpening line.now → ⊥ }
    ensures kept { StageInvariant stage.new }
    ensures text { OnOk result (journal_text (journal_taken stage.new)
        ≡ journal_text (journal_taken stage.old) ++ (line.now ++ 10 ∷ [])) }
    ensures fault { IfErr result (λ e. IsLineError e (journal_taken stage.old) line.now) }
    ensures err { OnErr result (journal_taken stage.new ≡ journal_taken stage.old) }
{
    let entry = entry_numbered(heap, next_number(stage), line)?;
    match stage {
        Stage::Opening(lines) => {
            let entries = take_first(heap, lines, entry)?;
            *stage = Stage::Entries(entries);
            Ok(())
        }
        Stage::Entries(entries) => take_further(entries, entry),
    }
}

/// The number of the next entry.
pub(crate) fn next_number(stage: &Stage) -> u64
    requires { StageInvariant stage.now }
    ensures { result ≡ next_entry (journal_taken stage.now) }
{
    match stage {
        Stage::Opening(lines) => lines.first_entry,
        Stage::Entries(entries) => entries.next_number(),
    }
}

/// A guardian with this opening and this entry.
fn take_first(heap: Heap, lines: &OpeningLines, entry: Entry) -> Result<EntryLines, LineError>
    requires counted { IsCounted lines.now }
    requires readable { IsReadable (plain_entry entry) }
    ensures entries { IfOk result (λ entries. AreEntries entries) }
    ensures taken { IfOk result (λ entries. taken_by entries
        ≡ with_entry (opened_alone (opening_read lines.now)) (plain_entry entry)) }
    ensures fault { IfErr result (λ e.
        SaysOf e (opened_alone (opening_read lines.now)) (plain_entry entry)) }
{
    let count = lines.objects.len();
    if lines.sound_count() < count {
        return Err(LineError::Fault(LineFault::NotSound));
    }
    let mut guardian = lines.guardian(heap, count)?;
    match make(&mut guardian, entry)? {
        None => Ok(EntryLines {
            guardian,
            is_ahead: false,
        }),
        Some(reply) => Err(LineError::Fault(LineFault::NotTheReply(reply))),
    }
}

/// Takes one more entry.
fn take_further(entries: &mut EntryLines, mut entry: Entry) -> Result<(), LineError>
    requires entries { AreEntries entries.old }
    requires level { entries.old.is_ahead ≡ false }
    requires readable { IsReadable (plain_entry entry) }
    ensures kept { AreEntries entries.new }
    ensures taken { OnOk result (taken_by entries.new
        ≡ with_entry (taken_by entries.old) (plain_entry entry)) }
    ensures fault { IfErr result (λ e. SaysOf e (taken_by entries.old) (plain_entry entry)) }
    ensures err { OnErr result (taken_by entries.new ≡ taken_by entries.old) }
{
    let call = replace(&mut entry.call, Call::BeginTop);
    take_call(entries, call, &entry.reply)
}

/// Takes one more entry: this call, with this reply.
fn take_call(entries: &mut EntryLines, call: Call, expected: &Reply) -> Result<(), LineError>
    requires entries { AreEntries entries.old }
    requires level { entries.old.is_ahead ≡ false }
    requires readable { IsReadable (entry_with (plain_call call) (plain_reply expected.now)) }
    ensures kept { AreEntries entries.new }
    ensures taken { OnOk result (taken_by entries.new ≡ with_entry (taken_by entries.old)
        (entry_with (plain_call call) (plain_reply expected.now))) }
    ensures fault { IfErr result (λ e. SaysOf e (taken_by entries.old)
        (entry_with (plain_call call) (plain_reply expected.now))) }
    ensures err { OnErr result (taken_by entries.new ≡ taken_by entries.old) }
{
    match make_call(&mut entries.guardian, call, expected)? {
        None => Ok(()),
        Some(reply) => {
            entries.is_ahead = true;
            Err(LineError::Fault(LineFault::NotTheReply(reply)))
        }
    }
}
