//! How the line of an entry is read.

ghost use Rattle.std.specs.Prelude.{IfErr, IfOk, IsTrue, ◌<◌, ◌^◌, ◌↔◌, ◌≡◌};
ghost use Rattle.argus_entries.specs.Entry.{plain_entry};
ghost use Rattle.argus_journal.specs.JournalView.{JournalView, next_entry};
ghost use Rattle.argus_resume.specs.Lines.{IsLineError, IsLineOf, IsOfOpening};

use crate::line_error::LineError;
use crate::line_fault::LineFault;
use argus_entries::Entry;
use argus_memory::Heap;
use argus_reading::{ReadEntryError, read_entry};

/// The entry of the line, if it has this number.
pub(crate) fn entry_numbered(heap: Heap, next: u64, line: &str) -> Result<Entry, LineError>
    ensures read { IfOk result (λ entry. IsLineOf next (plain_entry entry) line.now) }
    ensures fault { IfErr result (λ e. (journal : JournalView) → next_entry journal ≡ next
        → (IsOfOpening line.now → ⊥) → IsLineError e journal line.now) }
{
    match read_entry(heap, line) {
        Ok((number, entry)) => {
            if !is_same(number, next) {
                return Err(LineError::Fault(LineFault::NotNext));
            }
            Ok(entry)
        }
        Err(ReadEntryError::Fault(fault)) | Err(ReadEntryError::Shape(fault)) => {
            Err(LineError::Fault(LineFault::NoLine { at: fault.at }))
        }
        Err(ReadEntryError::OutOfMemory) => Err(LineError::OutOfMemory),
    }
}

/// Whether the number is this one.
fn is_same(number: u64, next: u64) -> bool
    ensures same { IsTrue result ↔ (number ≡ next) }
    ensures range { number < 2 ^ 64 }
{
    number == next
}
