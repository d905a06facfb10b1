//! How a line of an opening is taken.

ghost use Rattle.std.specs.Prelude.{IfErr, IfOk, IfSome, IsTrue, OnErr, OnOk, Some, codes, length};
ghost use Rattle.std.specs.Prelude.{true, ◌+◌, ◌++◌, ◌<◌, ◌↔◌, ◌≡◌};
ghost use Rattle.argus_contents.specs.Content.{plain_option};
ghost use Rattle.argus_contents.specs.declared.limits.TheConstants.{MAX_OBJECTS};
ghost use Rattle.argus_journal.specs.{JournalView.JournalView, Opening.fits_shape};
ghost use Rattle.argus_resume.specs.{Lines.IsLineError, Stage.opening_read};
ghost use Rattle.argus_resume.specs.Stage.{IsCounted, lines_of, opened_alone, opening_line};

use crate::line_error::LineError;
use crate::line_fault::LineFault;
use crate::opened_object::OpenedObject;
use crate::opening_lines::OpeningLines;
use argus_contents::limits::MAX_OBJECTS;
use argus_memory::Heap;
use argus_reading::{folded_numbers, object_line};
use argus_texts::front::Stop;

// How many bytes a line has besides what comes after its first word: that word and a line feed.
const FRAME: u64 = 9;

/// The opening that its first line begins, from the word after `opening` on.
pub(crate) fn first_line(heap: Heap, rest: &str) -> Result<OpeningLines, LineError>
    ensures counted { IfOk result (λ lines. IsCounted lines) }
    ensures text { IfOk result (λ lines. lines_of (opening_read lines) ≡ opening_line rest.now) }
    ensures fault { IfErr result (λ e. (journal : JournalView) → journal.opening.first_entry ≡ 0
        → IsLineError e journal (codes "opening " ++ rest.now)) }
{
    match folded_numbers(rest) {
        Ok((first_entry, first_action)) => Ok(OpeningLines {
            objects: Vec::new(heap.room()),
            first_action,
            first_entry,
            head: rest.len() as u64 + FRAME,
        }),
        Err(Stop::Left(_)) => Err(LineError::Fault(LineFault::NotAnOpening)),
        Err(Stop::Memory) => Err(LineError::OutOfMemory),
    }
}

/// Takes the line of the next object, from the word after `opening` on.
pub(crate) fn next_line(heap: Heap, lines: &mut OpeningLines, rest: &str) -> Result<(), LineError>
    requires { IsCounted lines.old }
    ensures counted { IsCounted lines.new }
    ensures text { OnOk result (lines_of (opening_read lines.new)
        ≡ lines_of (opening_read lines.old) ++ opening_line rest.now) }
    ensures fault { IfErr result (λ e. IsLineError e (opened_alone (opening_read lines.old))
        (codes "opening " ++ rest.now)) }
    ensures err { OnErr result (opening_read lines.new ≡ opening_read lines.old) }
{
    let Some(end) = end_behind(lines.end(), rest.len() as u64) else {
        return Err(LineError::OutOfMemory);
    };
    match object_line(heap, rest) {
        Ok((o, shape, content)) => {
            let object = OpenedObject {
                shape,
                content,
                end,
            };
            if !may_add(lines, o, &object) {
                return Err(LineError::Fault(LineFault::NotAnOpening));
            }
            lines.objects.push(object)?;
            Ok(())
        }
        Err(Stop::Left(_)) => Err(LineError::Fault(LineFault::NotAnOpening)),
        Err(Stop::Memory) => Err(LineError::OutOfMemory),
    }
}

/// Whether this number is the next object's, another object is within the limits, and its content
/// may fit.
fn may_add(lines: &OpeningLines, o: u64, object: &OpenedObject) -> bool
    ensures { IsTrue result ↔ ((o ≡ length lines.now.objects.items) × (o < MAX_OBJECTS)
        × (fits_shape (Some object.now.shape) MAX_OBJECTS (plain_option object.now.content)
        ≡ true)) }
{
    o == lines.objects.len() as u64 && o < u64::from(MAX_OBJECTS) && object.fits(MAX_OBJECTS)
}

/// Where a line ends that has this many bytes after its first word.
fn end_behind(before: u64, bytes: u64) -> Option<u64>
    ensures { IfSome result (λ end. end ≡ before + 9 + bytes) }
{
    before.checked_add(FRAME)?.checked_add(bytes)
}
