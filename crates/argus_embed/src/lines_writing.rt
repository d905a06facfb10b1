//! Whole lines of the journal, as the host gets them.

ghost use Rattle.std.specs.Prelude.{IfErr, IfOk, OnErr, OnOk, Some, length, string_bytes, ◌++◌};
ghost use Rattle.std.specs.{Prelude.{◌↔◌, ◌≡◌, ◌≤◌, ◌⊎◌}, Result.result_err};
ghost use Rattle.argus_embed.specs.JournalLines.{AreLines, HasNoPlace, IsFitting, line_at};
ghost use Rattle.argus_embed.specs.declared.embed_error.EmbedError.TheVariants as error;

use crate::embed_error::EmbedError;
use crate::embedded::Embedded;
use crate::lines::Lines;
use crate::replying::put;
use argus_guardian::Guardian;
use argus_journal::write_entry;
use argus_values::{Heap, OutOfMemory, Room};

/// The lines that fit, and after them the one that doesn't, if there is one.
#[derive(Drop)]
struct Fitting {
    text: String<Room>,
    // This many entries fit, in this many bytes.
    count: u64,
    size: usize,
}

impl Embedded {
    /// As many whole lines of the journal as fit into the room, each with its line feed, from the
    /// entry with this number on, at the front of the room. What is kept for the host stays. The
    /// next number to ask for is `from + count`.
    ///
    /// If the room is too small for the first line, it is unchanged, and `size` is the size of that
    /// line.
    ///
    /// `NotThere` if the number is below that of the first entry since the last checkpoint, or
    /// above that of the next entry. `OutOfMemory`: the lines are made before they are put into the
    /// room. After an error the room is unchanged.
    ///
    /// ```text
    /// let lines = bank.lines(0, &mut room)?;              // 0 begin_top -> a0
    /// ```
    pub fn lines(&self, from: u64, room: &mut [u8]) -> Result<Lines, EmbedError>
        ensures lines { IfOk result (λ lines.
            AreLines self.now.journal from room.old room.new lines) }
        ensures not_there { (result_err result ≡ Some error.NotThere)
            ↔ HasNoPlace self.now.journal from }
        ensures error { IfErr result (λ e. (e ≡ error.NotThere) ⊎ (e ≡ error.OutOfMemory)) }
        ensures room { length room.new ≡ length room.old }
        ensures err { OnErr result (room.new ≡ room.old) }
    {
        let journal = self.guardian.journal().journal();
        let next = journal.len();
        if from < journal.first_entry() || next < from {
            return Err(EmbedError::NotThere);
        }
        let fitting = fitting_lines(self.heap, &self.guardian, from, next, room.len())?;
        let text = fitting.text.as_bytes();
        let count = fitting.count;
        if count == 0 {
            let size = text.len();
            return Ok(Lines { count, size });
        }
        let size = put(room, &text[..fitting.size]);
        Ok(Lines { count, size })
    }
}

/// The lines of the entries from this number on, before the next one, as long as they have no more
/// bytes than this.
fn fitting_lines(
    heap: Heap,
    guardian: &Guardian,
    from: u64,
    next: u64,
    most: usize,
) -> Result<Fitting, OutOfMemory>
    requires { from ≤ next }
    ensures { IfOk result (λ fitting. IsFitting guardian.now from next most fitting) }
{
    let mut text = String::new(heap.room());
    for at in from..next {
        let size = text.len();
        append_line(guardian, at, &mut text)?;
        if most < text.len() {
            let count = at - from;
            return Ok(Fitting { text, count, size });
        }
    }
    let size = text.len();
    let count = next - from;
    Ok(Fitting { text, count, size })
}

/// Appends the line of the entry with this number, if the journal has it.
fn append_line(guardian: &Guardian, at: u64, text: &mut String<Room>) -> Result<(), OutOfMemory>
    ensures { OnOk result (string_bytes text.new
        ≡ string_bytes text.old ++ line_at guardian.now at) }
{
    if let Some(entry) = guardian.journal().journal().get(at) {
        write_entry(at, entry, text)?;
        text.push_str("\n")?;
    }
    Ok(())
}
