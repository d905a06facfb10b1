//! `read_entry`: the entry of a line.

ghost use Rattle.std.specs.Prelude.{◌≡◌, ◌≤◌, ◌-◌, IfErr, IfOk, codes, length};
ghost use Rattle.argus_entries.specs.{Entry.plain_entry, EntrySpelling.entry_spelling};
ghost use Rattle.argus_entries.specs.Reply.{plain_reply};
ghost use Rattle.argus_reading.specs.{Combined.Worded, Farther.OnStop, Replies.Replies};
ghost use Rattle.argus_reading.specs.Line.{Declares, DeclaresAt, Entries, IsNoLine, IsReadable};
ghost use Rattle.argus_reading.specs.Line.{Lacks, LacksShape, Lines, Shaped, Tells};
ghost use Rattle.argus_texts.specs.Language.{OnLeft, Reads, Stops};

use crate::call_reading::call;
use crate::line_stop::LineStop;
use crate::read_entry_error::ReadEntryError;
use crate::reply_reading::reply;
use argus_entries::{Entry, Reply};
use argus_memory::Heap;
use argus_texts::ReadFault;
use argus_texts::front::{Stop, expect, number, word};

/// The number and the entry whose line the text is, as `write_entry` of `argus_entries` writes it,
/// without a line end.
///
/// If the text isn't such a line, `Fault` has the length of its longest prefix that begins one. If
/// it is a declaration whose shape can't be made, `Shape` comes in place of `Fault`, with the length
/// up to that shape. `OutOfMemory` may come in place of any result.
///
/// ```text
/// let (number, entry) = read_entry(heap, "4 ask a0 o0 field 0 -> val 7")?;
/// ```
pub fn read_entry(heap: Heap, text: &str) -> Result<(u64, Entry), ReadEntryError>
    ensures readable { IfOk result (λ r. IsReadable (plain_entry r.1)) }
    ensures read { IfOk result (λ r. text.now ≡ entry_spelling r.0 (plain_entry r.1)) }
    ensures refused { IfErr result (λ e. Tells e text.now) }
{
    match whole_line(heap, text) {
        Ok(read) => Ok(read),
        Err(LineStop::Left(left)) => Err(ReadEntryError::Fault(ReadFault {
            at: text.len() - left,
        })),
        Err(LineStop::Shape(left)) => Err(ReadEntryError::Shape(ReadFault {
            at: text.len() - left,
        })),
        Err(LineStop::OutOfMemory) => Err(ReadEntryError::OutOfMemory),
    }
}

fn whole_line(heap: Heap, text: &str) -> Result<(u64, Entry), LineStop>
    ensures readable { IfOk result (λ r. IsReadable (plain_entry r.1)) }
    ensures read { IfOk result (λ r. text.now ≡ entry_spelling r.0 (plain_entry r.1)) }
    ensures stops { IfErr result
        (λ e. OnStop e
        (λ left. (left ≤ length text.now) × IsNoLine text.now (length text.now - left))
        (λ left. (left ≤ length text.now) × LacksShape text.now (length text.now - left))) }
{
    let (number, entry, rest) = line(heap, text)?;
    if rest.len() > 0 {
        return Err(LineStop::Left(rest.len()));
    }
    Ok((number, entry))
}

/// The number and the entry at the front, and what comes after them.
fn line(heap: Heap, text: &str) -> Result<(u64, Entry, &str), LineStop>
    ensures read { IfOk result
        (λ r. Reads Lines text.now
        (r.0, ((plain_entry r.1).call, (plain_entry r.1).reply)) r.2.now) }
    ensures stops { IfErr result
        (λ e. OnStop e (λ left. Stops Lines text.now left × Shaped DeclaresAt text.now)
        (λ left. Lacks DeclaresAt Lines text.now left)) }
{
    let (number, rest) = number(text, 0, 18_446_744_073_709_551_615)?;
    let rest = expect(rest, b' ')?;
    let (entry, rest) = entry(heap, rest)?;
    Ok((number, entry, rest))
}

/// The call and the reply at the front, and what comes after them.
fn entry(heap: Heap, text: &str) -> Result<(Entry, &str), LineStop>
    ensures read { IfOk result
        (λ r. Reads Entries text.now ((plain_entry r.0).call, (plain_entry r.0).reply) r.1.now) }
    ensures stops { IfErr result
        (λ e. OnStop e (λ left. Stops Entries text.now left × Shaped Declares text.now)
        (λ left. Lacks Declares Entries text.now left)) }
{
    let (call, rest) = call(heap, text)?;
    let rest = expect(rest, b' ')?;
    let (reply, rest) = answered(heap, rest)?;
    Ok((Entry { call, reply }, rest))
}

/// The reply after an arrow.
fn answered(heap: Heap, text: &str) -> Result<(Reply, &str), Stop>
    ensures read { IfOk result
        (λ r. Reads (Worded (codes "-> ") Replies) text.now (plain_reply r.0) r.1.now) }
    ensures stops { IfErr result
        (λ e. OnLeft e (λ left. Stops (Worded (codes "-> ") Replies) text.now left)) }
{
    let rest = word(text, "-> ")?;
    let (reply, rest) = reply(heap, rest)?;
    Ok((reply, rest))
}
