//! `parse`: the script that bytes spell.

ghost use Rattle.std.specs.Prelude.{◌≡◌, [], IfOk, IfErr, OnOk};
ghost use Rattle.argus_language.specs.{Fault.{IsFaultOf, NoFault}, Lines.lines_of};
ghost use Rattle.argus_language.specs.{Parsed.{IsUnclosedAt, OnScriptFault}, Reading.levels_of};
ghost use Rattle.argus_language.specs.Script.{Spells, plain_script};
ghost use Rattle.argus_language.specs.declared.parse_error.ParseError.TheVariants as ParseError;

use crate::cut::first_line_len;
use crate::fault_kind::FaultKind;
use crate::line_error::LineError;
use crate::parse_error::ParseError;
use crate::reading::Reading;
use crate::script::Script;
use crate::script_fault::ScriptFault;
use argus_memory::Heap;

/// The script that the bytes spell.
///
/// `Fault` comes with the first faulty line and the first kind that applies to it, in the order of
/// [`FaultKind`]'s table. If no line is faulty, it comes with the line that opened the innermost
/// block that isn't closed. `Memory` may come in place of any result.
///
/// ```text
/// let script = parse(heap, b"declare x atomic_record[n:int]\nenter topaction\nend\n")?;
/// ```
pub fn parse(heap: Heap, bytes: &[u8]) -> Result<Script, ParseError>
    ensures spells { IfOk result (λ script. Spells (lines_of bytes.now) (plain_script script)) }
    ensures fine { OnOk result (NoFault (lines_of bytes.now)) }
    ensures fault { IfErr result (λ e. OnScriptFault e (IsFaultOf (lines_of bytes.now))) }
{
    let mut reading = Reading::new(heap);
    let mut lines = 0;
    let mut rest = bytes;
    while rest.len() > 0 {
        let before = bytes.len() - rest.len();
        let (line, others) = rest.split_at(first_line_len(rest));
        match reading.take(heap, lines, before, line) {
            Ok(()) => {}
            Err(LineError::OutOfMemory) => return Err(ParseError::Memory),
            Err(LineError::Fault(kind)) => return Err(fault_at(lines + 1, kind)),
        }
        lines += 1;
        rest = others;
    }
    whole(reading)
}

fn fault_at(line: u32, kind: FaultKind) -> ParseError
    ensures { result ≡ ParseError.Fault (record { line = line; kind = kind }) }
{
    ParseError::Fault(ScriptFault { line, kind })
}

// The script that was read, or the block that isn't closed.
fn whole(reading: Reading<'_>) -> Result<Script, ParseError>
    ensures blocks { OnOk result (reading.entry.blocks.items ≡ []) }
    ensures objects { IfOk result
        (λ script. (plain_script script).objects ≡ reading.entry.objects) }
    ensures steps { IfOk result (λ script. script.steps ≡ reading.entry.steps) }
    ensures unclosed { IfErr result (IsUnclosedAt (levels_of reading.entry.blocks.items)) }
{
    if let Some(block) = reading.blocks.last() {
        return Err(fault_at(block.level.line, FaultKind::Unclosed));
    }
    let Reading {
        objects,
        blocks: _,
        steps,
    } = reading;
    let (names, shapes) = objects.into_lists();
    Ok(Script {
        names,
        shapes,
        steps,
    })
}
