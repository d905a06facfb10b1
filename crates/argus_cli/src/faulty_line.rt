//! `FaultyLine`: the first line because of which a text isn't a journal's listing.

ghost use Rattle.std.specs.{Prelude.{OnErr, OnOk, string_bytes, ◌++◌, ◌≡◌}, Fmt.decimal};
ghost use Rattle.argus_cli.specs.FaultyLine.{faulty_line_text, fault_text, line_fault_text};

use crate::text_fault::TextFault;
use argus_guardian::LineFault;
use argus_journal::write_reply;
use argus_values::{OutOfMemory, Room};

/// The first line because of which a text isn't a journal's listing: its number, from 1, and what
/// is wrong with it.
///
/// | What is written of it | When |
/// |---|---|
/// | `line 7: Torn` | the text ends in the middle of the line |
/// | `line 7: NoText at 3` | the line isn't UTF-8, from this byte on |
/// | `line 7: NotAnOpening` | it begins like a line of an opening, and can't be the next one |
/// | `line 7: NoLine at 3` | it isn't the line of an entry, from this byte on |
/// | `line 7: NotNext` | it is the line of an entry, but with another number than the next |
/// | `line 7: NotSound` | the opening before it refers to missing objects; it is an entry's line, or the text has ended |
/// | `line 7: NotTheReply: refused Conflict` | another reply follows from the journal: this one |
#[derive(Debug, Drop)]
pub struct FaultyLine {
    pub line: u64,
    pub fault: TextFault,
}

impl FaultyLine {
    /// Appends the text of the table above, without a line end. After `OutOfMemory` no contract says
    /// what the text is.
    ///
    /// ```text
    /// faulty.write(&mut text)?;                   // line 7: NotNext
    /// ```
    pub fn write(&self, text: &mut String<Room>) -> Result<(), OutOfMemory>
        ensures { OnOk result (string_bytes text.new
            ≡ string_bytes text.old ++ faulty_line_text self.now) }
    {
        append_number("line ", self.line, text)?;
        text.push_str(": ")?;
        append_fault(&self.fault, text)
    }
}

fn append_fault(fault: &TextFault, text: &mut String<Room>) -> Result<(), OutOfMemory>
    ensures { OnOk result (string_bytes text.new ≡ string_bytes text.old ++ fault_text fault.now) }
{
    match fault {
        TextFault::Torn => append("Torn", text),
        TextFault::Line(fault) => append_line_fault(fault, text),
    }
}

fn append_line_fault(fault: &LineFault, text: &mut String<Room>) -> Result<(), OutOfMemory>
    ensures { OnOk result (string_bytes text.new
        ≡ string_bytes text.old ++ line_fault_text fault.now) }
{
    match fault {
        LineFault::NoText { at } => append_number("NoText at ", *at as u64, text),
        LineFault::NotAnOpening => append("NotAnOpening", text),
        LineFault::NoLine { at } => append_number("NoLine at ", *at as u64, text),
        LineFault::NotNext => append("NotNext", text),
        LineFault::NotSound => append("NotSound", text),
        LineFault::NotTheReply(reply) => {
            append("NotTheReply: ", text)?;
            write_reply(reply, text)?;
            Ok(())
        }
    }
}

fn append(piece: &str, text: &mut String<Room>) -> Result<(), OutOfMemory>
    ensures { OnOk result (string_bytes text.new ≡ string_bytes text.old ++ piece.now) }
{
    text.push_str(piece)?;
    Ok(())
}

// A word and a number.
fn append_number(word: &str, number: u64, text: &mut String<Room>) -> Result<(), OutOfMemory>
    ensures { OnOk result (string_bytes text.new
        ≡ string_bytes text.old ++ (word.now ++ decimal number)) }
{
    append(word, text)?;
    let mut digits = itoa::Buffer::new();
    append(digits.format(number), text)
}
