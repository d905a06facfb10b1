//! `write_value`: the written form of a value.

ghost use Rattle.std.specs.Prelude.{◌≡◌, ◌<◌, ◌∷◌, [], ◌++◌, OnOk, OnErr, string_bytes};
ghost use Rattle.std.specs.Fmt.{decimal, signed_decimal};
ghost use Rattle.argus_contents.specs.Value.{listed, plain_list, plain_value};
ghost use Rattle.argus_texts.specs.{Grown.Grew, Quotes.IsSpecial, Bytes.{colon, less_than, quote}};
ghost use Rattle.argus_texts.specs.Spelling.{escape, escaped, inside, spelling};

use crate::quoted::split_plain;
use crate::scan::split_ascii;
use argus_contents::Value;
use argus_memory::{OutOfMemory, Room};

/// Appends the written form of the value, whatever its depth. At `OutOfMemory` the text is cut back
/// to what it was.
pub fn write_value(value: &Value, out: &mut String<Room>) -> Result<(), OutOfMemory>
    ensures written { OnOk result
        (string_bytes out.new ≡ string_bytes out.old ++ spelling (plain_value value.now)) }
    ensures unchanged { OnErr result (string_bytes out.new ≡ string_bytes out.old) }
{
    let start = out.len();
    let result = append_value(value, out);
    if result.is_err() {
        out.truncate(start);
    }
    result
}

#[cycle(writing)]
pub(crate) fn append_value(value: &Value, out: &mut String<Room>) -> Result<(), OutOfMemory>
    ensures grew { Grew (string_bytes out.old) (string_bytes out.new) }
    ensures written { OnOk result
        (string_bytes out.new ≡ string_bytes out.old ++ spelling (plain_value value.now)) }
{
    match value {
        Value::Null => append("null", out),
        Value::Bool(true) => append("true", out),
        Value::Bool(false) => append("false", out),
        Value::Int(number) => append_int(*number, out),
        Value::Text(text) => append_quoted(text.as_str(), out),
        Value::Atomic(object) => {
            append("@", out)?;
            append_nat(object.0, out)
        }
        Value::Sequence(items) => {
            append("[", out)?;
            append_inside(items, ']', out)
        }
        Value::Fields(fields) => {
            append("{", out)?;
            append_inside(fields, '}', out)
        }
        Value::Choice(tag, part) => {
            append_tag(*tag, out)?;
            append_value(part, out)?;
            append(">", out)
        }
    }
}

/// The values, with commas between them, and the closing byte.
#[cycle(writing)]
pub(crate) fn append_inside(
    values: &[Value],
    close: char,
    out: &mut String<Room>,
) -> Result<(), OutOfMemory>
    requires { close < 128 }
    ensures grew { Grew (string_bytes out.old) (string_bytes out.new) }
    ensures written { OnOk result
        (string_bytes out.new
        ≡ string_bytes out.old ++ inside close (listed (plain_list values.now))) }
{
    let Some((first, others)) = values.split_first() else {
        return append_char(close, out);
    };
    append_value(first, out)?;
    for value in others {
        append(",", out)?;
        append_value(value, out)?;
    }
    append_char(close, out)
}

/// The opening angle, the tag and the colon.
pub(crate) fn append_tag(tag: u8, out: &mut String<Room>) -> Result<(), OutOfMemory>
    ensures grew { Grew (string_bytes out.old) (string_bytes out.new) }
    ensures written { OnOk result
        (string_bytes out.new ≡ string_bytes out.old ++ less_than ∷ (decimal tag ++ colon ∷ [])) }
{
    append("<", out)?;
    append_nat(u32::from(tag), out)?;
    append(":", out)
}

pub(crate) fn append_int(number: i64, out: &mut String<Room>) -> Result<(), OutOfMemory>
    ensures grew { Grew (string_bytes out.old) (string_bytes out.new) }
    ensures written { OnOk result
        (string_bytes out.new ≡ string_bytes out.old ++ signed_decimal number) }
{
    let mut digits = itoa::Buffer::new();
    append(digits.format(number), out)
}

fn append_nat(number: u32, out: &mut String<Room>) -> Result<(), OutOfMemory>
    ensures grew { Grew (string_bytes out.old) (string_bytes out.new) }
    ensures written { OnOk result (string_bytes out.new ≡ string_bytes out.old ++ decimal number) }
{
    let mut digits = itoa::Buffer::new();
    append(digits.format(number), out)
}

/// The text between quotes.
fn append_quoted(text: &str, out: &mut String<Room>) -> Result<(), OutOfMemory>
    ensures grew { Grew (string_bytes out.old) (string_bytes out.new) }
    ensures written { OnOk result
        (string_bytes out.new ≡ string_bytes out.old ++ quote ∷ (escaped text.now ++ quote ∷ [])) }
{
    append("\"", out)?;
    let mut rest = text;
    loop {
        let (plain, others) = split_plain(rest);
        append(plain, out)?;
        let Some((first, behind)) = split_ascii(others) else {
            return append("\"", out);
        };
        append(escape_of(first), out)?;
        rest = behind;
    }
}

fn escape_of(byte: u8) -> &'static str
    requires { IsSpecial byte }
    ensures { result.now ≡ escape byte }
{
    if byte == b'"' {
        return "\\\"";
    }
    if byte == b'\\' {
        return "\\\\";
    }
    "\\n"
}

/// Appends the text.
pub(crate) fn append(text: &str, out: &mut String<Room>) -> Result<(), OutOfMemory>
    ensures grew { Grew (string_bytes out.old) (string_bytes out.new) }
    ensures written { OnOk result (string_bytes out.new ≡ string_bytes out.old ++ text.now) }
{
    out.push_str(text)?;
    Ok(())
}

fn append_char(char: char, out: &mut String<Room>) -> Result<(), OutOfMemory>
    requires { char < 128 }
    ensures grew { Grew (string_bytes out.old) (string_bytes out.new) }
    ensures written { OnOk result (string_bytes out.new ≡ string_bytes out.old ++ char ∷ []) }
{
    out.push(char)?;
    Ok(())
}
