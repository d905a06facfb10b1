//! Pieces of a line, each appended to a text. If memory runs out, the text has a part of the piece
//! at its end.

ghost use Rattle.std.specs.{Fmt.{decimal, signed_decimal}, Prelude.{◌≡◌, ◌++◌, OnOk, string_bytes}};
ghost use Rattle.argus_contents.specs.{Content.plain_content, Value.plain_value};
ghost use Rattle.argus_texts.specs.{ContentSpelling.content_spelling, Grown.Grew};
ghost use Rattle.argus_texts.specs.{ShapeSpelling.shape_spelling, Spelling.spelling};

use argus_contents::{Content, Shape, Value};
use argus_memory::{OutOfMemory, Room};
use argus_texts::{write_content, write_shape, write_value};

pub(crate) fn append(text: &str, out: &mut String<Room>) -> Result<(), OutOfMemory>
    ensures grew { Grew (string_bytes out.old) (string_bytes out.new) }
    ensures written { OnOk result (string_bytes out.new
        ≡ string_bytes out.old ++ text.now) }
{
    out.push_str(text)?;
    Ok(())
}

/// A word and a number.
pub(crate) fn append_number(
    word: &str,
    number: u64,
    out: &mut String<Room>,
) -> Result<(), OutOfMemory>
    ensures grew { Grew (string_bytes out.old) (string_bytes out.new) }
    ensures written { OnOk result (string_bytes out.new
        ≡ string_bytes out.old ++ (word.now ++ decimal number)) }
{
    append(word, out)?;
    let mut digits = itoa::Buffer::new();
    append(digits.format(number), out)
}

/// A word and an integer.
pub(crate) fn append_int(word: &str, number: i64, out: &mut String<Room>) -> Result<(), OutOfMemory>
    ensures grew { Grew (string_bytes out.old) (string_bytes out.new) }
    ensures written { OnOk result (string_bytes out.new
        ≡ string_bytes out.old ++ (word.now ++ signed_decimal number)) }
{
    append(word, out)?;
    let mut digits = itoa::Buffer::new();
    append(digits.format(number), out)
}

/// A word and a value.
pub(crate) fn append_value(
    word: &str,
    value: &Value,
    out: &mut String<Room>,
) -> Result<(), OutOfMemory>
    ensures grew { Grew (string_bytes out.old) (string_bytes out.new) }
    ensures written { OnOk result (string_bytes out.new
        ≡ string_bytes out.old ++ (word.now ++ spelling (plain_value value.now))) }
{
    append(word, out)?;
    write_value(value, out)
}

/// A word and a content.
pub(crate) fn append_content(
    word: &str,
    content: &Content,
    out: &mut String<Room>,
) -> Result<(), OutOfMemory>
    ensures grew { Grew (string_bytes out.old) (string_bytes out.new) }
    ensures written { OnOk result (string_bytes out.new
        ≡ string_bytes out.old ++ (word.now ++ content_spelling (plain_content content.now))) }
{
    append(word, out)?;
    write_content(content, out)
}

/// A word and a shape.
pub(crate) fn append_shape(
    word: &str,
    shape: &Shape,
    out: &mut String<Room>,
) -> Result<(), OutOfMemory>
    ensures grew { Grew (string_bytes out.old) (string_bytes out.new) }
    ensures written { OnOk result (string_bytes out.new
        ≡ string_bytes out.old ++ (word.now ++ shape_spelling shape.now)) }
{
    append(word, out)?;
    write_shape(shape, out)
}
