//! `write_content`: the written form of a content.

ghost use Rattle.std.specs.Prelude.{◌≡◌, ◌++◌, OnOk, OnErr, string_bytes};
ghost use Rattle.argus_contents.specs.{Content.plain_content, Value.{listed, plain_list}};
ghost use Rattle.argus_texts.specs.{ContentSpelling.content_spelling, Grown.{Grew, commas}};
ghost use Rattle.argus_texts.specs.{Spelling.inside, Bytes.close_bracket};

use crate::writing::{append, append_inside, append_int, append_tag, append_value};
use argus_contents::{Content, Value};
use argus_memory::{OutOfMemory, Room};
use std::collections::VecDeque;

/// Appends the written form of the content, whatever its depth. At `OutOfMemory` the text is cut
/// back to what it was.
pub fn write_content(content: &Content, out: &mut String<Room>) -> Result<(), OutOfMemory>
    ensures written { OnOk result
        (string_bytes out.new
        ≡ string_bytes out.old ++ content_spelling (plain_content content.now)) }
    ensures unchanged { OnErr result (string_bytes out.new ≡ string_bytes out.old) }
{
    let start = out.len();
    let result = append_content(content, out);
    if result.is_err() {
        out.truncate(start);
    }
    result
}

fn append_content(content: &Content, out: &mut String<Room>) -> Result<(), OutOfMemory>
    ensures grew { Grew (string_bytes out.old) (string_bytes out.new) }
    ensures written { OnOk result
        (string_bytes out.new
        ≡ string_bytes out.old ++ content_spelling (plain_content content.now)) }
{
    match content {
        Content::Rec(fields) => {
            append("{", out)?;
            append_inside(fields, '}', out)
        }
        Content::Arr { low, items } => {
            append_int(*low, out)?;
            append("[", out)?;
            append_items(items, out)
        }
        Content::Var { tag, value } => {
            append_tag(*tag, out)?;
            append_value(value, out)?;
            append(">", out)
        }
    }
}

/// The items with commas between them, and the closing bracket.
fn append_items(items: &VecDeque<Value, Room>, out: &mut String<Room>) -> Result<(), OutOfMemory>
    ensures grew { Grew (string_bytes out.old) (string_bytes out.new) }
    ensures written { OnOk result
        (string_bytes out.new
        ≡ string_bytes out.old ++ inside close_bracket (listed (plain_list items.now.items))) }
{
    let (front, back) = items.as_slices();
    let Some((first, others)) = front.split_first() else {
        return append_inside(back, ']', out);
    };
    append_value(first, out)?;
    append_more(others, out)?;
    append_more(back, out)?;
    append("]", out)
}

/// A comma and a value, for each of them.
fn append_more(values: &[Value], out: &mut String<Room>) -> Result<(), OutOfMemory>
    ensures grew { Grew (string_bytes out.old) (string_bytes out.new) }
    ensures written { OnOk result
        (string_bytes out.new ≡ string_bytes out.old ++ commas (listed (plain_list values.now))) }
{
    for value in values {
        append(",", out)?;
        append_value(value, out)?;
    }
    Ok(())
}
