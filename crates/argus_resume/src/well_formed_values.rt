//! `object_is_well_formed`, `content_is_well_formed`: the parts of objects and contents, read for the
//! proof alone.

ghost use Rattle.std.specs.Prelude.{◌<◌, ◌^◌};
ghost use Rattle.argus_contents.specs.Content.{plain_content};
ghost use Rattle.argus_contents.specs.Value.{listed, plain_list, plain_value};
ghost use Rattle.argus_texts.specs.Spelling.{IsI64};
ghost use Rattle.argus_journal.specs.Opening.{plain_object};
ghost use Rattle.argus_resume.specs.WellFormed.{AreWellFormedValues, IsWellFormedValue};
ghost use Rattle.argus_resume.specs.WellFormed.{IsWellFormedContent, IsWellFormedObject};

use argus_contents::{Content, Shape, Value};
use argus_memory::Room;
use std::collections::VecDeque;

/// Reads the shape, and the parts of the content if there is one.
pub(crate) fn object_is_well_formed(object: &(Shape, Option<Content>))
    ensures { IsWellFormedObject (plain_object object.now) }
{
    let (shape, content) = object;
    shape.limits_are_kept();
    match content {
        Some(content) => content_is_well_formed(content),
        None => {}
    }
}

/// Reads the parts of the content.
pub(crate) fn content_is_well_formed(content: &Content)
    ensures { IsWellFormedContent (plain_content content.now) }
{
    match content {
        Content::Rec(fields) => values_are_well_formed(fields),
        Content::Arr { low, items } => {
            integer(low);
            items_are_well_formed(items);
        }
        Content::Var { tag, value } => {
            byte(tag);
            value_is_well_formed(value);
        }
    }
}

/// Reads the items.
fn items_are_well_formed(items: &VecDeque<Value, Room>)
    ensures { AreWellFormedValues (listed (plain_list items.now.items)) }
{
    let (front, back) = items.as_slices();
    values_are_well_formed(front);
    values_are_well_formed(back);
}

/// Reads the parts of the value.
#[cycle(well_formed)]
pub(crate) fn value_is_well_formed(value: &Value)
    ensures { IsWellFormedValue (plain_value value.now) }
{
    match value {
        Value::Null | Value::Bool(_) => {}
        Value::Int(number) => integer(number),
        Value::Text(text) => {
            let _text = text.as_str();
        }
        Value::Atomic(object) => number(&object.0),
        Value::Sequence(items) => values_are_well_formed(items),
        Value::Fields(fields) => values_are_well_formed(fields),
        Value::Choice(tag, part) => {
            byte(tag);
            value_is_well_formed(part);
        }
    }
}

/// Reads the values.
#[cycle(well_formed)]
fn values_are_well_formed(values: &[Value])
    ensures { AreWellFormedValues (listed (plain_list values.now)) }
{
    for value in values {
        value_is_well_formed(value);
    }
}

/// Reads the number: it is in the range of its type.
pub(crate) fn integer(number: &i64)
    ensures { IsI64 number.now }
{
    let _read = *number;
}

/// Reads the number: it is in the range of its type.
pub(crate) fn number(number: &u32)
    ensures { number.now < 2 ^ 32 }
{
    let _read = *number;
}

/// Reads the number: it is in the range of its type.
pub(crate) fn byte(number: &u8)
    ensures { number.now < 2 ^ 8 }
{
    let _read = *number;
}
