//! The written forms of queries and changes.

ghost use Rattle.std.specs.Prelude.{◌≡◌, ◌++◌, OnOk, string_bytes};
ghost use Rattle.argus_contents.specs.Change.{plain_change};
ghost use Rattle.argus_entries.specs.OperationSpelling.{change_spelling, query_spelling};
ghost use Rattle.argus_texts.specs.Grown.{Grew};

use crate::appending::{append, append_content, append_int, append_number, append_value};
use argus_contents::{Change, Query};
use argus_memory::{OutOfMemory, Room};

pub(crate) fn append_query(query: &Query, out: &mut String<Room>) -> Result<(), OutOfMemory>
    ensures grew { Grew (string_bytes out.old) (string_bytes out.new) }
    ensures written { OnOk result (string_bytes out.new
        ≡ string_bytes out.old ++ query_spelling query.now) }
{
    match query {
        Query::Whole => append("whole", out),
        Query::Field(field) => append_number("field ", u64::from(*field), out),
        Query::Low => append("low", out),
        Query::High => append("high", out),
        Query::Size => append("size", out),
        Query::Fetch(index) => append_int("fetch ", *index, out),
        Query::Bottom => append("bottom", out),
        Query::Top => append("top", out),
        Query::IsTag(tag) => append_number("is_tag ", u64::from(*tag), out),
        Query::TagValue(tag) => append_number("tag_value ", u64::from(*tag), out),
    }
}

pub(crate) fn append_change(change: &Change, out: &mut String<Room>) -> Result<(), OutOfMemory>
    ensures grew { Grew (string_bytes out.old) (string_bytes out.new) }
    ensures written { OnOk result (string_bytes out.new
        ≡ string_bytes out.old ++ change_spelling (plain_change change.now)) }
{
    match change {
        Change::Create(content) => append_content("create ", content, out),
        Change::SetField(field, value) => {
            append_number("set_field ", u64::from(*field), out)?;
            append_value(" ", value, out)
        }
        Change::Store(index, value) => {
            append_int("store ", *index, out)?;
            append_value(" ", value, out)
        }
        Change::Addh(value) => append_value("addh ", value, out),
        Change::Addl(value) => append_value("addl ", value, out),
        Change::Remh => append("remh", out),
        Change::Reml => append("reml", out),
        Change::SetLow(bound) => append_int("set_low ", *bound, out),
        Change::Trim(from, count) => {
            append_int("trim ", *from, out)?;
            append_int(" ", *count, out)
        }
        Change::ChangeTag(tag, value) => {
            append_number("change_tag ", u64::from(*tag), out)?;
            append_value(" ", value, out)
        }
        Change::Touch => append("touch", out),
    }
}
