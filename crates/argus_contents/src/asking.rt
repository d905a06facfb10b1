//! `ask`: the answer to a query.

ghost use Rattle.std.specs.Prelude.{◌≡◌, length, slice_get, Option, Some, None, IfOk};
ghost use Rattle.argus_contents.specs.{Answer.{body, plain_answer, value_or}, Place.place_of};
ghost use Rattle.argus_contents.specs.Content.{KeepsBounds, KeepsLimits, plain_option, arr};
ghost use Rattle.argus_contents.specs.Query.{array_reply, record_reply, reply, variant_reply};
ghost use Rattle.argus_contents.specs.Value.{plain_value, plain_list, plain_found};

use crate::answer::Answer;
use crate::content::{Content, duplicate_items};
use crate::query::Query;
use crate::signal::Signal;
use crate::value::{Value, duplicate_all};
use argus_memory::{Heap, OutOfMemory, Room};
use std::collections::VecDeque;

/// The answer to the query of the content; [`Query`] has the table.
///
/// Condition: an array that is present keeps the limits, as `fits` tests. A content that `alter` or
/// `alter_in_place` left keeps them if every content that was created did. The answer is a copy,
/// which owns its parts. `OutOfMemory`: there was no memory for it.
pub fn ask(heap: Heap, content: &Option<Content>, query: &Query) -> Result<Answer, OutOfMemory>
    requires { KeepsLimits (plain_option content.now) }
    ensures { IfOk result (λ answer. plain_answer answer
        ≡ reply query.now (plain_option content.now)) }
{
    match content {
        None => Ok(Answer::Signal(Signal::Absent)),
        Some(Content::Rec(fields)) => ask_record(heap, fields, query),
        Some(Content::Arr { low, items }) => ask_array(heap, *low, items, query),
        Some(Content::Var { tag, value }) => ask_variant(heap, *tag, value, query),
    }
}

fn ask_record(heap: Heap, fields: &[Value], query: &Query) -> Result<Answer, OutOfMemory>
    ensures { IfOk result (λ answer. plain_answer answer
        ≡ record_reply query.now (plain_list fields.now)) }
{
    match query {
        Query::Whole => Answer::body(heap, Content::Rec(duplicate_all(heap, fields)?)),
        Query::Field(field) => {
            value_or_signal(heap, fields.get(*field as usize), Signal::Absent)
        }
        Query::Low
        | Query::High
        | Query::Size
        | Query::Fetch(_)
        | Query::Bottom
        | Query::Top
        | Query::IsTag(_)
        | Query::TagValue(_) => Ok(Answer::Signal(Signal::Absent)),
    }
}

fn ask_array(
    heap: Heap,
    low: i64,
    items: &VecDeque<Value, Room>,
    query: &Query,
) -> Result<Answer, OutOfMemory>
    requires { KeepsBounds low (length items.now.items) }
    ensures { IfOk result (λ answer. plain_answer answer
        ≡ array_reply query.now low (plain_list items.now.items)) }
{
    match query {
        Query::Whole => whole_array(heap, low, items),
        Query::Low => Ok(Answer::Num(low)),
        Query::High => Ok(Answer::Num(low + items.len() as i64 - 1)),
        Query::Size => Ok(Answer::Num(items.len() as i64)),
        Query::Fetch(index) => fetch(heap, low, items, *index),
        Query::Bottom => value_or_signal(heap, items.front(), Signal::Bounds),
        Query::Top => value_or_signal(heap, items.back(), Signal::Bounds),
        Query::Field(_) | Query::IsTag(_) | Query::TagValue(_) => {
            Ok(Answer::Signal(Signal::Absent))
        }
    }
}

fn whole_array(heap: Heap, low: i64, items: &VecDeque<Value, Room>) -> Result<Answer, OutOfMemory>
    ensures { IfOk result (λ answer. plain_answer answer
        ≡ body (arr low (plain_list items.now.items))) }
{
    let items = duplicate_items(heap, items)?;
    Answer::body(heap, Content::Arr { low, items })
}

fn ask_variant(heap: Heap, tag: u8, value: &Value, query: &Query) -> Result<Answer, OutOfMemory>
    ensures { IfOk result (λ answer. plain_answer answer
        ≡ variant_reply query.now tag (plain_value value.now)) }
{
    match query {
        Query::IsTag(asked) => Ok(Answer::Flag(*asked == tag)),
        Query::TagValue(asked) => {
            if *asked != tag {
                return Ok(Answer::Signal(Signal::WrongTag));
            }
            Ok(Answer::Val(value.duplicate(heap)?))
        }
        Query::Whole => {
            let value = value.duplicate(heap)?;
            Answer::body(heap, Content::Var { tag, value })
        }
        Query::Field(_)
        | Query::Low
        | Query::High
        | Query::Size
        | Query::Fetch(_)
        | Query::Bottom
        | Query::Top => Ok(Answer::Signal(Signal::Absent)),
    }
}

fn fetch(
    heap: Heap,
    low: i64,
    items: &VecDeque<Value, Room>,
    index: i64,
) -> Result<Answer, OutOfMemory>
    requires { KeepsBounds low (length items.now.items) }
    ensures { IfOk result (λ answer. plain_answer answer
        ≡ array_reply (Query.Fetch index) low (plain_list items.now.items)) }
{
    match place_in(low, items.len(), index) {
        None => Ok(Answer::Signal(Signal::Bounds)),
        Some(place) => value_or_signal(heap, item_at(items, place), Signal::Bounds),
    }
}

/// The item at a place, if there is one.
pub(crate) fn item_at(items: &VecDeque<Value, Room>, place: usize) -> Option<&Value>
    ensures { plain_found result ≡ slice_get (plain_list items.now.items) place }
{
    items.get(place)
}

/// The place of an index in an array, counted from 0; `None` if it is out of bounds.
pub(crate) fn place_in(low: i64, size: usize, index: i64) -> Option<usize>
    ensures { result ≡ place_of low size index }
{
    if index < low {
        return None;
    }
    let place = index.abs_diff(low);
    if place < size as u64 {
        Some(place as usize)
    } else {
        None
    }
}

/// A copy of the value, or the signal if there is none.
pub(crate) fn value_or_signal(
    heap: Heap,
    value: Option<&Value>,
    signal: Signal,
) -> Result<Answer, OutOfMemory>
    ensures { IfOk result (λ answer. plain_answer answer
        ≡ value_or signal (plain_found value.entry)) }
{
    match value {
        None => Ok(Answer::Signal(signal)),
        Some(value) => Ok(Answer::Val(value.duplicate(heap)?)),
    }
}
