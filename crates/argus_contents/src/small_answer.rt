//! `SmallAnswer`: an answer that takes no memory, and `ask_small`, which returns it.

ghost use Rattle.std.specs.Prelude.{◌≡◌, false, IfNone, IfSome, length, true};
ghost use Rattle.argus_contents.specs.Answer.{plain_answer, val, value_or};
ghost use Rattle.argus_contents.specs.Content.{KeepsBounds, KeepsLimits, plain_option};
ghost use Rattle.argus_contents.specs.Query.{array_reply, record_reply, reply, variant_reply};
ghost use Rattle.argus_contents.specs.SmallAnswer.{plain_small, takes_memory};
ghost use Rattle.argus_contents.specs.Value.{plain_value, plain_list, plain_found};

use crate::answer::Answer;
use crate::asking::{item_at, place_in};
use crate::content::Content;
use crate::obj_id::ObjId;
use crate::query::Query;
use crate::signal::Signal;
use crate::value::Value;
use argus_memory::Room;
use std::collections::VecDeque;

/// An answer that takes no memory, as most answers of queries. It is small and is copied, while an
/// [`Answer`] is moved in pieces.
///
/// | Variant | The answer |
/// |---|---|
/// | `Null`, `Bool`, `Int`, `Atomic` | `Val` of such a value |
/// | `Num` | `Num` |
/// | `Flag` | `Flag` |
/// | `Signal` | `Signal` |
///
/// ```text
/// match ask_small(&content, &Query::Size) {
///     Some(SmallAnswer::Num(size)) => ..,
///     Some(small) => keep(small.answer()),
///     None => keep(ask(heap, &content, &Query::Size)?),
/// }
/// ```
#[derive(Clone, Copy)]
pub enum SmallAnswer {
    Null,
    Bool(bool),
    Int(i64),
    Atomic(ObjId),
    Num(i64),
    Flag(bool),
    Signal(Signal),
}

impl SmallAnswer {
    /// The answer that this is; it takes no memory.
    ///
    /// ```text
    /// assert_eq!(rt; SmallAnswer::Num(5).answer(), Answer::Num(5));
    /// ```
    #[inline(always)]
    pub fn answer(self) -> Answer
        ensures { plain_answer result ≡ plain_small self }
    {
        match self {
            SmallAnswer::Null => Answer::Val(Value::Null),
            SmallAnswer::Bool(truth) => Answer::Val(Value::Bool(truth)),
            SmallAnswer::Int(number) => Answer::Val(Value::Int(number)),
            SmallAnswer::Atomic(object) => Answer::Val(Value::Atomic(object)),
            SmallAnswer::Num(number) => Answer::Num(number),
            SmallAnswer::Flag(truth) => Answer::Flag(truth),
            SmallAnswer::Signal(signal) => Answer::Signal(signal),
        }
    }
}

/// What [`ask`](crate::ask) returns, if that takes no memory, without a heap; [`Query`] has the
/// table. `None`: the answer is the whole content, or a text, a sequence, fields or a choice; use
/// `ask`.
///
/// An array that is present has to keep the limits, as `fits` tests. Nothing is changed, and
/// nothing fails.
///
/// ```text
/// let size = ask_small(&content, &Query::Size);
/// ```
pub fn ask_small(content: &Option<Content>, query: &Query) -> Option<SmallAnswer>
    requires { KeepsLimits (plain_option content.now) }
    ensures value { IfSome result (λ small. plain_small small
        ≡ reply query.now (plain_option content.now)) }
    ensures small { IfSome result (λ small. takes_memory
        (reply query.now (plain_option content.now)) ≡ false) }
    ensures none { IfNone result
        (takes_memory (reply query.now (plain_option content.now)) ≡ true) }
{
    match content {
        None => Some(SmallAnswer::Signal(Signal::Absent)),
        Some(Content::Rec(fields)) => ask_record(fields, query),
        Some(Content::Arr { low, items }) => ask_array(*low, items, query),
        Some(Content::Var { tag, value }) => ask_variant(*tag, value, query),
    }
}

#[inline(always)]
fn ask_record(fields: &[Value], query: &Query) -> Option<SmallAnswer>
    ensures value { IfSome result (λ small. plain_small small
        ≡ record_reply query.now (plain_list fields.now)) }
    ensures none { IfNone result
        (takes_memory (record_reply query.now (plain_list fields.now)) ≡ true) }
{
    match query {
        Query::Field(field) => small_or_signal(fields.get(*field as usize), Signal::Absent),
        Query::Whole => None,
        Query::Low
        | Query::High
        | Query::Size
        | Query::Fetch(_)
        | Query::Bottom
        | Query::Top
        | Query::IsTag(_)
        | Query::TagValue(_) => Some(SmallAnswer::Signal(Signal::Absent)),
    }
}

fn ask_array(low: i64, items: &VecDeque<Value, Room>, query: &Query) -> Option<SmallAnswer>
    requires { KeepsBounds low (length items.now.items) }
    ensures value { IfSome result (λ small. plain_small small
        ≡ array_reply query.now low (plain_list items.now.items)) }
    ensures none { IfNone result
        (takes_memory (array_reply query.now low (plain_list items.now.items)) ≡ true) }
{
    match query {
        Query::Whole => None,
        Query::Low => Some(SmallAnswer::Num(low)),
        Query::High => Some(SmallAnswer::Num(low + items.len() as i64 - 1)),
        Query::Size => Some(SmallAnswer::Num(items.len() as i64)),
        Query::Fetch(index) => fetch(low, items, *index),
        Query::Bottom => small_or_signal(items.front(), Signal::Bounds),
        Query::Top => small_or_signal(items.back(), Signal::Bounds),
        Query::Field(_) | Query::IsTag(_) | Query::TagValue(_) => {
            Some(SmallAnswer::Signal(Signal::Absent))
        }
    }
}

#[inline(always)]
fn fetch(low: i64, items: &VecDeque<Value, Room>, index: i64) -> Option<SmallAnswer>
    requires { KeepsBounds low (length items.now.items) }
    ensures value { IfSome result (λ small. plain_small small
        ≡ array_reply (Query.Fetch index) low (plain_list items.now.items)) }
    ensures none { IfNone result (takes_memory
        (array_reply (Query.Fetch index) low (plain_list items.now.items)) ≡ true) }
{
    match place_in(low, items.len(), index) {
        None => Some(SmallAnswer::Signal(Signal::Bounds)),
        Some(place) => small_or_signal(item_at(items, place), Signal::Bounds),
    }
}

#[inline(always)]
fn ask_variant(tag: u8, value: &Value, query: &Query) -> Option<SmallAnswer>
    ensures value { IfSome result (λ small. plain_small small
        ≡ variant_reply query.now tag (plain_value value.now)) }
    ensures none { IfNone result
        (takes_memory (variant_reply query.now tag (plain_value value.now)) ≡ true) }
{
    match query {
        Query::IsTag(asked) => Some(SmallAnswer::Flag(*asked == tag)),
        Query::TagValue(asked) => {
            if *asked != tag {
                return Some(SmallAnswer::Signal(Signal::WrongTag));
            }
            small_or_signal(Some(value), Signal::Absent)
        }
        Query::Whole => None,
        Query::Field(_)
        | Query::Low
        | Query::High
        | Query::Size
        | Query::Fetch(_)
        | Query::Bottom
        | Query::Top => Some(SmallAnswer::Signal(Signal::Absent)),
    }
}

// The value, or the signal if there is none; `None` if the value takes memory.
#[inline(always)]
fn small_or_signal(value: Option<&Value>, signal: Signal) -> Option<SmallAnswer>
    ensures value { IfSome result (λ small. plain_small small
        ≡ value_or signal (plain_found value.entry)) }
    ensures none { IfNone result
        (takes_memory (value_or signal (plain_found value.entry)) ≡ true) }
{
    match value {
        None => Some(SmallAnswer::Signal(signal)),
        Some(value) => small_value(value),
    }
}

#[inline(always)]
fn small_value(value: &Value) -> Option<SmallAnswer>
    ensures value { IfSome result (λ small. plain_small small ≡ val (plain_value value.now)) }
    ensures none { IfNone result (takes_memory (val (plain_value value.now)) ≡ true) }
{
    match value {
        Value::Int(number) => Some(SmallAnswer::Int(*number)),
        Value::Null => Some(SmallAnswer::Null),
        Value::Bool(truth) => Some(SmallAnswer::Bool(*truth)),
        Value::Atomic(object) => Some(SmallAnswer::Atomic(*object)),
        Value::Text(_) | Value::Sequence(_) | Value::Fields(_) | Value::Choice(_, _) => None,
    }
}
