//! `remove`: a change that removes an item, and `removal_answer`: its answer before it is made.

ghost use Rattle.std.specs.Prelude.{◌≡◌, ◌-◌, IfOk, length, slice_get, take, true};
ghost use Rattle.argus_contents.specs.{Answer.{plain_answer, value_or}, Value.plain_list};
ghost use Rattle.argus_contents.specs.Change.{array_outcome, gives_value, Leaves, outcome};
ghost use Rattle.argus_contents.specs.Change.{plain_change, reml};
ghost use Rattle.argus_contents.specs.Content.{KeepsBounds, KeepsLimits, plain_content};
ghost use Rattle.argus_contents.specs.Content.{plain_option, with_low};

use crate::altering::put_low;
use crate::answer::Answer;
use crate::asking::value_or_signal;
use crate::change::Change;
use crate::content::Content;
use crate::limits::MAX_BOUND;
use crate::signal::Signal;
use crate::value::Value;
use argus_memory::{Heap, OutOfMemory, Room};
use std::collections::VecDeque;

/// Removes the item that the change removes, and moves it into the answer; it takes no memory.
pub(crate) fn remove(content: &mut Option<Content>, change: &Change) -> Answer
    requires limits { KeepsLimits (plain_option content.old) }
    requires gives { gives_value (plain_change change.now) ≡ true }
    ensures { (plain_option content.new, plain_answer result)
        ≡ outcome (plain_change change.now) (plain_option content.old) }
{
    match content {
        Some(present) => remove_present(present, change),
        None => Answer::Signal(Signal::Absent),
    }
}

fn remove_present(content: &mut Content, change: &Change) -> Answer
    requires limits { KeepsLimits (Some (plain_content content.old)) }
    requires gives { gives_value (plain_change change.now) ≡ true }
    ensures { (Some (plain_content content.new), plain_answer result)
        ≡ outcome (plain_change change.now) (Some (plain_content content.old)) }
{
    match *content {
        Content::Arr { low, ref mut items } => {
            let mut bound = low;
            let answer = remove_item(&mut bound, items, change);
            put_low(content, bound);
            answer
        }
        Content::Rec(_) | Content::Var { tag: _, value: _ } => Answer::Signal(Signal::Absent),
    }
}

fn remove_item(low: &mut i64, items: &mut VecDeque<Value, Room>, change: &Change) -> Answer
    requires bounds { KeepsBounds low.old (length items.old.items) }
    requires gives { gives_value (plain_change change.now) ≡ true }
    ensures { Leaves (plain_change change.now)
        low.old items.old.items low.new items.new.items result }
{
    match change {
        Change::Reml => remove_low(low, items),
        _ => remove_high(items),
    }
}

fn remove_high(items: &mut VecDeque<Value, Room>) -> Answer
    ensures items { plain_list items.new.items ≡ take (length (plain_list items.old.items) - 1)
        (plain_list items.old.items) }
    ensures answer { plain_answer result ≡ value_or Signal.Bounds
        (slice_get (plain_list items.old.items) (length (plain_list items.old.items) - 1)) }
{
    match items.pop_back() {
        None => Answer::Signal(Signal::Bounds),
        Some(last) => Answer::Val(last),
    }
}

fn remove_low(low: &mut i64, items: &mut VecDeque<Value, Room>) -> Answer
    requires { KeepsBounds low.old (length items.old.items) }
    ensures { Leaves reml low.old items.old.items low.new items.new.items result }
{
    if items.is_empty() {
        return Answer::Signal(Signal::Bounds);
    }
    if *low == MAX_BOUND {
        return Answer::Signal(Signal::Limits);
    }
    match items.pop_front() {
        None => Answer::Signal(Signal::Bounds),
        Some(first) => {
            *low += 1;
            Answer::Val(first)
        }
    }
}

/// The answer of a change that removes an item, before it is made; [`alter`](crate::alter) makes it.
///
/// Conditions: the change is `Remh` or `Reml`, as [`Change::gives_value`] tests, and an array that
/// is present keeps the limits, as `fits` tests. Nothing is changed, and the answer is a copy.
/// `OutOfMemory`: there was no memory for it.
pub fn removal_answer(
    heap: Heap,
    content: &Option<Content>,
    change: &Change,
) -> Result<Answer, OutOfMemory>
    requires limits { KeepsLimits (plain_option content.now) }
    requires gives { gives_value (plain_change change.now) ≡ true }
    ensures { IfOk result (λ answer. plain_answer answer
        ≡ (outcome (plain_change change.now) (plain_option content.now)).1) }
{
    match content {
        Some(Content::Arr { low, items }) => item_answer(heap, *low, items, change),
        None | Some(Content::Rec(_)) | Some(Content::Var { tag: _, value: _ }) => {
            Ok(Answer::Signal(Signal::Absent))
        }
    }
}

fn item_answer(
    heap: Heap,
    low: i64,
    items: &VecDeque<Value, Room>,
    change: &Change,
) -> Result<Answer, OutOfMemory>
    requires bounds { KeepsBounds low (length items.now.items) }
    requires gives { gives_value (plain_change change.now) ≡ true }
    ensures { IfOk result (λ answer. plain_answer answer
        ≡ (array_outcome (plain_change change.now) low (plain_list items.now.items)).1) }
{
    match change {
        Change::Reml => first_answer(heap, low, items),
        _ => value_or_signal(heap, items.back(), Signal::Bounds),
    }
}

fn first_answer(heap: Heap, low: i64, items: &VecDeque<Value, Room>) -> Result<Answer, OutOfMemory>
    requires { KeepsBounds low (length items.now.items) }
    ensures { IfOk result (λ answer. plain_answer answer
        ≡ (array_outcome reml low (plain_list items.now.items)).1) }
{
    if !items.is_empty() && low == MAX_BOUND {
        return Ok(Answer::Signal(Signal::Limits));
    }
    value_or_signal(heap, items.front(), Signal::Bounds)
}
