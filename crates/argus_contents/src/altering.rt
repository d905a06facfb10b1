//! `alter`, `alter_in_place` and `alter_by_reference`: what a change does.

ghost use Rattle.std.specs.Prelude.{◌≡◌, false, IfOk, length, None, OnErr, OnOk, Some, true};
ghost use Rattle.argus_contents.specs.{Answer.{done_or, plain_answer}, Change.variant_outcome};
ghost use Rattle.argus_contents.specs.Change.{absent_outcome, addh, addl, CreatesWithin};
ghost use Rattle.argus_contents.specs.Change.{gives_value, Leaves, LeavesOr, outcome, plain_change};
ghost use Rattle.argus_contents.specs.Change.{record_outcome, set_in, set_low, store, trim};
ghost use Rattle.argus_contents.specs.Content.{KeepsBounds, KeepsLimits, plain_content};
ghost use Rattle.argus_contents.specs.Content.{plain_option, rec, var, with_low};
ghost use Rattle.argus_contents.specs.Value.{plain_list, plain_value};

use crate::answer::Answer;
use crate::array::{is_full_high, is_full_low, is_out_of_limits, trim_items, trim_refusal};
use crate::asking::place_in;
use crate::change::Change;
use crate::content::Content;
use crate::removing::remove;
use crate::signal::Signal;
use crate::value::Value;
use argus_memory::{Heap, OutOfMemory, Room};
use std::collections::VecDeque;

/// The content that the change leaves, and its answer; [`Change`] has the table.
///
/// Condition: an array that is present keeps the limits, as `fits` tests. The result keeps them,
/// too, if a content that the change creates does. Nothing is changed. `OutOfMemory`: there was no
/// memory for a copy, or for a longer array.
pub fn alter(
    heap: Heap,
    content: &Option<Content>,
    change: &Change,
) -> Result<(Option<Content>, Answer), OutOfMemory>
    requires { KeepsLimits (plain_option content.now) }
    ensures ok { IfOk result (λ left. (plain_option left.0, plain_answer left.1)
        ≡ outcome (plain_change change.now) (plain_option content.now)) }
    ensures kept { CreatesWithin (plain_change change.now)
        → IfOk result (λ left. KeepsLimits (plain_option left.0)) }
{
    let mut copy = Content::duplicate_option(heap, content)?;
    let answer = alter_in_place(heap, &mut copy, change)?;
    Ok((copy, answer))
}

/// Makes the change in place, with the meaning of [`alter`] and under the same condition. What is
/// removed is moved into the answer, and of the change only the value that it leaves is copied.
/// After `OutOfMemory`, which `Remh` and `Reml` never return, the content is unchanged.
///
/// The time of a change doesn't depend on the array's length, except for `Trim`, which drops what
/// it doesn't keep, and for an `Addh` or `Addl` that finds no room left and doubles the queue.
pub fn alter_in_place(
    heap: Heap,
    content: &mut Option<Content>,
    change: &Change,
) -> Result<Answer, OutOfMemory>
    requires { KeepsLimits (plain_option content.old) }
    ensures ok { IfOk result (λ answer. (plain_option content.new, plain_answer answer)
        ≡ outcome (plain_change change.now) (plain_option content.old)) }
    ensures err { OnErr result (plain_option content.new ≡ plain_option content.old) }
    ensures kept { CreatesWithin (plain_change change.now)
        → KeepsLimits (plain_option content.new) }
{
    if change.gives_value() {
        return Ok(remove(content, change));
    }
    match alter_by_reference(heap, content, change)? {
        None => Ok(Answer::Done),
        Some(why) => Ok(Answer::Signal(why)),
    }
}

/// Makes a change that returns no value in place, as [`alter_in_place`] does: `None` if the answer
/// is `Done`, else the signal. An integer over another is one store.
///
/// The change has to be neither `Remh` nor `Reml`, as [`Change::gives_value`] tests. An array that
/// is present has to keep the limits, as `fits` tests. After `OutOfMemory` the content is
/// unchanged.
///
/// ```text
/// if let Some(signal) = alter_by_reference(heap, &mut content, &Change::SetLow(1))? { .. }
/// ```
#[inline(always)]
pub fn alter_by_reference(
    heap: Heap,
    content: &mut Option<Content>,
    change: &Change,
) -> Result<Option<Signal>, OutOfMemory>
    requires limits { KeepsLimits (plain_option content.old) }
    requires gives_none { gives_value (plain_change change.now) ≡ false }
    ensures ok { IfOk result (λ refusal. (plain_option content.new, done_or refusal)
        ≡ outcome (plain_change change.now) (plain_option content.old)) }
    ensures err { OnErr result (plain_option content.new ≡ plain_option content.old) }
    ensures kept { CreatesWithin (plain_change change.now)
        → KeepsLimits (plain_option content.new) }
{
    match content {
        Some(present) => alter_present(heap, present, change),
        None => alter_absent(heap, content, change),
    }
}

#[inline(always)]
fn alter_present(
    heap: Heap,
    content: &mut Content,
    change: &Change,
) -> Result<Option<Signal>, OutOfMemory>
    requires limits { KeepsLimits (Some (plain_content content.old)) }
    requires gives_none { gives_value (plain_change change.now) ≡ false }
    ensures ok { IfOk result (λ refusal. (Some (plain_content content.new), done_or refusal)
        ≡ outcome (plain_change change.now) (Some (plain_content content.old))) }
    ensures err { OnErr result (plain_content content.new ≡ plain_content content.old) }
{
    match *content {
        Content::Rec(ref mut fields) => alter_record(heap, fields, change),
        Content::Arr { low, ref mut items } => {
            let mut bound = low;
            let answer = alter_array(heap, &mut bound, items, change);
            put_low(content, bound);
            answer
        }
        Content::Var {
            ref mut tag,
            ref mut value,
        } => alter_variant(heap, tag, value, change),
    }
}

// A pattern can't borrow both the low bound and the items, so the bound is put back separately.
#[inline(always)]
pub(crate) fn put_low(content: &mut Content, bound: i64)
    ensures { plain_content content.new ≡ with_low bound (plain_content content.old) }
{
    match content {
        Content::Arr { low, items: _ } => *low = bound,
        Content::Rec(_) | Content::Var { tag: _, value: _ } => {}
    }
}

// An object is created once, and changed often.
#[cold]
#[inline(never)]
fn alter_absent(
    heap: Heap,
    content: &mut Option<Content>,
    change: &Change,
) -> Result<Option<Signal>, OutOfMemory>
    requires { plain_option content.old ≡ None }
    ensures ok { IfOk result (λ refusal. (plain_option content.new, done_or refusal)
        ≡ absent_outcome (plain_change change.now)) }
    ensures err { OnErr result (plain_option content.new ≡ plain_option content.old) }
{
    match change {
        Change::Create(made) => {
            *content = Some(made.duplicate(heap)?);
            Ok(None)
        }
        Change::Touch => Ok(None),
        Change::SetField(_, _)
        | Change::Store(_, _)
        | Change::Addh(_)
        | Change::Addl(_)
        | Change::Remh
        | Change::Reml
        | Change::SetLow(_)
        | Change::Trim(_, _)
        | Change::ChangeTag(_, _) => Ok(Some(Signal::Absent)),
    }
}

fn alter_record(
    heap: Heap,
    fields: &mut Vec<Value, Room>,
    change: &Change,
) -> Result<Option<Signal>, OutOfMemory>
    ensures ok { IfOk result (λ refusal. (Some (rec (plain_list fields.new.items)), done_or refusal)
        ≡ record_outcome (plain_change change.now) (plain_list fields.old.items)) }
    ensures err { OnErr result (fields.new.items ≡ fields.old.items) }
{
    match change {
        Change::SetField(field, value) => set_field(heap, fields, *field, value),
        Change::Touch => Ok(None),
        Change::Create(_) => Ok(Some(Signal::Exists)),
        Change::Store(_, _)
        | Change::Addh(_)
        | Change::Addl(_)
        | Change::Remh
        | Change::Reml
        | Change::SetLow(_)
        | Change::Trim(_, _)
        | Change::ChangeTag(_, _) => Ok(Some(Signal::Absent)),
    }
}

#[inline(always)]
fn set_field(
    heap: Heap,
    fields: &mut Vec<Value, Room>,
    field: u8,
    value: &Value,
) -> Result<Option<Signal>, OutOfMemory>
    ensures ok { IfOk result (λ refusal. (Some (rec (plain_list fields.new.items)), done_or refusal)
        ≡ set_in field (plain_value value.now) (plain_list fields.old.items)) }
    ensures err { OnErr result (fields.new.items ≡ fields.old.items) }
{
    let at = field as usize;
    if at >= fields.len() {
        return Ok(Some(Signal::Absent));
    }
    put(heap, &mut fields[at], value)?;
    Ok(None)
}

fn alter_array(
    heap: Heap,
    low: &mut i64,
    items: &mut VecDeque<Value, Room>,
    change: &Change,
) -> Result<Option<Signal>, OutOfMemory>
    requires bounds { KeepsBounds low.old (length items.old.items) }
    requires gives_none { gives_value (plain_change change.now) ≡ false }
    ensures ok { IfOk result (λ refusal. LeavesOr (plain_change change.now)
        low.old items.old.items low.new items.new.items refusal) }
    ensures err_low { OnErr result (low.new ≡ low.old) }
    ensures err_items { OnErr result (items.new.items ≡ items.old.items) }
{
    match change {
        Change::Store(index, value) => store_item(heap, *low, items, *index, value),
        Change::Touch => Ok(None),
        Change::Create(_) => Ok(Some(Signal::Exists)),
        Change::Addh(value) => add_high(heap, *low, items, value),
        Change::Addl(value) => add_low(heap, low, items, value),
        // Not reached, since these return a value.
        Change::Remh | Change::Reml => Ok(None),
        Change::SetLow(bound) => Ok(move_low(low, items, *bound)),
        Change::Trim(from, count) => Ok(trim(low, items, *from, *count)),
        Change::SetField(_, _) | Change::ChangeTag(_, _) => Ok(Some(Signal::Absent)),
    }
}

#[inline(always)]
fn store_item(
    heap: Heap,
    low: i64,
    items: &mut VecDeque<Value, Room>,
    index: i64,
    value: &Value,
) -> Result<Option<Signal>, OutOfMemory>
    requires { KeepsBounds low (length items.old.items) }
    ensures ok { IfOk result (λ refusal. LeavesOr (store index (plain_value value.now))
        low items.old.items low items.new.items refusal) }
    ensures err { OnErr result (items.new.items ≡ items.old.items) }
{
    match place_in(low, items.len(), index) {
        None => Ok(Some(Signal::Bounds)),
        Some(place) => {
            put(heap, &mut items[place], value)?;
            Ok(None)
        }
    }
}

fn add_high(
    heap: Heap,
    low: i64,
    items: &mut VecDeque<Value, Room>,
    value: &Value,
) -> Result<Option<Signal>, OutOfMemory>
    requires { KeepsBounds low (length items.old.items) }
    ensures ok { IfOk result (λ refusal. LeavesOr (addh (plain_value value.now))
        low items.old.items low items.new.items refusal) }
    ensures err { OnErr result (items.new.items ≡ items.old.items) }
{
    if is_full_high(low, items.len()) {
        return Ok(Some(Signal::Limits));
    }
    items.push_back(value.duplicate(heap)?)?;
    Ok(None)
}

fn add_low(
    heap: Heap,
    low: &mut i64,
    items: &mut VecDeque<Value, Room>,
    value: &Value,
) -> Result<Option<Signal>, OutOfMemory>
    requires { KeepsBounds low.old (length items.old.items) }
    ensures ok { IfOk result (λ refusal. LeavesOr (addl (plain_value value.now))
        low.old items.old.items low.new items.new.items refusal) }
    ensures err_low { OnErr result (low.new ≡ low.old) }
    ensures err_items { OnErr result (items.new.items ≡ items.old.items) }
{
    if is_full_low(*low, items.len()) {
        return Ok(Some(Signal::Limits));
    }
    items.push_front(value.duplicate(heap)?)?;
    *low -= 1;
    Ok(None)
}

fn move_low(low: &mut i64, items: &VecDeque<Value, Room>, bound: i64) -> Option<Signal>
    requires { KeepsBounds low.old (length items.now.items) }
    ensures { LeavesOr (set_low bound) low.old items.now.items low.new items.now.items result }
{
    if is_out_of_limits(bound, items.len()) {
        return Some(Signal::Limits);
    }
    *low = bound;
    None
}

// A trim is rare. Its refusal is computed twice, so that what it leaves is written down once.
#[cold]
#[inline(never)]
fn trim(low: &mut i64, items: &mut VecDeque<Value, Room>, from: i64, count: i64) -> Option<Signal>
    requires { KeepsBounds low.old (length items.old.items) }
    ensures { LeavesOr (trim from count) low.old items.old.items low.new items.new.items result }
{
    let refusal = trim_refusal(*low, items.len(), from, count);
    if refusal.is_none() {
        let _ = trim_items(low, items, from, count);
    }
    refusal
}

fn alter_variant(
    heap: Heap,
    tag: &mut u8,
    value: &mut Value,
    change: &Change,
) -> Result<Option<Signal>, OutOfMemory>
    ensures ok { IfOk result (λ refusal. (
      Some (var tag.new (plain_value value.new)),
      done_or refusal,
    ) ≡ variant_outcome (plain_change change.now)
        tag.old (plain_value value.old)) }
    ensures err_tag { OnErr result (tag.new ≡ tag.old) }
    ensures err_value { OnErr result (value.new ≡ value.old) }
{
    match change {
        Change::ChangeTag(new_tag, new_value) => {
            put(heap, value, new_value)?;
            *tag = *new_tag;
            Ok(None)
        }
        Change::Touch => Ok(None),
        Change::Create(_) => Ok(Some(Signal::Exists)),
        Change::SetField(_, _)
        | Change::Store(_, _)
        | Change::Addh(_)
        | Change::Addl(_)
        | Change::Remh
        | Change::Reml
        | Change::SetLow(_)
        | Change::Trim(_, _) => Ok(Some(Signal::Absent)),
    }
}

// Replaces a value by a copy of another. An integer over an integer is one store: no call, nothing
// dropped.
#[inline(always)]
fn put(heap: Heap, place: &mut Value, value: &Value) -> Result<(), OutOfMemory>
    ensures ok { OnOk result (plain_value place.new ≡ plain_value value.now) }
    ensures err { OnErr result (place.new ≡ place.old) }
{
    if let Value::Int(new) = value
        && let Value::Int(old) = place
    {
        *old = *new;
        return Ok(());
    }
    put_copy(heap, place, value)
}

#[inline(never)]
fn put_copy(heap: Heap, place: &mut Value, value: &Value) -> Result<(), OutOfMemory>
    ensures ok { OnOk result (plain_value place.new ≡ plain_value value.now) }
    ensures err { OnErr result (place.new ≡ place.old) }
{
    *place = value.duplicate(heap)?;
    Ok(())
}
