//! Why an array can't be changed, and what a trim leaves.

ghost use Rattle.std.specs.Prelude.{◌≡◌, ◌≤◌, length, drop};
ghost use Rattle.argus_contents.specs.Change.{is_full_high, is_full_low, is_out_of_limits, Leaves};
ghost use Rattle.argus_contents.specs.{Change.{trim, trim_refusal}, Content.KeepsBounds};
ghost use Rattle.argus_contents.specs.declared.limits.TheConstants.{MAX_ITEMS};

use crate::answer::Answer;
use crate::limits::{MAX_BOUND, MAX_ITEMS, MIN_BOUND};
use crate::signal::Signal;
use crate::value::Value;
use argus_memory::Room;
use std::collections::VecDeque;

/// Whether no value can be added at the high end.
pub(crate) fn is_full_high(low: i64, size: usize) -> bool
    requires { KeepsBounds low size }
    ensures { result ≡ is_full_high low size }
{
    size >= MAX_ITEMS || low + size as i64 > MAX_BOUND
}

/// Whether no value can be added at the low end.
pub(crate) fn is_full_low(low: i64, size: usize) -> bool
    ensures { result ≡ is_full_low low size }
{
    size >= MAX_ITEMS || low == MIN_BOUND
}

/// Whether no array of this many items may begin at this bound.
pub(crate) fn is_out_of_limits(bound: i64, size: usize) -> bool
    requires { size ≤ MAX_ITEMS }
    ensures { result ≡ is_out_of_limits bound size }
{
    bound < MIN_BOUND || bound > MAX_BOUND || bound + size as i64 - 1 > MAX_BOUND
}

/// Why such a trim is refused, if it is.
pub(crate) fn trim_refusal(low: i64, size: usize, from: i64, count: i64) -> Option<Signal>
    requires { KeepsBounds low size }
    ensures { result ≡ trim_refusal from count low size }
{
    if count < 0 {
        return Some(Signal::NegativeSize);
    }
    if from < low || from > low + size as i64 {
        return Some(Signal::Bounds);
    }
    if from > MAX_BOUND {
        return Some(Signal::Limits);
    }
    None
}

pub(crate) fn trim_items(
    low: &mut i64,
    items: &mut VecDeque<Value, Room>,
    from: i64,
    count: i64,
) -> Answer
    requires { KeepsBounds low.old (length items.old.items) }
    ensures { Leaves (trim from count) low.old items.old.items low.new items.new.items result }
{
    if let Some(why) = trim_refusal(*low, items.len(), from, count) {
        return Answer::Signal(why);
    }
    drop_first(items, from.abs_diff(*low) as usize);
    items.truncate(count.unsigned_abs() as usize);
    *low = from;
    Answer::Done
}

// What comes before the place leaves.
fn drop_first(items: &mut VecDeque<Value, Room>, place: usize)
    requires { place ≤ length items.old.items }
    ensures { items.new.items ≡ drop place items.old.items }
{
    let _ = items.drain(..place);
}
