//! The change at the front of a text.

ghost use Rattle.std.specs.Prelude.{IfErr, IfOk};
ghost use Rattle.argus_contents.specs.Change.{plain_change};
ghost use Rattle.argus_reading.specs.Operations.{Changes, DoubleChanges, SingleChanges};
ghost use Rattle.argus_reading.specs.Operations.{WordChanges};
ghost use Rattle.argus_texts.specs.Language.{OnLeft, Reads, Stops};

use crate::choosing::farther;
use crate::part_reading::{
    byte_and_value, content_behind, int_and_value, int_behind, two_ints, value_behind,
};
use argus_contents::Change;
use argus_memory::Heap;
use argus_texts::front::{Stop, word};

/// The change at the front, and what comes after it.
pub(crate) fn change(heap: Heap, text: &str) -> Result<(Change, &str), Stop>
    ensures read { IfOk result (λ r. Reads Changes text.now (plain_change r.0) r.1.now) }
    ensures stops { IfErr result
        (λ e. OnLeft e (λ left. Stops Changes text.now left)) }
{
    let worded = match word_change(text) {
        Ok(read) => return Ok(read),
        Err(stop) => stop,
    };
    let single = match single_change(heap, text) {
        Ok(read) => return Ok(read),
        Err(stop) => stop,
    };
    let double = match double_change(heap, text) {
        Ok(read) => return Ok(read),
        Err(stop) => stop,
    };
    Err(farther(worded, farther(single, double)))
}

/// A change that is one word.
fn word_change(text: &str) -> Result<(Change, &str), Stop>
    ensures read { IfOk result (λ r. Reads Changes text.now (plain_change r.0) r.1.now) }
    ensures stops { IfErr result
        (λ e. OnLeft e (λ left. Stops WordChanges text.now left)) }
{
    let remh = match word(text, "remh") {
        Ok(rest) => return Ok((Change::Remh, rest)),
        Err(stop) => stop,
    };
    let reml = match word(text, "reml") {
        Ok(rest) => return Ok((Change::Reml, rest)),
        Err(stop) => stop,
    };
    let touch = match word(text, "touch") {
        Ok(rest) => return Ok((Change::Touch, rest)),
        Err(stop) => stop,
    };
    Err(farther(remh, farther(reml, touch)))
}

/// A change with one argument.
fn single_change(heap: Heap, text: &str) -> Result<(Change, &str), Stop>
    ensures read { IfOk result (λ r. Reads Changes text.now (plain_change r.0) r.1.now) }
    ensures stops { IfErr result
        (λ e. OnLeft e (λ left. Stops SingleChanges text.now left)) }
{
    let create = match content_behind(heap, text, "create ") {
        Ok((content, rest)) => return Ok((Change::create(heap, content)?, rest)),
        Err(stop) => stop,
    };
    let addh = match value_behind(heap, text, "addh ") {
        Ok((value, rest)) => return Ok((Change::Addh(value), rest)),
        Err(stop) => stop,
    };
    let addl = match value_behind(heap, text, "addl ") {
        Ok((value, rest)) => return Ok((Change::Addl(value), rest)),
        Err(stop) => stop,
    };
    let set_low = match int_behind(text, "set_low ") {
        Ok((bound, rest)) => return Ok((Change::SetLow(bound), rest)),
        Err(stop) => stop,
    };
    Err(farther(create, farther(addh, farther(addl, set_low))))
}

/// A change with two arguments.
fn double_change(heap: Heap, text: &str) -> Result<(Change, &str), Stop>
    ensures read { IfOk result (λ r. Reads Changes text.now (plain_change r.0) r.1.now) }
    ensures stops { IfErr result
        (λ e. OnLeft e (λ left. Stops DoubleChanges text.now left)) }
{
    let set_field = match byte_and_value(heap, text, "set_field ") {
        Ok((field, value, rest)) => return Ok((Change::SetField(field, value), rest)),
        Err(stop) => stop,
    };
    let store = match int_and_value(heap, text, "store ") {
        Ok((index, value, rest)) => return Ok((Change::Store(index, value), rest)),
        Err(stop) => stop,
    };
    let trim = match two_ints(text, "trim ") {
        Ok((from, count, rest)) => return Ok((Change::Trim(from, count), rest)),
        Err(stop) => stop,
    };
    let change_tag = match byte_and_value(heap, text, "change_tag ") {
        Ok((tag, value, rest)) => return Ok((Change::ChangeTag(tag, value), rest)),
        Err(stop) => stop,
    };
    Err(farther(set_field, farther(store, farther(trim, change_tag))))
}
