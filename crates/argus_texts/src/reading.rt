//! `read_value`: the value of a written form.

ghost use Rattle.std.specs.Prelude.{◌≡◌, ◌<◌, ◌≤◌, ◌-◌, true, false, length, IfOk, IfErr};
ghost use Rattle.argus_contents.specs.Value.{listed, plain_list, plain_value};
ghost use Rattle.argus_contents.specs.declared.limits.TheConstants.{MAX_VALUE_DEPTH};
ghost use Rattle.argus_texts.specs.Fault.{IsFault, IsValueText, OnFault};
ghost use Rattle.argus_texts.specs.Language.{First, OnLeft, Reads, Stops};
ghost use Rattle.argus_texts.specs.Languages.{BeginsInt, BeginsNoScalar, Choices, Insides, IsClose};
ghost use Rattle.argus_texts.specs.{Languages.{Items, Values}, Spelling.{Within, spelling}};

use crate::number::{int, number};
use crate::quoted::quoted;
use crate::read_error::ReadError;
use crate::read_fault::ReadFault;
use crate::scan::{expect, split_ascii, strip, word};
use crate::stop::Stop;
use argus_contents::limits::MAX_VALUE_DEPTH;
use argus_contents::{ObjId, Value};
use argus_memory::{Heap, Room};

/// The value whose written form the text is, if its depth is at most 16.
///
/// `Fault` comes exactly if the text isn't such a form, with the length of its longest prefix that
/// begins one. `Memory` may come in place of either other result.
pub fn read_value(heap: Heap, text: &str) -> Result<Value, ReadError>
    ensures read { IfOk result
        (λ v. Within MAX_VALUE_DEPTH (plain_value v) × (text.now ≡ spelling (plain_value v))) }
    ensures fault { IfErr result (λ e. OnFault e (λ at. IsFault IsValueText text.now at)) }
{
    match whole_value(heap, text) {
        Ok(value) => Ok(value),
        Err(Stop::Left(left)) => Err(ReadError::Fault(ReadFault {
            at: text.len() - left,
        })),
        Err(Stop::Memory) => Err(ReadError::Memory),
    }
}

fn whole_value(heap: Heap, text: &str) -> Result<Value, Stop>
    ensures read { IfOk result
        (λ v. Within MAX_VALUE_DEPTH (plain_value v) × (text.now ≡ spelling (plain_value v))) }
    ensures stops { IfErr result
        (λ e. OnLeft e
        (λ left. (left ≤ length text.now)
        × IsFault IsValueText text.now (length text.now - left))) }
{
    let (value, rest) = one_value(heap, text, MAX_VALUE_DEPTH)?;
    if rest.len() > 0 {
        return Err(Stop::Left(rest.len()));
    }
    Ok(value)
}

/// The value at the front, of a depth of at most `levels`, and what comes after it.
///
/// `Left`: the text stops being the beginning of such a value where so many bytes are left.
/// `Memory`: there was none for its parts.
///
/// Condition: `levels` is at least 1.
#[cycle(reading)]
pub fn one_value(heap: Heap, text: &str, levels: usize) -> Result<(Value, &str), Stop>
    requires { 0 < levels }
    ensures read { IfOk result (λ r. Reads (Values levels) text.now (plain_value r.0) r.1.now) }
    ensures stops { IfErr result (λ e. OnLeft e (λ left. Stops (Values levels) text.now left)) }
{
    let Some((first, others)) = split_ascii(text) else {
        return Err(Stop::Left(text.len()));
    };
    if first == b'n' {
        let rest = word(others, "ull")?;
        return Ok((Value::Null, rest));
    }
    if first == b't' {
        let rest = word(others, "rue")?;
        return Ok((Value::Bool(true), rest));
    }
    if first == b'f' {
        let rest = word(others, "alse")?;
        return Ok((Value::Bool(false), rest));
    }
    if first == b'"' {
        let (read, rest) = quoted(heap, others)?;
        return Ok((Value::text(heap, read)?, rest));
    }
    if first == b'@' {
        let (object, rest) = number(others, 0, 4_294_967_295)?;
        return Ok((Value::Atomic(ObjId(object as u32)), rest));
    }
    if begins_int(first) {
        let (number, rest) = int(text)?;
        return Ok((Value::Int(number), rest));
    }
    compound(heap, text, levels)
}

fn begins_int(byte: u8) -> bool
    ensures yes { result ≡ true → BeginsInt byte }
    ensures no { result ≡ false → BeginsInt byte → ⊥ }
{
    matches!(byte, b'-' | b'0'..=b'9')
}

/// The value at the front, which doesn't begin as a scalar does, and what comes after it.
#[cycle(reading)]
fn compound(heap: Heap, text: &str, levels: usize) -> Result<(Value, &str), Stop>
    requires { (0 < levels) × First BeginsNoScalar text.now }
    ensures read { IfOk result (λ r. Reads (Values levels) text.now (plain_value r.0) r.1.now) }
    ensures stops { IfErr result (λ e. OnLeft e (λ left. Stops (Values levels) text.now left)) }
{
    let Some((first, others)) = split_ascii(text) else {
        return Err(Stop::Left(text.len()));
    };
    if first == b'[' {
        let (items, rest) = inside(heap, others, levels - 1, b']')?;
        return Ok((Value::sequence(heap, items)?, rest));
    }
    if first == b'{' {
        let (fields, rest) = inside(heap, others, levels - 1, b'}')?;
        return Ok((Value::fields(heap, fields)?, rest));
    }
    if first != b'<' {
        return Err(Stop::Left(text.len()));
    }
    if levels == 1 {
        return Err(Stop::Left(text.len()));
    }
    let (tag, part, rest) = choice(heap, others, levels - 1)?;
    Ok((Value::choice(heap, tag, part)?, rest))
}

/// The tag and the value after an opening angle, and what comes after the closing one.
#[cycle(reading)]
pub(crate) fn choice(heap: Heap, text: &str, levels: usize) -> Result<(u8, Value, &str), Stop>
    requires { 0 < levels }
    ensures read { IfOk result
        (λ r. Reads (Choices levels) text.now (r.0, (plain_value r.1, tt)) r.2.now) }
    ensures stops { IfErr result (λ e. OnLeft e (λ left. Stops (Choices levels) text.now left)) }
{
    let (tag, rest) = number(text, 0, 255)?;
    let rest = expect(rest, b':')?;
    let (part, rest) = one_value(heap, rest, levels)?;
    let rest = expect(rest, b'>')?;
    Ok((tag as u8, part, rest))
}

/// The values before the closing byte, and what comes after that.
#[cycle(reading)]
pub(crate) fn inside(
    heap: Heap,
    text: &str,
    levels: usize,
    close: u8,
) -> Result<(Vec<Value, Room>, &str), Stop>
    requires { IsClose close }
    ensures read { IfOk result
        (λ r. Reads (Insides close levels) text.now (listed (plain_list r.0.items)) r.1.now) }
    ensures stops { IfErr result
        (λ e. OnLeft e (λ left. Stops (Insides close levels) text.now left)) }
{
    let Some(others) = strip(text, close) else {
        if levels == 0 {
            return Err(Stop::Left(text.len()));
        }
        return items(heap, text, levels, close);
    };
    Ok((Vec::new(heap.room()), others))
}

/// The values from the first on, up to the closing byte, and what comes after that.
#[cycle(reading)]
fn items(heap: Heap, text: &str, levels: usize, close: u8) -> Result<(Vec<Value, Room>, &str), Stop>
    requires { (0 < levels) × IsClose close }
    ensures read { IfOk result
        (λ r. Reads (Insides close levels) text.now (listed (plain_list r.0.items)) r.1.now) }
    ensures stops { IfErr result
        (λ e. OnLeft e (λ left. Stops (Items close levels) text.now left)) }
{
    let mut items = Vec::new(heap.room());
    let mut rest = text;
    loop {
        let (item, behind) = one_value(heap, rest, levels)?;
        items.push(item)?;
        let Some((first, others)) = split_ascii(behind) else {
            return Err(Stop::Left(behind.len()));
        };
        if first == close {
            return Ok((items, others));
        }
        if first != b',' {
            return Err(Stop::Left(behind.len()));
        }
        rest = others;
    }
}
