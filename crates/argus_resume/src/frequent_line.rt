//! `frequent_line`: the line of a frequent entry, read byte by byte.

ghost use Rattle.std.specs.{Fmt.{decimal, signed_decimal}, Int.IsNonNegative};
ghost use Rattle.std.specs.Prelude.{IfSome, ◌+◌, ◌++◌, ◌∷◌, ◌≡◌, ◌≤◌};
ghost use Rattle.argus_contents.specs.declared.limits.TheConstants.{MAX_VALUE_DEPTH};
ghost use Rattle.argus_entries.specs.{Call.plain_call, Laws.ReplyWithin, Reply.plain_reply};
ghost use Rattle.argus_entries.specs.EntrySpelling.{call_spelling, place_spelling, reply_spelling};
ghost use Rattle.argus_reading.specs.Calls.{IsReadableCall};
ghost use Rattle.argus_resume.specs.FrontLine.{HasFrontLine, entry_with};

use crate::frequent_words::{behind_arrow, behind_begin_top, behind_done, behind_set_field};
use argus_actions::ActionId;
use argus_contents::{Answer, Change, ObjId, Query, Value};
use argus_entries::{Call, Reply};

// Above it another digit might not fit.
const MOST_BEFORE_A_DIGIT: u64 = 1_000_000_000_000_000_000;

/// The call and the reply of the line at the front, if it is that of a frequent entry with this
/// number, and what comes after its line feed. `None` says nothing about the text: `read_entry`
/// reads all lines, and says where one stops.
///
/// Most entries of a journal begin or end an action, read a field or set one to a number. Their
/// lines are words and numbers, which are taken byte by byte, without first looking for the line's
/// end or testing for UTF-8.
pub(crate) fn frequent_line(text: &[u8], next: u64) -> Option<(Call, Reply, &[u8])>
    ensures { IfSome result (λ r. HasFrontLine next
        (entry_with (plain_call r.0) (plain_reply r.1)) text.now r.2.now) }
{
    let (number, rest) = number(text)?;
    if number != next {
        return None;
    }
    let [b' ', rest @ ..] = rest else {
        return None;
    };
    let (call, rest) = call(rest)?;
    let (reply, rest) = reply(behind_arrow(rest)?)?;
    let [b'\n', rest @ ..] = rest else {
        return None;
    };
    Some((call, reply, rest))
}

/// A frequent call at the front, and what comes after it.
#[inline(always)]
fn call(text: &[u8]) -> Option<(Call, &[u8])>
    ensures read { IfSome result (λ r. text.now ≡ call_spelling (plain_call r.0) ++ r.1.now) }
    ensures readable { IfSome result (λ r. IsReadableCall (plain_call r.0)) }
{
    if let [b'a', ..] = text {
        return access(text);
    }
    if let [b'c', ..] = text {
        let (a, rest) = id(behind(text, b"commit a")?)?;
        return Some((Call::Commit(ActionId(a)), rest));
    }
    if let Some(rest) = behind_begin_top(text) {
        return Some((Call::BeginTop, rest));
    }
    let (parent, rest) = id(behind(text, b"begin_sub a")?)?;
    Some((Call::BeginSub(ActionId(parent)), rest))
}

/// A query of a field or a change that sets one, or an abort.
#[inline(always)]
fn access(text: &[u8]) -> Option<(Call, &[u8])>
    ensures read { IfSome result (λ r. text.now ≡ call_spelling (plain_call r.0) ++ r.1.now) }
    ensures readable { IfSome result (λ r. IsReadableCall (plain_call r.0)) }
{
    if let Some((a, o, rest)) = place(text, b"alter a") {
        let (field, rest) = byte(behind_set_field(rest)?)?;
        let (n, rest) = int(behind(rest, b" ")?)?;
        let change = Change::SetField(field, Value::Int(n));
        return Some((Call::Alter(a, o, change), rest));
    }
    if let Some((a, o, rest)) = place(text, b"ask a") {
        let (field, rest) = byte(behind(rest, b" field ")?)?;
        return Some((Call::Ask(a, o, Query::Field(field)), rest));
    }
    let (a, rest) = id(behind(text, b"abort a")?)?;
    Some((Call::Abort(ActionId(a)), rest))
}

/// A frequent reply at the front, and what comes after it.
#[inline(always)]
fn reply(text: &[u8]) -> Option<(Reply, &[u8])>
    ensures read { IfSome result (λ r. text.now ≡ reply_spelling (plain_reply r.0) ++ r.1.now) }
    ensures readable { IfSome result (λ r. ReplyWithin MAX_VALUE_DEPTH (plain_reply r.0)) }
{
    if let Some(rest) = behind_done(text) {
        return Some((Reply::Answered(Answer::Done), rest));
    }
    if let [b'a', rest @ ..] = text {
        let (a, rest) = id(rest)?;
        return Some((Reply::Begun(ActionId(a)), rest));
    }
    let (n, rest) = int(behind(text, b"val ")?)?;
    Some((Reply::Answered(Answer::Val(Value::Int(n))), rest))
}

/// The action after the word and the object after the action.
#[inline(always)]
fn place<'a>(text: &'a [u8], word: &[u8]) -> Option<(ActionId, ObjId, &'a [u8])>
    ensures { IfSome result (λ r. text.now ≡ place_spelling word.now r.0.0 r.1.0 ++ r.2.now) }
{
    let (a, rest) = id(behind(text, word)?)?;
    let (o, rest) = id(behind(rest, b" o")?)?;
    Some((ActionId(a), ObjId(o), rest))
}

#[inline(always)]
fn id(text: &[u8]) -> Option<(u32, &[u8])>
    ensures { IfSome result (λ r. text.now ≡ decimal r.0 ++ r.1.now) }
{
    let (number, rest) = number(text)?;
    if number > 4_294_967_295 {
        return None;
    }
    Some((number as u32, rest))
}

#[inline(always)]
fn byte(text: &[u8]) -> Option<(u8, &[u8])>
    ensures { IfSome result (λ r. text.now ≡ decimal r.0 ++ r.1.now) }
{
    let (number, rest) = number(text)?;
    if number > 255 {
        return None;
    }
    Some((number as u8, rest))
}

/// An integer, but for the least one.
#[inline(always)]
fn int(text: &[u8]) -> Option<(i64, &[u8])>
    ensures { IfSome result (λ r. text.now ≡ signed_decimal r.0 ++ r.1.now) }
{
    if let [b'-', rest @ ..] = text {
        let (size, rest) = size(rest)?;
        if size == 0 {
            return None;
        }
        return Some((-size, rest));
    }
    size(text)
}

/// A number without a sign, as an integer.
#[inline(always)]
fn size(text: &[u8]) -> Option<(i64, &[u8])>
    ensures read { IfSome result (λ r. text.now ≡ signed_decimal r.0 ++ r.1.now) }
    ensures positive { IfSome result (λ r. IsNonNegative r.0) }
{
    let (number, rest) = number(text)?;
    if number > 9_223_372_036_854_775_807 {
        return None;
    }
    Some((number as i64, rest))
}

/// The number at the front, and what comes after its digits.
#[inline(always)]
fn number(text: &[u8]) -> Option<(u64, &[u8])>
    ensures { IfSome result (λ r. text.now ≡ decimal r.0 ++ r.1.now) }
{
    let (first, others) = digit(text)?;
    let mut number = u64::from(first);
    let mut rest = others;
    if number == 0 {
        return Some((number, rest));
    }
    while let Some((next, others)) = digit(rest) {
        if number > MOST_BEFORE_A_DIGIT {
            return None;
        }
        number = number * 10 + u64::from(next);
        rest = others;
    }
    Some((number, rest))
}

/// The digit at the front, and what comes after it.
#[inline(always)]
fn digit(text: &[u8]) -> Option<(u8, &[u8])>
    ensures digit { IfSome result (λ r. r.0 ≤ 9) }
    ensures read { IfSome result (λ r. text.now ≡ (48 + r.0) ∷ r.1.now) }
{
    let (first, others) = text.split_first()?;
    if *first < b'0' || *first > b'9' {
        return None;
    }
    Some((*first - b'0', others))
}

/// What comes after the word.
#[inline(always)]
fn behind<'a>(text: &'a [u8], word: &[u8]) -> Option<&'a [u8]>
    ensures { IfSome result (λ rest. text.now ≡ word.now ++ rest.now) }
{
    text.strip_prefix(word)
}
