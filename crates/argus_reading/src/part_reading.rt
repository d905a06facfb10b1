//! Parts of a line that come after a word: numbers, values, an action and an object.

ghost use Rattle.std.specs.{Prelude.{◌≡◌, ◌≤◌, true, nat_lt, IfErr, IfOk}, List.list_all};
ghost use Rattle.argus_contents.specs.{Content.plain_content, Value.plain_value};
ghost use Rattle.argus_contents.specs.declared.limits.TheConstants.{MAX_VALUE_DEPTH};
ghost use Rattle.argus_reading.specs.{Calls.Places, Combined.Worded};
ghost use Rattle.argus_reading.specs.Operations.{ByteAndValue, Bytes, Ids, IntAndValue, TwoInts};
ghost use Rattle.argus_texts.specs.Language.{OnLeft, Reads, Stops};
ghost use Rattle.argus_texts.specs.Languages.{Contents, Ints, Numbers, Values};

use argus_actions::ActionId;
use argus_contents::limits::MAX_VALUE_DEPTH;
use argus_contents::{Content, ObjId, Value};
use argus_memory::Heap;
use argus_texts::front::{Stop, expect, int, number, one_content, one_value, word};

/// The number after the word, and what comes after it.
fn number_behind<'a>(text: &'a str, before: &str, most: u64) -> Result<(u64, &'a str), Stop>
    requires ascii { list_all (λ b. nat_lt b 128) before.now ≡ true }
    requires wide { 9 ≤ most }
    ensures read { IfOk result
        (λ r. Reads (Worded before.now (Numbers 0 most)) text.now r.0 r.1.now) }
    ensures stops { IfErr result
        (λ e. OnLeft e (λ left. Stops (Worded before.now (Numbers 0 most)) text.now left)) }
{
    let rest = word(text, before)?;
    let (number, rest) = number(rest, 0, most)?;
    Ok((number, rest))
}

/// The number of a field or a tag after the word.
pub(crate) fn byte<'a>(text: &'a str, before: &str) -> Result<(u8, &'a str), Stop>
    requires { list_all (λ b. nat_lt b 128) before.now ≡ true }
    ensures read { IfOk result (λ r. Reads (Worded before.now Bytes) text.now r.0 r.1.now) }
    ensures stops { IfErr result
        (λ e. OnLeft e (λ left. Stops (Worded before.now Bytes) text.now left)) }
{
    let (number, rest) = number_behind(text, before, 255)?;
    Ok((number as u8, rest))
}

/// The number of an action or an object after the word.
pub(crate) fn id<'a>(text: &'a str, before: &str) -> Result<(u32, &'a str), Stop>
    requires { list_all (λ b. nat_lt b 128) before.now ≡ true }
    ensures read { IfOk result (λ r. Reads (Worded before.now Ids) text.now r.0 r.1.now) }
    ensures stops { IfErr result
        (λ e. OnLeft e (λ left. Stops (Worded before.now Ids) text.now left)) }
{
    let (number, rest) = number_behind(text, before, 4_294_967_295)?;
    Ok((number as u32, rest))
}

/// The action after the word and the object after the action.
pub(crate) fn place<'a>(text: &'a str, before: &str) -> Result<(ActionId, ObjId, &'a str), Stop>
    requires { list_all (λ b. nat_lt b 128) before.now ≡ true }
    ensures read { IfOk result
        (λ r. Reads (Places before.now) text.now (r.0.0, r.1.0) r.2.now) }
    ensures stops { IfErr result
        (λ e. OnLeft e (λ left. Stops (Places before.now) text.now left)) }
{
    let (action, rest) = id(text, before)?;
    let rest = expect(rest, b' ')?;
    let (object, rest) = id(rest, "o")?;
    Ok((ActionId(action), ObjId(object), rest))
}

/// The integer after the word.
pub(crate) fn int_behind<'a>(text: &'a str, before: &str) -> Result<(i64, &'a str), Stop>
    requires { list_all (λ b. nat_lt b 128) before.now ≡ true }
    ensures read { IfOk result (λ r. Reads (Worded before.now Ints) text.now r.0 r.1.now) }
    ensures stops { IfErr result
        (λ e. OnLeft e (λ left. Stops (Worded before.now Ints) text.now left)) }
{
    let rest = word(text, before)?;
    let (number, rest) = int(rest)?;
    Ok((number, rest))
}

/// The value after the word.
pub(crate) fn value_behind<'a>(
    heap: Heap,
    text: &'a str,
    before: &str,
) -> Result<(Value, &'a str), Stop>
    requires { list_all (λ b. nat_lt b 128) before.now ≡ true }
    ensures read { IfOk result
        (λ r. Reads (Worded before.now (Values MAX_VALUE_DEPTH)) text.now (plain_value r.0)
        r.1.now) }
    ensures stops { IfErr result
        (λ e. OnLeft e
        (λ left. Stops (Worded before.now (Values MAX_VALUE_DEPTH)) text.now left)) }
{
    let rest = word(text, before)?;
    let (value, rest) = one_value(heap, rest, MAX_VALUE_DEPTH)?;
    Ok((value, rest))
}

/// The content after the word.
pub(crate) fn content_behind<'a>(
    heap: Heap,
    text: &'a str,
    before: &str,
) -> Result<(Content, &'a str), Stop>
    requires { list_all (λ b. nat_lt b 128) before.now ≡ true }
    ensures read { IfOk result
        (λ r. Reads (Worded before.now (Contents MAX_VALUE_DEPTH)) text.now (plain_content r.0)
        r.1.now) }
    ensures stops { IfErr result
        (λ e. OnLeft e
        (λ left. Stops (Worded before.now (Contents MAX_VALUE_DEPTH)) text.now left)) }
{
    let rest = word(text, before)?;
    let (content, rest) = one_content(heap, rest)?;
    Ok((content, rest))
}

/// The number of a field or a tag after the word, and the value after that.
pub(crate) fn byte_and_value<'a>(
    heap: Heap,
    text: &'a str,
    before: &str,
) -> Result<(u8, Value, &'a str), Stop>
    requires { list_all (λ b. nat_lt b 128) before.now ≡ true }
    ensures read { IfOk result
        (λ r. Reads (ByteAndValue before.now) text.now (r.0, plain_value r.1) r.2.now) }
    ensures stops { IfErr result
        (λ e. OnLeft e (λ left. Stops (ByteAndValue before.now) text.now left)) }
{
    let (number, rest) = byte(text, before)?;
    let rest = expect(rest, b' ')?;
    let (value, rest) = one_value(heap, rest, MAX_VALUE_DEPTH)?;
    Ok((number, value, rest))
}

/// The integer after the word, and the value after that.
pub(crate) fn int_and_value<'a>(
    heap: Heap,
    text: &'a str,
    before: &str,
) -> Result<(i64, Value, &'a str), Stop>
    requires { list_all (λ b. nat_lt b 128) before.now ≡ true }
    ensures read { IfOk result
        (λ r. Reads (IntAndValue before.now) text.now (r.0, plain_value r.1) r.2.now) }
    ensures stops { IfErr result
        (λ e. OnLeft e (λ left. Stops (IntAndValue before.now) text.now left)) }
{
    let (number, rest) = int_behind(text, before)?;
    let rest = expect(rest, b' ')?;
    let (value, rest) = one_value(heap, rest, MAX_VALUE_DEPTH)?;
    Ok((number, value, rest))
}

/// The integer after the word, and the integer after that.
pub(crate) fn two_ints<'a>(text: &'a str, before: &str) -> Result<(i64, i64, &'a str), Stop>
    requires { list_all (λ b. nat_lt b 128) before.now ≡ true }
    ensures read { IfOk result (λ r. Reads (TwoInts before.now) text.now (r.0, r.1) r.2.now) }
    ensures stops { IfErr result
        (λ e. OnLeft e (λ left. Stops (TwoInts before.now) text.now left)) }
{
    let (one, rest) = int_behind(text, before)?;
    let rest = expect(rest, b' ')?;
    let (other, rest) = int(rest)?;
    Ok((one, other, rest))
}
