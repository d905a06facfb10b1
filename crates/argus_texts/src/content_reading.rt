//! `read_content`: the content of a written form.

ghost use Rattle.std.specs.Prelude.{◌≡◌, ◌≤◌, ◌-◌, length, IfOk, IfErr};
ghost use Rattle.argus_contents.specs.Content.{plain_content};
ghost use Rattle.argus_contents.specs.declared.limits.TheConstants.{MAX_VALUE_DEPTH};
ghost use Rattle.argus_texts.specs.ContentSpelling.{PartsWithin, content_spelling};
ghost use Rattle.argus_texts.specs.{Fault.{IsContentText, IsFault, OnFault}, Languages.Contents};
ghost use Rattle.argus_texts.specs.Language.{IsNot, OnLeft, Reads, Stops};
ghost use Rattle.argus_texts.specs.Bytes.{less_than, open_brace};

use crate::number::int;
use crate::read_error::ReadError;
use crate::read_fault::ReadFault;
use crate::reading::{choice, inside};
use crate::scan::{expect, strip};
use crate::stop::Stop;
use argus_contents::Content;
use argus_contents::limits::MAX_VALUE_DEPTH;
use argus_memory::Heap;
use std::collections::VecDeque;

/// The content whose written form the text is, if its values have a depth of at most 16 each.
///
/// `Fault` comes exactly if the text isn't such a form, with the length of its longest prefix that
/// begins one. `Memory` may come in place of either other result.
pub fn read_content(heap: Heap, text: &str) -> Result<Content, ReadError>
    ensures read { IfOk result
        (λ c. PartsWithin MAX_VALUE_DEPTH (plain_content c)
        × (text.now ≡ content_spelling (plain_content c))) }
    ensures fault { IfErr result (λ e. OnFault e (λ at. IsFault IsContentText text.now at)) }
{
    match whole_content(heap, text) {
        Ok(content) => Ok(content),
        Err(Stop::Left(left)) => Err(ReadError::Fault(ReadFault {
            at: text.len() - left,
        })),
        Err(Stop::Memory) => Err(ReadError::Memory),
    }
}

fn whole_content(heap: Heap, text: &str) -> Result<Content, Stop>
    ensures read { IfOk result
        (λ c. PartsWithin MAX_VALUE_DEPTH (plain_content c)
        × (text.now ≡ content_spelling (plain_content c))) }
    ensures stops { IfErr result
        (λ e. OnLeft e
        (λ left. (left ≤ length text.now)
        × IsFault IsContentText text.now (length text.now - left))) }
{
    let (content, rest) = one_content(heap, text)?;
    if rest.len() > 0 {
        return Err(Stop::Left(rest.len()));
    }
    Ok(content)
}

/// The content at the front, whose values have a depth of at most 16, and what comes after it.
///
/// `Left`: the text stops being the beginning of such a content where so many bytes are left.
/// `Memory`: there was none for its parts.
pub fn one_content(heap: Heap, text: &str) -> Result<(Content, &str), Stop>
    ensures read { IfOk result
        (λ r. Reads (Contents MAX_VALUE_DEPTH) text.now (plain_content r.0) r.1.now) }
    ensures stops { IfErr result
        (λ e. OnLeft e (λ left. Stops (Contents MAX_VALUE_DEPTH) text.now left)) }
{
    let Some(others) = strip(text, b'{') else {
        return variant_or_array(heap, text);
    };
    let (fields, rest) = inside(heap, others, MAX_VALUE_DEPTH, b'}')?;
    Ok((Content::Rec(fields), rest))
}

fn variant_or_array(heap: Heap, text: &str) -> Result<(Content, &str), Stop>
    requires { IsNot open_brace text.now }
    ensures read { IfOk result
        (λ r. Reads (Contents MAX_VALUE_DEPTH) text.now (plain_content r.0) r.1.now) }
    ensures stops { IfErr result
        (λ e. OnLeft e (λ left. Stops (Contents MAX_VALUE_DEPTH) text.now left)) }
{
    let Some(others) = strip(text, b'<') else {
        return array(heap, text);
    };
    let (tag, value, rest) = choice(heap, others, MAX_VALUE_DEPTH)?;
    Ok((Content::Var { tag, value }, rest))
}

fn array(heap: Heap, text: &str) -> Result<(Content, &str), Stop>
    requires { IsNot open_brace text.now × IsNot less_than text.now }
    ensures read { IfOk result
        (λ r. Reads (Contents MAX_VALUE_DEPTH) text.now (plain_content r.0) r.1.now) }
    ensures stops { IfErr result
        (λ e. OnLeft e (λ left. Stops (Contents MAX_VALUE_DEPTH) text.now left)) }
{
    let (low, rest) = int(text)?;
    let rest = expect(rest, b'[')?;
    let (items, rest) = inside(heap, rest, MAX_VALUE_DEPTH, b']')?;
    let items = VecDeque::from_vec(items);
    Ok((Content::Arr { low, items }, rest))
}
