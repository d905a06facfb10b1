//! The text of a text value, from after its opening quote up to its closing one.

ghost use Rattle.std.specs.Prelude.{◌≡◌, ◌<◌, true, false, ◌∷◌, [], ◌++◌, length, IfOk, IfErr};
ghost use Rattle.std.specs.{Prelude.string_bytes, Str.IsUtf8};
ghost use Rattle.argus_texts.specs.{Language.{First, OnLeft, Reads, Stops}, Languages.Quoted};
ghost use Rattle.argus_texts.specs.{Quotes.{IsNoEscape, IsSpecial}, Spelling.{escape, escaped}};

use crate::scan::split_ascii;
use crate::stop::Stop;
use argus_memory::{Heap, Room};

/// The text up to its closing quote, and what comes after that.
pub(crate) fn quoted(heap: Heap, text: &str) -> Result<(String<Room>, &str), Stop>
    ensures read { IfOk result (λ r. Reads Quoted text.now (string_bytes r.0) r.1.now) }
    ensures stops { IfErr result (λ e. OnLeft e (λ left. Stops Quoted text.now left)) }
{
    let mut read = String::new(heap.room());
    let mut rest = text;
    loop {
        let (plain, others) = split_plain(rest);
        read.push_str(plain)?;
        let Some((first, behind)) = split_ascii(others) else {
            return Err(Stop::Left(others.len()));
        };
        if first == b'"' {
            return Ok((read, behind));
        }
        if first != b'\\' {
            return Err(Stop::Left(others.len()));
        }
        let (character, behind) = after_backslash(behind)?;
        read.push_str(character)?;
        rest = behind;
    }
}

/// The character after a backslash, and what comes after it.
fn after_backslash(text: &str) -> Result<(&'static str, &str), Stop>
    ensures read { IfOk result (λ r. 92 ∷ text.now ≡ escaped r.0.now ++ r.1.now) }
    ensures shorter { IfOk result (λ r. (length r.1.now < length text.now) × IsUtf8 r.1.now) }
    ensures stops { IfErr result
        (λ e. OnLeft e (λ left. (left ≡ length text.now) × First IsNoEscape text.now)) }
{
    let Some((first, others)) = split_ascii(text) else {
        return Err(Stop::Left(text.len()));
    };
    if first == b'"' {
        return Ok(("\"", others));
    }
    if first == b'\\' {
        return Ok(("\\", others));
    }
    if first == b'n' {
        return Ok(("\n", others));
    }
    Err(Stop::Left(text.len()))
}

/// The text before the first quote, backslash or line feed, and the rest of it.
pub(crate) fn split_plain(text: &str) -> (&str, &str)
    ensures whole { text.now ≡ result.0.now ++ result.1.now }
    ensures plain { escaped result.0.now ≡ result.0.now }
    ensures special { First IsSpecial result.1.now }
    ensures utf8 { IsUtf8 result.1.now }
{
    let bytes = text.as_bytes();
    let mut at = 0;
    while at < bytes.len() {
        if is_special(bytes[at]) {
            return (&text[..at], &text[at..]);
        }
        at += 1;
    }
    (text, "")
}

fn is_special(byte: u8) -> bool
    ensures yes { result ≡ true → IsSpecial byte }
    ensures no { result ≡ false → escape byte ≡ byte ∷ [] }
{
    byte == b'"' || byte == b'\\' || byte == b'\n'
}
