//! The front of a text: its first byte, one byte that must come, a word that must come.

ghost use Rattle.std.specs.Prelude.{◌≡◌, true, nat_lt, ◌<◌, ◌≤◌, ◌∷◌, ◌++◌, length, IfOk, IfErr};
ghost use Rattle.std.specs.{Prelude.{IfSome, IfNone, ◌≢◌}, List.list_all, Str.IsUtf8};
ghost use Rattle.argus_texts.specs.{Language.{First, IsNot, OnLeft, Starts, Stops}, Languages.Word};
ghost use Rattle.argus_texts.specs.declared.stop.Stop.TheVariants as stop;

use crate::stop::Stop;

/// The first byte, and what comes after it. `None` at the end, and if the next byte isn't ASCII.
pub(crate) fn split_ascii(text: &str) -> Option<(u8, &str)>
    ensures some { IfSome result (λ r. (text.now ≡ r.0 ∷ r.1.now) × (r.0 < 128)) }
    ensures utf8 { IfSome result (λ r. IsUtf8 r.1.now) }
    ensures none { IfNone result (First (λ c. 128 ≤ c) text.now) }
{
    let Some((first, _)) = text.as_bytes().split_first() else {
        return None;
    };
    if *first >= 128 {
        return None;
    }
    Some((*first, &text[1..]))
}

/// What comes after the byte, if it is next.
pub(crate) fn strip(text: &str, wanted: u8) -> Option<&str>
    requires { wanted < 128 }
    ensures some { IfSome result (λ rest. text.now ≡ wanted ∷ rest.now) }
    ensures none { IfNone result (IsNot wanted text.now) }
{
    let Some((first, others)) = split_ascii(text) else {
        return None;
    };
    if first != wanted {
        return None;
    }
    Some(others)
}

/// What comes after the byte, which is ASCII and must be next.
///
/// `Left`: another byte is next, or none; all of the text is left. It takes no memory.
pub fn expect(text: &str, wanted: u8) -> Result<&str, Stop>
    requires { wanted < 128 }
    ensures read { IfOk result (λ rest. text.now ≡ wanted ∷ rest.now) }
    ensures stops { IfErr result
        (λ e. OnLeft e (λ left. (left ≡ length text.now) × IsNot wanted text.now)) }
    ensures no_memory { IfErr result (λ e. e ≢ stop.Memory) }
{
    match strip(text, wanted) {
        Some(rest) => Ok(rest),
        None => Err(Stop::Left(text.len())),
    }
}

/// What comes after the word, if it is next.
pub(crate) fn strip_word<'a>(text: &'a str, word: &str) -> Option<&'a str>
    ensures some { IfSome result (λ rest. text.now ≡ word.now ++ rest.now) }
    ensures none { IfNone result (Starts (Word word.now) text.now → ⊥) }
{
    text.strip_prefix(word)
}

/// What comes after the word, which is ASCII and must be next.
///
/// `Left`: the text stops being the beginning of the word where so many bytes are left. It takes no
/// memory.
pub fn word<'a>(text: &'a str, word: &str) -> Result<&'a str, Stop>
    requires { list_all (λ b. nat_lt b 128) word.now ≡ true }
    ensures read { IfOk result (λ rest. text.now ≡ word.now ++ rest.now) }
    ensures stops { IfErr result (λ e. OnLeft e (λ left. Stops (Word word.now) text.now left)) }
    ensures no_memory { IfErr result (λ e. e ≢ stop.Memory) }
{
    let mut rest = text;
    for byte in word.as_bytes() {
        let Some((first, others)) = split_ascii(rest) else {
            return Err(Stop::Left(rest.len()));
        };
        if first != *byte {
            return Err(Stop::Left(rest.len()));
        }
        rest = others;
    }
    Ok(rest)
}
