//! Words of a line: the first one, and what comes after it.

ghost use Rattle.std.specs.Prelude.{◌≡◌, ◌<◌, ◌≤◌, length, take, drop, slice_index};
ghost use Rattle.argus_language.specs.Lines.{behind_blanks, behind_word, others, word};

use crate::cut::may_part_words;

/// The length of the first word.
pub(crate) fn word_len(bytes: &[u8]) -> usize
    ensures within { result ≤ length bytes.now }
    ensures word { take result bytes.now ≡ word bytes.now }
    ensures behind { drop result bytes.now ≡ behind_word bytes.now }
    ensures ascii { result < length bytes.now → slice_index bytes.now result < 128 }
{
    for i in 0..bytes.len() {
        if may_part_words(bytes[i]) {
            return i;
        }
    }
    bytes.len()
}

/// The first word, and what comes after it and its blanks.
pub(crate) fn split_word(text: &str) -> (&str, &str)
    ensures word { result.0.now ≡ word text.now }
    ensures others { result.1.now ≡ others text.now }
{
    let at = word_len(text.as_bytes());
    (&text[..at], text_behind_blanks(&text[at..]))
}

fn text_behind_blanks(text: &str) -> &str
    ensures { result.now ≡ behind_blanks text.now }
{
    let mut rest = text;
    while let Some(first) = rest.as_bytes().first() {
        if !may_part_words(*first) {
            return rest;
        }
        rest = &rest[1..];
    }
    rest
}
