//! Cuts a script into lines, and a line's ends off.

ghost use Rattle.std.specs.Prelude.{◌≡◌, ◌∷◌, ◌<◌, ◌≤◌, length, take, drop};
ghost use Rattle.argus_language.specs.Lines.{before_blanks, behind_blanks, ended, is_blank};
ghost use Rattle.argus_language.specs.Lines.{lines_of, without_last};

/// The length of the first line, with its line feed.
pub(crate) fn first_line_len(bytes: &[u8]) -> usize
    requires { 0 < length bytes.now }
    ensures some { 0 < result }
    ensures within { result ≤ length bytes.now }
    ensures line { lines_of bytes.now ≡ take result bytes.now ∷ lines_of (drop result bytes.now) }
{
    for i in 0..bytes.len() {
        if bytes[i] == b'\n' {
            return i + 1;
        }
    }
    bytes.len()
}

/// The line without its line feed and a carriage return before it.
pub(crate) fn without_end(line: &[u8]) -> &[u8]
    ensures cut { result.now ≡ ended line.now }
    ensures within { length result.now ≤ length line.now }
{
    without_byte(without_byte(line, b'\n'), b'\r')
}

fn without_byte(bytes: &[u8], byte: u8) -> &[u8]
    ensures cut { result.now ≡ without_last byte bytes.now }
    ensures within { length result.now ≤ length bytes.now }
{
    if bytes.len() > 0 && bytes[bytes.len() - 1] == byte {
        return &bytes[..bytes.len() - 1];
    }
    bytes
}

/// The bytes without blanks at their ends.
pub(crate) fn trimmed(bytes: &[u8]) -> &[u8]
    ensures { result.now ≡ before_blanks (behind_blanks bytes.now) }
{
    without_blanks_behind(without_blanks_before(bytes))
}

fn without_blanks_before(bytes: &[u8]) -> &[u8]
    ensures { result.now ≡ behind_blanks bytes.now }
{
    let mut rest = bytes;
    while let Some((first, others)) = rest.split_first() {
        if !may_part_words(*first) {
            return rest;
        }
        rest = others;
    }
    rest
}

fn without_blanks_behind(bytes: &[u8]) -> &[u8]
    ensures { result.now ≡ before_blanks bytes.now }
{
    let mut rest = bytes;
    while let Some((last, others)) = rest.split_last() {
        if !may_part_words(*last) {
            return rest;
        }
        rest = others;
    }
    rest
}

/// Whether the byte is a blank: a space or a tab.
pub(crate) fn may_part_words(byte: u8) -> bool
    ensures { result ≡ is_blank byte }
{
    byte == b' ' || byte == b'\t'
}
