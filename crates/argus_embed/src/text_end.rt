//! `TextEnd`: why no more lines of a text were taken.

ghost use Rattle.std.specs.Prelude.{◌≡◌};
ghost use Rattle.argus_embed.specs.Codes.{text_end_codes};

use crate::codes::as_number;

/// Why no more lines of a text were taken. The last six say why the line that comes next isn't the
/// next one of a journal's listing, as `LineFault` of argus_guardian does.
///
/// ```text
/// match bank.resume(text).end {
///     TextEnd::Whole | TextEnd::Torn => ..,           // its whole lines were taken
///     TextEnd::NotNext(wanted) => ..,                 // a line is lost: entry `wanted` comes next
///     ..
/// }
/// ```
#[derive(Clone, Copy, Debug)]
pub enum TextEnd {
    /// All of the text was taken.
    Whole,
    /// Bytes are left, and there is no line feed among them.
    Torn,
    /// There was no memory for the next line. The same text goes on from there.
    OutOfMemory,
    /// The line isn't UTF-8: its longest prefix that is has this many bytes.
    NoText(usize),
    /// The line begins as one of an opening, and can't be its next one.
    NotAnOpening,
    /// The line isn't that of an entry: its longest prefix that begins one has this many bytes, or
    /// what comes before a shape that can't be made.
    NoLine(usize),
    /// The line is that of an entry, and another one comes next, which has this number.
    NotNext(u64),
    /// The opening before the line refers to objects that aren't there.
    NotSound,
    /// The line is that of the next entry, but another reply to its call follows from the journal
    /// before it; the text of that one is kept.
    NotTheReply,
}

impl TextEnd {
    /// The status of the C header that it is, and the number that goes with it.
    pub fn codes(self) -> (u32, i64)
        ensures { result ≡ text_end_codes self }
    {
        match self {
            TextEnd::Whole | TextEnd::Torn => (0, 0),
            TextEnd::OutOfMemory => (10, 0),
            TextEnd::NoText(at) => (12, as_number(at as u64)),
            TextEnd::NotAnOpening => (25, 0),
            TextEnd::NoLine(at) => (26, as_number(at as u64)),
            TextEnd::NotNext(wanted) => (27, as_number(wanted)),
            TextEnd::NotSound => (28, 0),
            TextEnd::NotTheReply => (29, 0),
        }
    }
}
