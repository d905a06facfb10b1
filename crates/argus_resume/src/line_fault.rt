//! `LineFault`: why a line is not the next one of a journal's listing.

use argus_entries::Reply;
use thiserror::Error;

/// Why a line isn't the next one of a journal's listing. If several apply, the first in this order
/// is returned.
///
/// ```text
/// match resuming.take_line(b"0 begin_top -> a1") {
///     Err(LineError::Fault(LineFault::NotTheReply(reply))) => ..,     // Begun(ActionId(0))
///     ..
/// }
/// ```
#[derive(Debug, Drop, Error)]
pub enum LineFault {
    /// The line isn't UTF-8: `at` is the length in bytes of its longest prefix that is.
    #[error("no text from byte {at} on")]
    NoText { at: usize },
    /// The line begins like one of an opening, and can't be its next one. What follows `opening `
    /// isn't the text of such a line (a value there has a depth of at most 16), an object comes
    /// before the first line, a first line comes again, entries came before it, its number isn't
    /// the next one, a number is above its limit, no entry went before the opening, a shape can't
    /// be made, or a content wouldn't fit its shape however many objects there were.
    #[error("not a line of the opening")]
    NotAnOpening,
    /// The line isn't that of an entry. `at` is the length in bytes of its longest prefix that
    /// begins one, or, in a declaration, of what comes before a shape that can't be made.
    #[error("no entry from byte {at} on")]
    NoLine { at: usize },
    /// It is the line of an entry, but with another number than the next one.
    #[error("not the next number")]
    NotNext,
    /// It is the next entry's line, but a content of the opening before it refers to an object that
    /// isn't there.
    #[error("the opening refers to objects that aren't there")]
    NotSound,
    /// It is the next entry's line, but this other reply to its call follows from the journal
    /// before it.
    #[error("not the reply of the journal before it")]
    NotTheReply(Reply),
}
