//! `TextFault`: what is wrong with the first line of a text that isn't a journal's listing.

use argus_guardian::LineFault;

/// What is wrong with the first line of a text that isn't a journal's listing.
///
/// ```text
/// match fault.fault {
///     TextFault::Torn => ..,                      // the text ends in the middle of the line
///     TextFault::Line(line) => ..,
/// }
/// ```
#[derive(Debug, Drop)]
pub enum TextFault {
    /// The text ends in the middle of the line: it has no line feed.
    Torn,
    /// The line isn't the next one of the listing.
    Line(LineFault),
}
