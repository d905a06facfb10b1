//! `FaultKind`: why a line is refused.

use thiserror::Error;

/// Why a line is refused. If several apply to a line, the first of the table is returned.
///
/// | Kind | When |
/// |---|---|
/// | `TooLong` | a limit of [`limits`](crate::limits) is passed, at this line |
/// | | its first word is `enter`, `coenter` or `if` while 128 blocks are open |
/// | | its first word is `declare` while 65,535 objects are declared |
/// | `BadWord` | not UTF-8 or not a command; too few or too many words; a bad name or int |
/// | `Misplaced` | the line isn't allowed there |
/// | `NameTwice` | the object is declared already |
/// | `UnknownName` | no such object is declared |
/// | | the record has no such field, or the variant no such tag |
/// | `BadType` | the shape isn't a written form, or the access doesn't suit the object's kind |
/// | `BadValue` | the value or the content isn't a written form |
/// | `Unclosed` | no line is faulty; this one opened the innermost block that is open at the end |
///
/// ```text
/// fault.kind == FaultKind::Misplaced          // `end` where no block is open
/// ```
#[derive(Clone, Copy, Debug, PartialEq, Eq, Error)]
pub enum FaultKind {
    #[error("BadWord")]
    BadWord,
    #[error("UnknownName")]
    UnknownName,
    #[error("NameTwice")]
    NameTwice,
    #[error("BadType")]
    BadType,
    #[error("BadValue")]
    BadValue,
    #[error("Unclosed")]
    Unclosed,
    #[error("Misplaced")]
    Misplaced,
    #[error("TooLong")]
    TooLong,
}
