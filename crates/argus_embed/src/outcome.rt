//! `Outcome`: what came of a call, or of a question.

ghost use Rattle.std.specs.Prelude.{◌<◌, ◌≡◌};
ghost use Rattle.argus_embed.specs.Codes.{outcome_codes};

use crate::codes::{refusal_code, signal_code};
use argus_journal::Refusal;
use argus_values::Signal;

/// What came of a call that was made, or of a question that was answered.
///
/// ```text
/// match bank.call(&request, text)? {
///     Outcome::Refused(Refusal::Conflict) => ..,      // wait, and call again
///     outcome => ..,
/// }
/// ```
#[derive(Clone, Copy, Debug)]
pub enum Outcome {
    /// It is done; there is nothing more to say.
    Done,
    /// The number of the object that was declared.
    Object(u32),
    /// The number of the action that was begun.
    Action(u32),
    /// A bound, a size, a count, or a value that is an integer.
    Number(i64),
    /// Whether a lock may be had, or the variant has the tag; or a value that is a truth value.
    Flag(bool),
    /// Any other value, whose written form is kept.
    Value,
    /// A content, whose written form is kept.
    Content,
    /// A text, which is kept.
    Text,
    /// The operation signalled; it has its lock, and changed nothing.
    Signal(Signal),
    /// The call was refused, and took no lock.
    Refused(Refusal),
}

impl Outcome {
    /// The status of the C header that it is, which is below 10, and the number that goes with it.
    pub fn codes(self) -> (u32, i64)
        ensures codes { result ≡ outcome_codes self }
        ensures made { result.0 < 10 }
    {
        match self {
            Outcome::Done => (0, 0),
            Outcome::Object(o) => (1, i64::from(o)),
            Outcome::Action(a) => (2, i64::from(a)),
            Outcome::Number(number) => (3, number),
            Outcome::Flag(false) => (4, 0),
            Outcome::Flag(true) => (4, 1),
            Outcome::Value => (5, 0),
            Outcome::Content => (6, 0),
            Outcome::Text => (7, 0),
            Outcome::Signal(signal) => (8, signal_code(signal)),
            Outcome::Refused(refusal) => (9, refusal_code(refusal)),
        }
    }
}
