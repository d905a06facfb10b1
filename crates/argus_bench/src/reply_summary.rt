//! `ReplySummary`: what a reply says, as far as a run needs it.

use crate::bench_error::BenchError;
use argus_actions::ActionId;
use argus_journal::Reply;
use argus_values::{Answer, Value};

/// What a reply says, as far as a run needs it. It is copied, while a reply would have to be
/// dropped on each way out of the function that holds it.
///
/// ```text
/// assert!(rt; matches!(ReplySummary::by(Reply::Answered(Answer::Done)), ReplySummary::Done));
/// ```
#[derive(Clone, Copy)]
pub(crate) enum ReplySummary {
    /// The number of an action.
    Begun(ActionId),
    /// What was asked for, an integer.
    Number(i64),
    /// The change, commit or abort was made.
    Done,
    /// A refusal, the number of an object, or a reply that no run asks for.
    Other,
}

impl ReplySummary {
    /// What the reply says; the reply is dropped.
    #[inline(always)]
    pub(crate) fn by(reply: Reply) -> ReplySummary {
        match &reply {
            Reply::Begun(a) => ReplySummary::Begun(*a),
            Reply::Answered(Answer::Done) => ReplySummary::Done,
            Reply::Answered(Answer::Val(Value::Int(number))) => ReplySummary::Number(*number),
            Reply::Answered(_) | Reply::Object(_) | Reply::Refused(_) => ReplySummary::Other,
        }
    }

    pub(crate) fn expect_done(self) -> Result<(), BenchError> {
        let ReplySummary::Done = self else {
            return Err(BenchError::OtherReply);
        };
        Ok(())
    }
}
