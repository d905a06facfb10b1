//! The outcome that a reply is.

ghost use Rattle.std.specs.Prelude.{◌≡◌};
ghost use Rattle.argus_values.specs.Value.{plain_value};
ghost use Rattle.argus_embed.specs.Embedded.{outcome_of, value_outcome};
ghost use Rattle.argus_journal.specs.Reply.{plain_reply};

use crate::outcome::Outcome;
use argus_journal::Reply;
use argus_values::{Answer, Value};

pub(crate) fn outcome_of(reply: &Reply) -> Outcome
    ensures { result ≡ outcome_of (plain_reply reply.now) }
{
    match reply {
        Reply::Object(o) => Outcome::Object(o.0),
        Reply::Begun(a) => Outcome::Action(a.0),
        Reply::Answered(Answer::Done) => Outcome::Done,
        Reply::Answered(Answer::Val(value)) => value_outcome(value),
        Reply::Answered(Answer::Num(number)) => Outcome::Number(*number),
        Reply::Answered(Answer::Flag(truth)) => Outcome::Flag(*truth),
        Reply::Answered(Answer::Body(_)) => Outcome::Content,
        Reply::Answered(Answer::Signal(signal)) => Outcome::Signal(*signal),
        Reply::Refused(refusal) => Outcome::Refused(*refusal),
    }
}

fn value_outcome(value: &Value) -> Outcome
    ensures { result ≡ value_outcome (plain_value value.now) }
{
    match value {
        Value::Bool(truth) => Outcome::Flag(*truth),
        Value::Int(number) => Outcome::Number(*number),
        Value::Null
        | Value::Text(_)
        | Value::Atomic(_)
        | Value::Sequence(_)
        | Value::Fields(_)
        | Value::Choice(_, _) => Outcome::Value,
    }
}
