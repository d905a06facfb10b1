//! Tests, and how a block goes on after the replies to accesses and tests.

ghost use Rattle.std.specs.Prelude.{◌≡◌};
ghost use Rattle.argus_entries.specs.{Call.plain_call, Reply.plain_reply};
ghost use Rattle.argus_journal.specs.Events.{says_yes};
ghost use Rattle.argus_runs.specs.Replies.{flow_after, test_call};

use crate::flow::Flow;
use argus_actions::ActionId;
use argus_contents::{Answer, ObjId};
use argus_entries::{Call, Reply};
use argus_language::Lock;

/// The call of an `if`.
pub fn call_to_test(lock: Lock, action: ActionId, object: ObjId) -> Call
    ensures { plain_call result ≡ test_call lock action object.0 }
{
    match lock {
        Lock::Read => Call::TestRead(action, object),
        Lock::Write => Call::TestWrite(action, object),
    }
}

/// Whether a test returned yes.
pub fn is_yes(reply: &Reply) -> bool
    ensures { result ≡ says_yes (plain_reply reply.now) }
{
    match reply {
        Reply::Answered(Answer::Flag(truth)) => *truth,
        Reply::Answered(Answer::Done)
        | Reply::Answered(Answer::Val(_))
        | Reply::Answered(Answer::Num(_))
        | Reply::Answered(Answer::Body(_))
        | Reply::Answered(Answer::Signal(_))
        | Reply::Object(_)
        | Reply::Begun(_)
        | Reply::Refused(_) => false,
    }
}

/// How a block goes on after the reply to an access or a test.
pub fn flow_of(reply: &Reply) -> Flow
    ensures { result ≡ flow_after (plain_reply reply.now) }
{
    match reply {
        Reply::Refused(why) => Flow::Refused(*why),
        Reply::Object(_) | Reply::Begun(_) | Reply::Answered(_) => Flow::On,
    }
}
