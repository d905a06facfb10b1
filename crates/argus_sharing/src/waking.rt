//! Which calls wake those that wait: the ones that ended actions.

ghost use Rattle.std.specs.Prelude.{◌≡◌};
ghost use Rattle.argus_entries.specs.{Call.plain_call, Reply.plain_reply};
ghost use Rattle.argus_journal.specs.Events.{is_answered};
ghost use Rattle.argus_sharing.specs.Waking.{may_end};

use crate::demanded_call::DemandedCall;
use crate::shared::Shared;
use crate::sharing::Sharing;
use argus_entries::{Call, Reply};
use std::sync::Wait;

impl<N: Sharing, R: Wait + Drop> Shared<N, R> {
    /// Wakes all waiting threads, if the call was one that may end actions, and got an answer.
    #[inline(always)]
    pub(crate) fn wake_if_ended(&self, may_end: bool, reply: &Reply) {
        if may_end && is_answered(reply) {
            self.freed.notify_all();
        }
    }
}

/// Whether a call of this kind ends actions, unless it is refused.
#[inline(always)]
pub(crate) fn may_end(call: &Call) -> bool
    ensures { result ≡ may_end (plain_call call.now) }
{
    match call {
        Call::Commit(_) | Call::Abort(_) | Call::AbortOthers(_) => true,
        Call::Declare(_)
        | Call::BeginTop
        | Call::BeginSub(_)
        | Call::BeginNested(_)
        | Call::Ask(_, _, _)
        | Call::Alter(_, _, _)
        | Call::TestRead(_, _)
        | Call::TestWrite(_, _) => false,
    }
}

fn is_answered(reply: &Reply) -> bool
    ensures { result ≡ is_answered (plain_reply reply.now) }
{
    matches!(reply, Reply::Answered(_))
}

/// Whether one of these calls got a reply, and ended actions.
pub(crate) fn have_ended(calls: &[DemandedCall], replies: &[Reply]) -> bool {
    for (each, reply) in calls.iter().zip(replies) {
        if may_end(&each.call) && is_answered(reply) {
            return true;
        }
    }
    false
}
