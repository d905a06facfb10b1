//! How a host makes several calls at once.

ghost use Rattle.std.specs.Prelude.{[], IfErr, IfOk, OnErr, OnOk, length, map, ◌+◌, ◌<◌, ◌≡◌, ◌≤◌};
ghost use Rattle.argus_embed.specs.CallEach.{AreCalled, AreMade, IsNext, IsUnreadAfter, with_lines};
ghost use Rattle.argus_journal.specs.Reply.{plain_reply};

use crate::calls_made::CallsMade;
use crate::demand::Demand;
use crate::embed_error::EmbedError;
use crate::embedded::Embedded;
use crate::kept_answer::KeptAnswer;
use crate::list_end::ListEnd;
use crate::listed_call::ListedCall;
use crate::listed_reading::listed_call_of;
use crate::outcome_writing::{write_end, write_outcomes};
use crate::reporting::outcome_of;
use argus_journal::Reply;
use argus_values::Room;
use std::mem::replace;

impl Embedded {
    /// Makes the calls one after another, up to the first whose outcome isn't as demanded. Each is
    /// a call of its own, as `Embedded::call` makes it: one entry of the journal. Each gets the two
    /// numbers of its outcome. A call that fails gets those of its error: it changes nothing, and
    /// no call after it is made. The outcomes of those before it stay.
    ///
    /// Their texts are kept, a line for each reply that has one; if no call was made, what was kept
    /// stays.
    ///
    /// A call's error is the first of these, or otherwise that of `Embedded::call`:
    ///
    /// | Error | When |
    /// |---|---|
    /// | `BadDemand` | there is no such demand |
    /// | `NotBegun` | `begun_by` names no earlier call of the list, or one that began no action |
    /// | `NotUtf8` | the text isn't UTF-8 |
    ///
    /// If there is no memory for as many replies as there are calls, the first one fails with
    /// `OutOfMemory`, whatever it is.
    pub fn call_each(&mut self, calls: &mut [ListedCall<'_>]) -> CallsMade
        ensures { AreCalled calls.old calls.new self.old self.new result }
    {
        let Ok(mut replies) = Vec::with_capacity(self.heap.room(), calls.len()) else {
            let end = ListEnd::Failed(EmbedError::OutOfMemory);
            write_end(calls, 0, end);
            return CallsMade { count: 0, end };
        };
        let end = self.call_listed(calls, &mut replies);
        let count = replies.len();
        write_outcomes(calls, replies.as_slice());
        write_end(calls, count, end);
        self.keep_each(replies);
        CallsMade { count, end }
    }

    /// Makes the calls; what is kept stays.
    fn call_listed(&mut self, calls: &[ListedCall<'_>], replies: &mut Vec<Reply, Room>) -> ListEnd
        requires none { replies.old.items ≡ [] }
        requires room { length calls.now ≤ replies.old.cap }
        ensures { AreMade calls.now self.old self.new (map plain_reply replies.new.items) result }
    {
        for each in calls {
            match self.call_next(each, replies) {
                Ok(true) => {}
                Ok(false) => return ListEnd::Unmet,
                Err(error) => return ListEnd::Failed(error),
            }
        }
        ListEnd::Whole
    }

    /// Makes one of them, adds its reply, and says whether it is as demanded.
    fn call_next(
        &mut self,
        each: &ListedCall<'_>,
        replies: &mut Vec<Reply, Room>,
    ) -> Result<bool, EmbedError>
        requires { length replies.old.items < replies.old.cap }
        ensures next { IfOk result (λ met. IsNext each.now self.old self.new
            (map plain_reply replies.old.items) (map plain_reply replies.new.items) met) }
        ensures unread { IfErr result (λ e.
            IsUnreadAfter (map plain_reply replies.old.items) each.now e) }
        ensures count { OnOk result (length replies.new.items
            ≡ length replies.old.items + 1) }
        ensures room { replies.new.cap ≡ replies.old.cap }
        ensures err { OnErr result ((self.new ≡ self.old)
            × (replies.new.items ≡ replies.old.items)) }
    {
        let Some(demand) = Demand::of(each.demand) else {
            return Err(EmbedError::BadDemand);
        };
        let call = listed_call_of(self.heap, each, replies.as_slice())?;
        let reply = self.guardian.call(call)?;
        let is_met = demand.is_met(outcome_of(&reply));
        replies.push_reserved(reply);
        Ok(is_met)
    }

    /// Keeps the texts of these replies, if there are any.
    fn keep_each(&mut self, replies: Vec<Reply, Room>)
        ensures { self.new ≡ with_lines self.old (map plain_reply replies.items) }
    {
        if replies.is_empty() {
            return;
        }
        let _before = replace(&mut self.kept, KeptAnswer::Replies(replies));
    }
}
