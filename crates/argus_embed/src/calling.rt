//! How a host calls.

ghost use Rattle.std.specs.Prelude.{IfErr, IfOk, OnErr, OnOk, ◌≡◌};
ghost use Rattle.argus_embed.specs.Requests.{IsCalled, IsRead, IsUnread};
ghost use Rattle.argus_embed.specs.Embedded.{outcome_of, with_reply};
ghost use Rattle.argus_journal.specs.Reply.{plain_reply};

use crate::embed_error::EmbedError;
use crate::embedded::Embedded;
use crate::kept_answer::KeptAnswer;
use crate::outcome::Outcome;
use crate::reporting::outcome_of;
use crate::request::Request;
use crate::requesting::call_of;
use argus_journal::Reply;
use std::mem::replace;

impl Embedded {
    /// Makes the call that the request with its text stands for. The reply follows from the journal
    /// before it. The journal grows by the call with this reply, whose text is kept.
    ///
    /// | Error | When |
    /// |---|---|
    /// | `BadKind` | there is no such kind |
    /// | `BadNumber` | the call takes a field or a tag, and the first number isn't within 0 to 255
    /// |
    /// | `BadText`, `BadShape` | the text isn't the written form of what the call takes |
    /// | `OutOfMemory` | there is no memory for what the text says, or for the call |
    ///
    /// The numbers are tested before the text: `BadKind` and `BadNumber` come exactly if they
    /// apply. Then `BadText` and `BadShape` do, except that `OutOfMemory` may come in their place.
    ///
    /// After an error nothing has changed, and what was kept stays.
    pub fn call(&mut self, request: &Request, text: &str) -> Result<Outcome, EmbedError>
        ensures called { IfOk result (λ outcome.
            IsCalled request.now text.now self.old self.new outcome) }
        ensures read { OnOk result (IsRead request.now text.now) }
        ensures unread { IfErr result (λ e. IsUnread request.now text.now e) }
        ensures err { OnErr result (self.new ≡ self.old) }
    {
        let call = call_of(self.heap, request, text)?;
        let reply = self.guardian.call(call)?;
        Ok(self.keep_reply(reply))
    }

    /// Keeps the reply of a call that was made, and says what came of it.
    pub(crate) fn keep_reply(&mut self, reply: Reply) -> Outcome
        ensures outcome { result ≡ outcome_of (plain_reply reply) }
        ensures kept { self.new ≡ with_reply self.old (plain_reply reply) }
    {
        let outcome = outcome_of(&reply);
        let _before = replace(&mut self.kept, KeptAnswer::Reply(reply));
        outcome
    }
}
