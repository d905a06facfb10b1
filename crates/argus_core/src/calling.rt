//! Calls as values: each goes to its method.

ghost use Rattle.std.specs.Prelude.{◌≡◌, IfOk, OnErr, OnOk};
ghost use Rattle.argus_entries.specs.{Call.plain_call, Reply.plain_reply};
ghost use Rattle.argus_journal.specs.JournalView.{after, reply_to};

use crate::guardian::Guardian;
use argus_entries::{Call, Reply};
use argus_memory::OutOfMemory;

impl Guardian {
    /// Makes a call. The reply follows from the journal before it: the first refusal that applies,
    /// or else what the call asked for. The journal grows by one entry: the call with this reply.
    /// `OutOfMemory` may come in place of any reply: then nothing has changed, and the call that
    /// was passed in is consumed.
    ///
    /// | Call | Its method |
    /// |---|---|
    /// | `Declare` | `declare` |
    /// | `BeginTop`, `BeginSub`, `BeginNested` | `begin_top`, `begin_sub`, `begin_nested` |
    /// | `Commit`, `Abort`, `AbortOthers` | `commit`, `abort`, `abort_others` |
    /// | `Ask`, `Alter` | `ask`, `alter` |
    /// | `TestRead`, `TestWrite` | `test_read`, `test_write` |
    #[inline(always)]
    pub fn call(&mut self, call: Call) -> Result<Reply, OutOfMemory>
        ensures reply { IfOk result (λ reply. plain_reply reply
            ≡ reply_to self.old (plain_call call)) }
        ensures ok { OnOk result (self.new ≡ after self.old (plain_call call)) }
        ensures err { OnErr result (self.new ≡ self.old) }
    {
        match call {
            Call::Declare(shape) => self.declare(shape),
            Call::BeginTop => self.begin_top(),
            Call::BeginSub(parent) => self.begin_sub(parent),
            Call::BeginNested(creator) => self.begin_nested(creator),
            Call::Commit(a) => self.commit(a),
            Call::Abort(a) => self.abort(a),
            Call::AbortOthers(a) => self.abort_others(a),
            Call::Ask(a, o, query) => self.ask(a, o, query),
            Call::Alter(a, o, change) => self.alter(a, o, change),
            Call::TestRead(a, o) => self.test_read(a, o),
            Call::TestWrite(a, o) => self.test_write(a, o),
        }
    }
}
