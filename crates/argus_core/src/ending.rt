//! How actions end.

ghost use Rattle.std.specs.Prelude.{◌≡◌, IfOk, OnErr, OnOk};
ghost use Rattle.argus_entries.specs.{Call.{abort, abort_others, commit}, Reply.plain_reply};
ghost use Rattle.argus_journal.specs.JournalView.{after, reply_to};

use crate::engine::ending::{abort, abort_others, commit};
use crate::guardian::Guardian;
use argus_actions::ActionId;
use argus_entries::Reply;
use argus_memory::OutOfMemory;

impl Guardian {
    /// Commits an action: a subaction hands its locks and versions to its parent, a topaction makes
    /// its versions the bases and releases its locks. The reply is `Done`.
    ///
    /// Refusals: `NoAction`, `Over`, `Suspended` if it has a live child. After `OutOfMemory`
    /// nothing has changed.
    pub fn commit(&mut self, a: ActionId) -> Result<Reply, OutOfMemory>
        ensures reply { IfOk result (λ reply. plain_reply reply ≡ reply_to self.old (commit a.0)) }
        ensures ok { OnOk result (self.new ≡ after self.old (commit a.0)) }
        ensures err { OnErr result (self.new ≡ self.old) }
    {
        commit(&mut self.state, a)
    }

    /// Aborts an action with all its subactions, theirs, and so on, whether they have committed or
    /// not: what they hold is discarded. Nested topactions that were begun under them go on. The
    /// reply is `Done`.
    ///
    /// Refusals: `NoAction`, `Over`. After `OutOfMemory` nothing has changed.
    pub fn abort(&mut self, a: ActionId) -> Result<Reply, OutOfMemory>
        ensures reply { IfOk result (λ reply. plain_reply reply ≡ reply_to self.old (abort a.0)) }
        ensures ok { OnOk result (self.new ≡ after self.old (abort a.0)) }
        ensures err { OnErr result (self.new ≡ self.old) }
    {
        abort(&mut self.state, a)
    }

    /// Aborts all live siblings of an action, each with its subactions, theirs, and so on. A
    /// sibling is another action of the same parent or creator. The reply is `Done`, even if no
    /// sibling is live.
    ///
    /// Refusals: `NoAction`, `Over`, `Suspended`, `NoSiblings` if no action began it. After
    /// `OutOfMemory` nothing has changed.
    pub fn abort_others(&mut self, a: ActionId) -> Result<Reply, OutOfMemory>
        ensures reply { IfOk result (λ reply. plain_reply reply
            ≡ reply_to self.old (abort_others a.0)) }
        ensures ok { OnOk result (self.new ≡ after self.old (abort_others a.0)) }
        ensures err { OnErr result (self.new ≡ self.old) }
    {
        abort_others(&mut self.state, a)
    }
}
