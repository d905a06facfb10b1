//! How actions begin.

ghost use Rattle.std.specs.Prelude.{◌≡◌, IfOk, OnErr, OnOk};
ghost use Rattle.argus_entries.specs.{Call.{begin_nested, begin_sub, begin_top}, Reply.plain_reply};
ghost use Rattle.argus_journal.specs.JournalView.{after, reply_to};

use crate::engine::beginning::{begin_nested, begin_sub, begin_top};
use crate::guardian::Guardian;
use argus_actions::ActionId;
use argus_entries::Reply;
use argus_memory::OutOfMemory;

impl Guardian {
    /// Begins a topaction, and returns its number.
    ///
    /// Refusal: `TooMany` if 1,000,000 actions have been begun, also before checkpoints. After
    /// `OutOfMemory` nothing has changed.
    pub fn begin_top(&mut self) -> Result<Reply, OutOfMemory>
        ensures reply { IfOk result (λ reply. plain_reply reply ≡ reply_to self.old begin_top) }
        ensures ok { OnOk result (self.new ≡ after self.old begin_top) }
        ensures err { OnErr result (self.new ≡ self.old) }
    {
        begin_top(&mut self.state)
    }

    /// Begins a subaction of this parent, and returns its number.
    ///
    /// Refusals: `NoAction`, `Over`, `TooDeep` if the parent has 64 ancestors, itself included,
    /// `TooMany` as in `begin_top`. After `OutOfMemory` nothing has changed.
    pub fn begin_sub(&mut self, parent: ActionId) -> Result<Reply, OutOfMemory>
        ensures reply { IfOk result (λ reply. plain_reply reply
            ≡ reply_to self.old (begin_sub parent.0)) }
        ensures ok { OnOk result (self.new ≡ after self.old (begin_sub parent.0)) }
        ensures err { OnErr result (self.new ≡ self.old) }
    {
        begin_sub(&mut self.state, parent)
    }

    /// Begins a nested topaction that this action creates, and returns its number. It has no
    /// privilege from its creator.
    ///
    /// Refusals: `NoAction`, `Over`, `TooMany` as in `begin_top`. After `OutOfMemory` nothing has
    /// changed.
    pub fn begin_nested(&mut self, creator: ActionId) -> Result<Reply, OutOfMemory>
        ensures reply { IfOk result (λ reply. plain_reply reply
            ≡ reply_to self.old (begin_nested creator.0)) }
        ensures ok { OnOk result (self.new ≡ after self.old (begin_nested creator.0)) }
        ensures err { OnErr result (self.new ≡ self.old) }
    {
        begin_nested(&mut self.state, creator)
    }
}
