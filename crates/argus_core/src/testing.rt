//! How actions test locks.

ghost use Rattle.std.specs.Prelude.{◌≡◌, ◌<◌, IfOk, OnErr, OnOk};
ghost use Rattle.argus_entries.specs.{Call.{test_read, test_write}, Reply.plain_reply};
ghost use Rattle.argus_journal.specs.JournalView.{after, reply_to};

use crate::engine::testing::test_read;
use crate::engine::writing::test_write;
use crate::guardian::Guardian;
use argus_actions::ActionId;
use argus_contents::ObjId;
use argus_entries::Reply;
use argus_memory::OutOfMemory;

impl Guardian {
    /// Whether the action may have the object's read lock; if so, it then has it.
    ///
    /// Refusals: `NoAction`, `Over`, `Suspended` if the action has a live child, `NoObject`. After
    /// `OutOfMemory` nothing has changed.
    pub fn test_read(&mut self, a: ActionId, o: ObjId) -> Result<Reply, OutOfMemory>
        ensures reply { IfOk result (λ reply. plain_reply reply
            ≡ reply_to self.old (test_read a.0 o.0)) }
        ensures ok { OnOk result (self.new ≡ after self.old (test_read a.0 o.0)) }
        ensures err { OnErr result (self.new ≡ self.old) }
    {
        test_read(&mut self.state, a, o)
    }

    /// Whether the action may have the object's write lock; if so, it then has it, and a version
    /// with what it sees.
    ///
    /// Refusals: `NoAction`, `Over`, `Suspended` if the action has a live child, `NoObject`. After
    /// `OutOfMemory` nothing has changed.
    pub fn test_write(&mut self, a: ActionId, o: ObjId) -> Result<Reply, OutOfMemory>
        ensures reply { IfOk result (λ reply. plain_reply reply
            ≡ reply_to self.old (test_write a.0 o.0)) }
        ensures ok { OnOk result (self.new ≡ after self.old (test_write a.0 o.0)) }
        ensures err { OnErr result (self.new ≡ self.old) }
    {
        test_write(&mut self.state, a, o)
    }
}
