//! How actions read and change objects.

ghost use Rattle.std.specs.Prelude.{◌≡◌, ◌<◌, IfOk, OnErr, OnOk};
ghost use Rattle.argus_contents.specs.Change.{plain_change};
ghost use Rattle.argus_entries.specs.{Call.{alter, ask}, Reply.plain_reply};
ghost use Rattle.argus_journal.specs.JournalView.{after, reply_to};

use crate::engine::accessing::ask;
use crate::engine::writing::alter;
use crate::guardian::Guardian;
use argus_actions::ActionId;
use argus_contents::{Change, ObjId, Query};
use argus_entries::Reply;
use argus_memory::OutOfMemory;

impl Guardian {
    /// Answers a query of the object, at what the action sees there, and makes the action a reader.
    ///
    /// Refusals: `NoAction`, `Over`, `Suspended` if the action has a live child, `NoObject`,
    /// `IllTyped` if the query doesn't suit the object's shape, `Conflict` if an action that isn't
    /// its ancestor holds the object for writing. After `OutOfMemory` nothing has changed.
    pub fn ask(&mut self, a: ActionId, o: ObjId, query: Query) -> Result<Reply, OutOfMemory>
        ensures reply { IfOk result (λ reply. plain_reply reply
            ≡ reply_to self.old (ask a.0 o.0 query)) }
        ensures ok { OnOk result (self.new ≡ after self.old (ask a.0 o.0 query)) }
        ensures err { OnErr result (self.new ≡ self.old) }
    {
        ask(&mut self.state, a, o, query)
    }

    /// Changes the object for the action, and makes the action a writer. The answer may be a
    /// signal; the lock is taken all the same. A change after an action's first one of an object is
    /// made in place.
    ///
    /// Refusals: `NoAction`, `Over`, `Suspended` if the action has a live child, `NoObject`,
    /// `IllTyped` if the change doesn't suit the object's shape or has a value that refers to an
    /// object which isn't declared, `Conflict` if an action that isn't its ancestor holds the
    /// object. After `OutOfMemory` nothing has changed.
    pub fn alter(&mut self, a: ActionId, o: ObjId, change: Change) -> Result<Reply, OutOfMemory>
        ensures reply { IfOk result (λ reply. plain_reply reply
            ≡ reply_to self.old (alter a.0 o.0 (plain_change change))) }
        ensures ok { OnOk result (self.new
            ≡ after self.old (alter a.0 o.0 (plain_change change))) }
        ensures err { OnErr result (self.new ≡ self.old) }
    {
        alter(&mut self.state, a, o, change)
    }
}
