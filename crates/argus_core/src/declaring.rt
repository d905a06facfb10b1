//! How objects are declared.

ghost use Rattle.std.specs.Prelude.{◌≡◌, IfOk, OnErr, OnOk};
ghost use Rattle.argus_entries.specs.{Call.declare, Reply.plain_reply};
ghost use Rattle.argus_journal.specs.JournalView.{after, reply_to};

use crate::engine::declaring::declare;
use crate::guardian::Guardian;
use argus_contents::Shape;
use argus_entries::Reply;
use argus_memory::OutOfMemory;

impl Guardian {
    /// Declares an object of this shape, and returns its number. The object belongs to no action,
    /// and is never removed; it has no content until an action creates one.
    ///
    /// Refusal: `TooMany` if 65,535 objects are declared. After `OutOfMemory` nothing has changed.
    pub fn declare(&mut self, shape: Shape) -> Result<Reply, OutOfMemory>
        ensures reply { IfOk result (λ reply. plain_reply reply
            ≡ reply_to self.old (declare shape)) }
        ensures ok { OnOk result (self.new ≡ after self.old (declare shape)) }
        ensures err { OnErr result (self.new ≡ self.old) }
    {
        declare(&mut self.state, shape)
    }
}
