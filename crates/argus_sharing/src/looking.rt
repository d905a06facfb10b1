//! What lookers get under the mutex.

ghost use Rattle.std.specs.Prelude.{OnErr, OnOk, Some, [], false, true, ℕ, ◌++◌, ◌<◌, ◌↔◌, ◌≡◌};
ghost use Rattle.std.specs.{Prelude.{◌≢◌}, Result.result_err};
ghost use mathlib.Core.List.{IsPrefix};
ghost use Rattle.argus_core.specs.Checkpoint.{after_checkpoint, is_quiet};
ghost use Rattle.argus_core.specs.Objects.{refusal_of_access};
ghost use Rattle.argus_core.specs.declared.checkpoint_error.CheckpointError.TheVariants.{Busy};
ghost use Rattle.argus_core.specs.declared.checkpoint_error.CheckpointError.TheVariants.{Full};
ghost use Rattle.argus_entries.specs.Call.{plain_call};
ghost use Rattle.argus_entries.specs.declared.refusal.Refusal.TheVariants.{Conflict};
ghost use Rattle.argus_journal.specs.{Objects.shapes, JournalFacts.base_of, JournalView.next_entry};
ghost use Rattle.argus_journal.specs.declared.limits.TheConstants.{MAX_FIRST_ENTRY};
ghost use Rattle.argus_sharing.specs.Following.{FollowsJournal, IsSharedJournal};

use crate::locked::Locked;
use crate::sharing::Sharing;
use argus_board::Looker;
use argus_core::CheckpointError;
use argus_entries::{Call, Refusal};
use std::sync::Wait;

impl<N: Sharing, R: Wait + Drop> Locked<N, R> {
    /// Publishes what is pending, and lets the looker see all of it. What the looker saw before is
    /// a prefix of that, whatever is returned. False: a publish found no memory, and nothing has
    /// changed.
    ///
    /// It may wait for lookers that are reading. The looker came with the same sharing.
    pub fn brief(&mut self, looker: &mut Looker<N>) -> bool
        ensures journal { self.new.journal ≡ self.old.journal }
        ensures board { FollowsJournal N.opening_contents self.new.journal
            (self.new.board.published ++ self.new.board.pending) }
        ensures shared { IsSharedJournal N.start self.new.journal }
        ensures former { IsPrefix looker.old
            (self.new.board.published ++ self.new.board.pending) }
        ensures all { result ≡ true → (looker.new ≡ self.new.board.published)
            × (self.new.board.published ≡ self.old.board.published ++ self.old.board.pending)
            × (self.new.board.pending ≡ []) }
        ensures rest { result ≡ false → (self.new ≡ self.old) × (looker.new ≡ looker.old)
            × (self.old.board.pending ≢ []) }
    {
        self.journal();
        let Locked { publishing, .. } = self;
        publishing.board.brief(looker).is_ok()
    }

    /// Publishes what is pending. False: a publish found no memory, and nothing has changed.
    ///
    /// It may wait for lookers that are reading.
    pub fn refresh(&mut self) -> bool
        ensures journal { self.new.journal ≡ self.old.journal }
        ensures board { FollowsJournal N.opening_contents self.new.journal
            (self.new.board.published ++ self.new.board.pending) }
        ensures shared { IsSharedJournal N.start self.new.journal }
        ensures all { result ≡ true → (self.new.board.pending ≡ [])
            × (self.new.board.published ≡ self.old.board.published ++ self.old.board.pending) }
        ensures rest { result ≡ false → (self.new ≡ self.old) × (self.old.board.pending ≢ []) }
    {
        self.journal();
        let Locked { publishing, .. } = self;
        publishing.board.publish().is_ok()
    }

    /// Folds the journal's past into its opening, as `Guardian::checkpoint` does: nothing is lost
    /// from view, since the board is unchanged, and objects, shapes and bases stay. `Busy`: an
    /// action is live; `Full`: none is, but the next entry's number is past the limit; these and
    /// `Memory` change nothing.
    pub fn checkpoint(&mut self) -> Result<(), CheckpointError>
        ensures ok { OnOk result (self.new.journal ≡ after_checkpoint self.old.journal) }
        ensures busy { (result_err result ≡ Some Busy) ↔ (is_quiet self.old.journal ≡ false) }
        ensures full { (result_err result ≡ Some Full) ↔ ((is_quiet self.old.journal ≡ true)
            × (MAX_FIRST_ENTRY < next_entry self.old.journal)) }
        ensures err { OnErr result (self.new ≡ self.old) }
        ensures shapes { shapes self.new.journal.opening self.new.journal.entries
            ≡ shapes self.old.journal.opening self.old.journal.entries }
        ensures bases { (o : ℕ) → base_of self.new.journal.opening self.new.journal.entries o
            ≡ base_of self.old.journal.opening self.old.journal.entries o }
        ensures stays { self.new.board ≡ self.old.board }
        ensures board { FollowsJournal N.opening_contents self.new.journal
            (self.new.board.published ++ self.new.board.pending) }
        ensures shared { IsSharedJournal N.start self.old.journal }
        ensures former { FollowsJournal N.opening_contents self.old.journal
            (self.old.board.published ++ self.old.board.pending) }
    {
        self.journal();
        let Locked { publishing, .. } = self;
        publishing.guardian.journal_is_legal();
        publishing.guardian.checkpoint()
    }

    /// Whether the call would be refused with `Conflict` now.
    pub(crate) fn would_conflict(&self, call: &Call) -> bool
        ensures { (result ≡ true) ↔ (refusal_of_access self.now.journal (plain_call call.now)
            ≡ Some Conflict) }
    {
        self.publishing.guardian.access_refusal(call) == Some(Refusal::Conflict)
    }
}
