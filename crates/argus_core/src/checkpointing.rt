//! How the journal's past is folded into its opening.

ghost use Rattle.std.specs.Prelude.{IfOk, IsFalse, IsTrue, OnErr, OnOk, Some, false, map, true, ℕ};
ghost use Rattle.std.specs.{Prelude.{◌<◌, ◌↔◌, ◌≡◌, ◌≤◌}, Result.result_err};
ghost use Rattle.argus_actions.specs.{Rows.is_live_at, Tree.next};
ghost use Rattle.argus_core.specs.Checkpoint.{after_checkpoint, is_quiet, opened_objects};
ghost use Rattle.argus_core.specs.GuardianState.{StateInvariant, journal_view_of};
ghost use Rattle.argus_core.specs.declared.checkpoint_error.CheckpointError.TheVariants.{Busy};
ghost use Rattle.argus_core.specs.declared.checkpoint_error.CheckpointError.TheVariants.{Full};
ghost use Rattle.argus_journal.specs.{Folding.next_entry_number, Objects.shapes};
ghost use Rattle.argus_journal.specs.{Opening.plain_object, JournalFacts.base_of};
ghost use Rattle.argus_journal.specs.declared.limits.TheConstants.{MAX_FIRST_ENTRY};
ghost use Rattle.argus_journal.specs.JournalView.{next_entry};

use crate::checkpoint_error::CheckpointError;
use crate::engine::atomic_object::AtomicObject;
use crate::engine::discarding::is_live;
use crate::engine::guardian_state::GuardianState;
use crate::guardian::Guardian;
use argus_actions::{ActionId, ActionTree};
use argus_contents::{Content, Shape};
use argus_journal::limits::MAX_FIRST_ENTRY;
use argus_memory::{Heap, OutOfMemory, Room};
use argus_objects::Holdings;

/// Whether any action from this number on is live.
fn is_busy(tree: &ActionTree, first: u32) -> bool
    ensures live { IsTrue result
        → (a : ℕ) × (is_live_at tree.now.folded tree.now.rows a ≡ true) }
    ensures quiet { IsFalse result → (a : ℕ) → first ≤ a → a < next tree.now
        → is_live_at tree.now.folded tree.now.rows a ≡ false }
{
    for a in first..tree.len() {
        if is_live(tree, ActionId(a)) {
            return true;
        }
    }
    false
}

/// Copies of the objects' shapes and bases.
fn copies_of(
    heap: Heap,
    objects: &[AtomicObject],
) -> Result<Vec<(Shape, Option<Content>), Room>, OutOfMemory>
    ensures { IfOk result (λ copies. map plain_object copies.items ≡ opened_objects objects.now) }
{
    let mut copies = Vec::new(heap.room());
    for object in objects {
        let shape = object.shape.duplicate(heap)?;
        let base = Content::duplicate_option(heap, object.cell.base())?;
        copies.push((shape, base))?;
    }
    Ok(copies)
}

/// Folds the journal of this state, as `Guardian::checkpoint` does.
fn fold_past(state: &mut GuardianState) -> Result<(), CheckpointError>
    requires { StateInvariant state.old }
    ensures kept { StateInvariant state.new }
    ensures ok { OnOk result (journal_view_of state.new ≡ after_checkpoint
        (journal_view_of state.old)) }
    ensures busy { (result_err result ≡ Some Busy) ↔ (is_quiet (journal_view_of state.old)
        ≡ false) }
    ensures full { (result_err result ≡ Some Full)
        ↔ ((is_quiet (journal_view_of state.old) ≡ true)
        × (MAX_FIRST_ENTRY < next_entry (journal_view_of state.old))) }
    ensures err { OnErr result (journal_view_of state.new ≡ journal_view_of state.old) }
    ensures shapes { shapes (journal_view_of state.new).opening (journal_view_of state.new).entries
        ≡ shapes (journal_view_of state.old).opening (journal_view_of state.old).entries }
    ensures bases { (o : ℕ) → base_of (journal_view_of state.new).opening
        (journal_view_of state.new).entries o
        ≡ base_of (journal_view_of state.old).opening (journal_view_of state.old).entries o }
{
    if is_busy(&state.tree, state.journal.journal().first_action()) {
        return Err(CheckpointError::Busy);
    }
    if state.journal.journal().len() > MAX_FIRST_ENTRY {
        return Err(CheckpointError::Full);
    }
    match copies_of(state.heap, state.objects.as_slice()) {
        Err(OutOfMemory) => Err(CheckpointError::Memory),
        Ok(objects) => {
            let first = state.tree.len();
            state.journal.fold(objects, first);
            state.tree = ActionTree::starting_at(state.heap, first);
            state.holdings = Holdings::starting_at(state.heap, first);
            Ok(())
        }
    }
}

impl Guardian {
    /// Folds the journal's past into its opening: the objects with their shapes and bases, the
    /// number of the next action and that of the next entry. All actions so far are over and
    /// forgotten, and the entries are dropped with the room of their list. Objects, shapes and
    /// bases stay; the opening has copies of these. It makes no entry.
    ///
    /// Errors, in this order: `Busy` if an action is live, `Full` if the next entry's number is
    /// above `MAX_FIRST_ENTRY`, `Memory`. After an error nothing has changed.
    ///
    /// Source: the stable state that a guardian is restored from, Argus Reference Manual
    /// (MIT/LCS/TR-400, 1987).
    ///
    /// ```text
    /// guardian.checkpoint()?;
    /// assert_eq!(rt; guardian.journal().journal().get(0), None);
    /// ```
    pub fn checkpoint(&mut self) -> Result<(), CheckpointError>
        ensures ok { OnOk result (self.new ≡ after_checkpoint self.old) }
        ensures busy { (result_err result ≡ Some Busy) ↔ (is_quiet self.old ≡ false) }
        ensures full { (result_err result ≡ Some Full)
            ↔ ((is_quiet self.old ≡ true) × (MAX_FIRST_ENTRY
            < next_entry_number self.old.opening self.old.entries)) }
        ensures err { OnErr result (self.new ≡ self.old) }
        ensures shapes { shapes self.new.opening self.new.entries
            ≡ shapes self.old.opening self.old.entries }
        ensures bases { (o : ℕ) → base_of self.new.opening self.new.entries o
            ≡ base_of self.old.opening self.old.entries o }
    {
        fold_past(&mut self.state)
    }
}
