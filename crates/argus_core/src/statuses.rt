//! What became of actions. These calls make no entry in the journal, and take no memory.

ghost use Rattle.std.specs.{Prelude.{IfSome, false, true, ℕ, ◌<◌, ◌≡◌, ◌≤◌}, Option.IfNone};
ghost use Rattle.argus_actions.specs.{Rows.is_live_at, Tree.next};
ghost use Rattle.argus_core.specs.Statuses.{NoneLiveBetween, NoneLiveFrom, status_in};
ghost use Rattle.argus_journal.specs.JournalFacts.{is_live_in};

use crate::engine::discarding::is_live;
use crate::guardian::Guardian;
use argus_actions::{ActionId, ActionTree, Status};

/// The first live action from this number on.
fn first_live(tree: &ActionTree, from: u32) -> Option<ActionId>
    ensures live { IfSome result (λ a. is_live_at tree.now.folded tree.now.rows a.0 ≡ true) }
    ensures from { IfSome result (λ a. from ≤ a.0) }
    ensures first { IfSome result (λ a. (x : ℕ) → from ≤ x → x < a.0
        → is_live_at tree.now.folded tree.now.rows x ≡ false) }
    ensures none { IfNone result ((x : ℕ) → from ≤ x → x < next tree.now
        → is_live_at tree.now.folded tree.now.rows x ≡ false) }
{
    for a in from..tree.len() {
        if is_live(tree, ActionId(a)) {
            return Some(ActionId(a));
        }
    }
    None
}

impl Guardian {
    /// What became of an action: `Live`; `Committed`; `Aborted` if it or an ancestor of it was
    /// aborted, whether it had committed or not; `Folded` if a checkpoint has forgotten it. `None`
    /// if it wasn't begun.
    ///
    /// ```text
    /// let a = ActionId(0);
    /// guardian.begin_top()?;                                      // Begun(a)
    /// assert_eq!(rt; guardian.status(a), Some(Status::Live));
    /// guardian.abort(a)?;
    /// assert_eq!(rt; guardian.status(a), Some(Status::Aborted));
    /// ```
    pub fn status(&self, a: ActionId) -> Option<Status>
        ensures { result ≡ status_in self.now a.0 }
    {
        self.state.tree.status(a)
    }

    /// The first live action from this number on; `None` if there is none. Called again with the
    /// number after the one that it found, it leads to all live actions.
    ///
    /// ```text
    /// guardian.begin_top()?;                                      // Begun(ActionId(0))
    /// guardian.begin_top()?;                                      // Begun(ActionId(1))
    /// guardian.commit(ActionId(0))?;
    /// assert_eq!(rt; guardian.live(0), Some(ActionId(1)));
    /// assert_eq!(rt; guardian.live(2), None);
    /// ```
    pub fn live(&self, from: u32) -> Option<ActionId>
        ensures live { IfSome result (λ a. is_live_in self.now.opening self.now.entries a.0
            ≡ true) }
        ensures from { IfSome result (λ a. from ≤ a.0) }
        ensures first { IfSome result (λ a. NoneLiveBetween self.now from a.0) }
        ensures none { IfNone result (NoneLiveFrom self.now from) }
    {
        let first = self.state.journal.journal().first_action();
        if from < first {
            first_live(&self.state.tree, first)
        } else {
            first_live(&self.state.tree, from)
        }
    }
}
