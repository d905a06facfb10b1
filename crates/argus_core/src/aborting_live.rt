//! Aborting all live actions.

ghost use Rattle.std.specs.Prelude.{OnErr, OnOk, [], true, ◌≡◌, ◌≢◌};
ghost use Rattle.argus_core.specs.AbortingLive.{IsPartlyAborted, after_aborts, live_topactions};
ghost use Rattle.argus_core.specs.Checkpoint.{is_quiet};
ghost use Rattle.argus_core.specs.GuardianState.{StateInvariant, journal_view_of};

use crate::engine::discarding::is_live;
use crate::engine::ending::abort;
use crate::engine::guardian_state::GuardianState;
use crate::guardian::Guardian;
use argus_actions::ActionId;
use argus_memory::OutOfMemory;

/// Aborts the live topactions of this state, as `Guardian::abort_live` does. A subaction has a
/// greater number than its parent, so it is over before its turn would come.
fn abort_each(state: &mut GuardianState) -> Result<(), OutOfMemory>
    requires { StateInvariant state.old }
    ensures kept { StateInvariant state.new }
    ensures ok { OnOk result (journal_view_of state.new ≡ after_aborts
        (journal_view_of state.old) (live_topactions (journal_view_of state.old))) }
    ensures quiet { OnOk result (is_quiet (journal_view_of state.new) ≡ true) }
    ensures err { OnErr result (IsPartlyAborted (journal_view_of state.old)
        (journal_view_of state.new)) }
    ensures left { OnErr result (live_topactions (journal_view_of state.new) ≢ []) }
{
    let first = state.journal.journal().first_action();
    for a in first..state.tree.len() {
        if is_live(&state.tree, ActionId(a)) {
            abort(state, ActionId(a))?;
        }
    }
    Ok(())
}

impl Guardian {
    /// Aborts all live actions: makes the call `abort` for each live topaction, nested ones too, in
    /// increasing number, so that their subactions are aborted with them. Each call makes its
    /// entry. A guardian of Argus does so when it comes back after a crash.
    ///
    /// `OutOfMemory`: the first ones were aborted, and the others, at least one, are still live;
    /// another call aborts these. So it never comes where nothing is live.
    ///
    /// Source: actions that are active at a crash are aborted, Argus Reference Manual
    /// (MIT/LCS/TR-400, 1987).
    ///
    /// ```text
    /// guardian.begin_top()?;                                      // Begun(ActionId(0))
    /// guardian.begin_sub(ActionId(0))?;                           // Begun(ActionId(1))
    /// guardian.abort_live()?;                                     // one more entry: `abort a0`
    /// assert_eq!(rt; guardian.live(0), None);
    /// ```
    pub fn abort_live(&mut self) -> Result<(), OutOfMemory>
        ensures ok { OnOk result (self.new ≡ after_aborts self.old (live_topactions self.old)) }
        ensures quiet { OnOk result (is_quiet self.new ≡ true) }
        ensures err { OnErr result (IsPartlyAborted self.old self.new) }
        ensures left { OnErr result (live_topactions self.new ≢ []) }
    {
        abort_each(&mut self.state)
    }
}
