//! How many actions a guardian has begun.

ghost use Rattle.std.specs.Prelude.{◌≡◌, ◌≤◌};
ghost use Rattle.argus_journal.specs.JournalFacts.{next_action_number};
ghost use Rattle.argus_values.specs.contents_declared.limits.TheConstants.{MAX_ACTIONS};

use argus_actions::ActionId;
use argus_guardian::Guardian;
use argus_values::limits::MAX_ACTIONS;

/// How many actions were begun, folded ones included: the number of the next one. It is found by
/// bisection, since exactly the actions below it have a status.
pub(crate) fn actions_begun(guardian: &Guardian) -> u32
    ensures count { result ≡ next_action_number guardian.now.opening guardian.now.entries }
    ensures within { result ≤ MAX_ACTIONS }
{
    guardian.journal_is_legal();
    let mut low = 0;
    let mut high = MAX_ACTIONS;
    while low < high {
        let middle = low + (high - low) / 2;
        if guardian.status(ActionId(middle)).is_some() {
            low = middle + 1;
        } else {
            high = middle;
        }
    }
    low
}
