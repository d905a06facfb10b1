//! `CommitStep`: how a commit goes on.

use argus_actions::ActionId;
use argus_entries::Refusal;

/// How a prepared commit goes on.
///
/// ```text
/// let step = ready_commit(&mut state, a)?;            // the journal is as before
/// let reply = make_commit(&mut state, a, step);       // it is one entry longer
/// ```
#[derive(Clone, Copy)]
pub(crate) enum CommitStep {
    /// It is refused.
    Refused(Refusal),
    /// A subaction's: this parent will get what it holds.
    Inherit(ActionId),
    /// A topaction's: its versions will be the bases.
    Settle,
}
