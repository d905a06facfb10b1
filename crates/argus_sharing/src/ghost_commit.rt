//! `GhostCommit`: a commit, as contracts see it.

use argus_actions::ActionId;
use argus_board::TellsEffects;
use argus_core::Guardian;
use std::snapshot::Snapshot;

/// A commit: the guardian before it, which only contracts see, and the action.
#[derive(Drop)]
pub(crate) struct GhostCommit {
    pub(crate) before: Snapshot<Guardian>,
    pub(crate) action: ActionId,
}

/// A commit stands for what it adds to the effects.
pub(crate) struct Added;

impl TellsEffects<GhostCommit> for Added {
    ghost use Rattle.argus_core.specs.ReadyCommit.{added_by_call};
    ghost use Rattle.argus_entries.specs.Call.{commit};

    ghost effects = { λ made. added_by_call made.before.value (commit made.action.0) };
}
