//! Why a tree refuses calls: each refusal of `ActionTree`, before anything is done.

ghost use Rattle.std.specs.Prelude.{◌≡◌};
ghost use Rattle.argus_actions.specs.Refusals.{abort_others_refusal, abort_refusal};
ghost use Rattle.argus_actions.specs.Refusals.{begin_nested_refusal, begin_sub_refusal};
ghost use Rattle.argus_actions.specs.Refusals.{begin_top_refusal, commit_refusal};

use crate::action_id::ActionId;
use crate::action_refusal::ActionRefusal;
use crate::action_tree::ActionTree;
use crate::status::Status;
use argus_contents::limits::{MAX_ACTION_DEPTH, MAX_ACTIONS};

impl ActionTree {
    /// Why a topaction can't be begun now: `TooMany`. It can't foresee that memory runs out.
    pub fn begin_top_refusal(&self) -> Option<ActionRefusal>
        ensures { result ≡ begin_top_refusal self.now }
    {
        if self.len() < MAX_ACTIONS {
            None
        } else {
            Some(ActionRefusal::TooMany)
        }
    }

    /// Why a subaction of this parent can't be begun now: `NoAction`, `Over`, `TooDeep` or
    /// `TooMany`.
    pub fn begin_sub_refusal(&self, parent: ActionId) -> Option<ActionRefusal>
        ensures { result ≡ begin_sub_refusal self.now parent.0 }
    {
        if let Some(refusal) = self.abort_refusal(parent) {
            return Some(refusal);
        }
        match self.depth(parent) {
            Some(depth) if depth >= MAX_ACTION_DEPTH => Some(ActionRefusal::TooDeep),
            Some(_) | None => self.begin_top_refusal(),
        }
    }

    /// Why a nested topaction of this creator can't be begun now: `NoAction`, `Over` or `TooMany`.
    pub fn begin_nested_refusal(&self, creator: ActionId) -> Option<ActionRefusal>
        ensures { result ≡ begin_nested_refusal self.now creator.0 }
    {
        match self.abort_refusal(creator) {
            None => self.begin_top_refusal(),
            refusal => refusal,
        }
    }

    /// Why the action can't commit now: `NoAction`, `Over` or `ChildrenLive`.
    pub fn commit_refusal(&self, a: ActionId) -> Option<ActionRefusal>
        ensures { result ≡ commit_refusal self.now a.0 }
    {
        match self.abort_refusal(a) {
            None if self.has_live_child(a) => Some(ActionRefusal::ChildrenLive),
            refusal => refusal,
        }
    }

    /// Why the action can't be aborted now: `NoAction` or `Over`.
    pub fn abort_refusal(&self, a: ActionId) -> Option<ActionRefusal>
        ensures { result ≡ abort_refusal self.now a.0 }
    {
        match self.status(a) {
            None => Some(ActionRefusal::NoAction),
            Some(Status::Live) => None,
            Some(Status::Committed | Status::Aborted | Status::Folded) => {
                Some(ActionRefusal::Over)
            },
        }
    }

    /// Why the action can't end its siblings now: `NoAction`, `Over`, `ChildrenLive` or
    /// `NoSiblings`.
    pub fn abort_others_refusal(&self, a: ActionId) -> Option<ActionRefusal>
        ensures { result ≡ abort_others_refusal self.now a.0 }
    {
        match self.commit_refusal(a) {
            None if self.under(a).is_none() => Some(ActionRefusal::NoSiblings),
            refusal => refusal,
        }
    }
}
