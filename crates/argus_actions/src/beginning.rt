//! How an action is begun: the refusals come first, then room is made for it.

ghost use Rattle.std.specs.Prelude.{◌≡◌, IfOk, OnErr, OnOk};
ghost use Rattle.argus_actions.specs.declared.origin.Origin.TheVariants.{Nested, Sub, Top};
ghost use Rattle.argus_actions.specs.Refusals.{IsRefusedBy, begin_nested_refusal};
ghost use Rattle.argus_actions.specs.Refusals.{begin_sub_refusal, begin_top_refusal};
ghost use Rattle.argus_actions.specs.Tree.{SameActions, after_begin, next};

use crate::action_error::ActionError;
use crate::action_id::ActionId;
use crate::action_tree::ActionTree;
use argus_memory::OutOfMemory;

impl ActionTree {
    /// Begins a topaction, and returns its number. Refusals: `TooMany`, then `OutOfMemory`.
    pub fn begin_top(&mut self) -> Result<ActionId, ActionError>
        ensures refused { IsRefusedBy (begin_top_refusal self.old) result }
        ensures number { IfOk result (λ a. a.0 ≡ next self.old) }
        ensures ok { OnOk result (SameActions (after_begin self.old Top) self.new) }
        ensures err { OnErr result (self.new ≡ self.old) }
    {
        if let Some(refusal) = self.begin_top_refusal() {
            return Err(ActionError::Refused(refusal));
        }
        match self.reserve() {
            Ok(()) => Ok(self.begin_top_reserved()),
            Err(OutOfMemory) => Err(ActionError::OutOfMemory),
        }
    }

    /// Begins a subaction of a live parent, and returns its number. Refusals: `NoAction`, `Over`,
    /// `TooDeep` if the parent has 64 ancestors, `TooMany`, then `OutOfMemory`.
    pub fn begin_sub(&mut self, parent: ActionId) -> Result<ActionId, ActionError>
        ensures refused { IsRefusedBy (begin_sub_refusal self.old parent.0) result }
        ensures number { IfOk result (λ a. a.0 ≡ next self.old) }
        ensures ok { OnOk result (SameActions (after_begin self.old (Sub parent.0)) self.new) }
        ensures err { OnErr result (self.new ≡ self.old) }
    {
        if let Some(refusal) = self.begin_sub_refusal(parent) {
            return Err(ActionError::Refused(refusal));
        }
        match self.reserve() {
            Ok(()) => Ok(self.begin_sub_reserved(parent)),
            Err(OutOfMemory) => Err(ActionError::OutOfMemory),
        }
    }

    /// Begins a nested topaction of a live creator, and returns its number. It has no ancestor but
    /// itself. Refusals: `NoAction`, `Over`, `TooMany`, then `OutOfMemory`.
    pub fn begin_nested(&mut self, creator: ActionId) -> Result<ActionId, ActionError>
        ensures refused { IsRefusedBy (begin_nested_refusal self.old creator.0) result }
        ensures number { IfOk result (λ a. a.0 ≡ next self.old) }
        ensures ok { OnOk result (SameActions (after_begin self.old (Nested creator.0)) self.new) }
        ensures err { OnErr result (self.new ≡ self.old) }
    {
        if let Some(refusal) = self.begin_nested_refusal(creator) {
            return Err(ActionError::Refused(refusal));
        }
        match self.reserve() {
            Ok(()) => Ok(self.begin_nested_reserved(creator)),
            Err(OutOfMemory) => Err(ActionError::OutOfMemory),
        }
    }
}
