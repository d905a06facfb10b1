//! `ActionError`: why no action was begun.

ghost use Rattle.std.specs.Prelude.{◌≡◌};
ghost use Rattle.argus_actions.specs.declared.action_error.ActionError.TheVariants.{Refused};

use crate::action_refusal::ActionRefusal;
use thiserror::Error;

/// Why no action was begun; the tree is unchanged. `OutOfMemory` comes only if nothing refuses the
/// call.
///
/// ```text
/// assert_eq!(rt; tree.begin_sub(ActionId(70)),
/// Err(ActionError::Refused(ActionRefusal::NoAction)));
/// ```
#[derive(Clone, Copy, Debug, PartialEq, Eq, Error)]
pub enum ActionError {
    #[error("{0}")]
    Refused(ActionRefusal),
    #[error("out of memory")]
    OutOfMemory,
}

impl From<ActionRefusal> for ActionError {
    ghost from_gives = { λ refusal e. e ≡ Refused refusal };

    fn from(refusal: ActionRefusal) -> ActionError {
        ActionError::Refused(refusal)
    }
}
