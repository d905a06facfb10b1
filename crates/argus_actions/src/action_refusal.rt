//! `ActionRefusal`: why a call of the tree was refused, whatever the memory.

use thiserror::Error;

/// Why a call was refused. The first that applies is returned, in this order; the tree is
/// unchanged.
///
/// | Refusal | When | Calls |
/// |---|---|---|
/// | `NoAction` | the action was not begun | all that name one |
/// | `Over` | it has committed or aborted, or is folded | all that name one |
/// | `ChildrenLive` | it has a live subaction or a live nested topaction | `commit`, `abort_others`
/// |
/// | `TooDeep` | the parent has 64 ancestors, itself among them | `begin_sub` |
/// | `TooMany` | 1,000,000 actions were begun, folded ones among them | `begin_top`, `begin_sub`,
/// `begin_nested` |
/// | `NoSiblings` | it has neither parent nor creator | `abort_others` |
///
/// ```text
/// assert_eq!(rt; tree.commit(ActionId(70)), Err(ActionRefusal::NoAction));
/// ```
#[derive(Clone, Copy, Debug, PartialEq, Eq, Error)]
pub enum ActionRefusal {
    #[error("no such action was begun")]
    NoAction,
    #[error("the action is over")]
    Over,
    #[error("the action has a live child")]
    ChildrenLive,
    #[error("the action would have too many ancestors")]
    TooDeep,
    #[error("too many actions were begun")]
    TooMany,
    #[error("the action has neither parent nor creator")]
    NoSiblings,
}
