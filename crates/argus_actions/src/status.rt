//! `Status`: what has become of an action.

ghost use Rattle.std.specs.Prelude.{◌≡◌};
ghost use Rattle.argus_actions.specs.Row.{is_live};

/// What has become of an action that was begun.
///
/// | Status | Since |
/// |---|---|
/// | `Live` | it was begun |
/// | `Committed` | it committed, and none of its ancestors has aborted |
/// | `Aborted` | it or an ancestor of it aborted, whether it had committed or not |
/// | `Folded` | the tree was made: its numbers begin above this action's |
///
/// ```text
/// let a = tree.begin_top()?;
/// tree.commit(a)?;
/// assert_eq!(rt; tree.status(a), Some(Status::Committed));
/// ```
#[derive(Clone, Copy, Debug, PartialEq, Eq, Hash)]
pub enum Status {
    Live,
    Committed,
    Aborted,
    Folded,
}

impl Status {
    /// Whether the action has neither committed nor aborted.
    pub fn is_live(self) -> bool
        ensures { result ≡ is_live self }
    {
        match self {
            Status::Live => true,
            Status::Committed | Status::Aborted | Status::Folded => false,
        }
    }
}
