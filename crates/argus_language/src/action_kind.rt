//! `ActionKind`: what kind of action a block or an arm is.

/// What kind of action a block or an arm is.
///
/// | Words | Kind |
/// |---|---|
/// | `enter topaction`, the arm line `topaction` | `Topaction`: a topaction, nested if it is in an
/// action |
/// | `enter action`, the arm line `action` | `Subaction` |
///
/// ```text
/// BlockKind::Enter(ActionKind::Subaction)          // enter action
/// ```
#[derive(Clone, Copy, Debug, PartialEq, Eq)]
pub enum ActionKind {
    Topaction,
    Subaction,
}
