//! `Ended`: how an arm ended.

/// How an arm of a coenter ended.
///
/// | Ended | When |
/// |---|---|
/// | `Committed` | its last call was the commit of its action, which was accepted |
/// | `Aborted` | its last call was an abort of its action, which was accepted |
/// | `Refused` | its begin was refused, so it made no call |
/// | `Over` | its last call was refused, since its action was over or was never begun |
///
/// ```text
/// assert_eq!(rt; outcome.ended, Ended::Committed);
/// ```
#[derive(Clone, Copy, Debug, PartialEq, Eq)]
pub enum Ended {
    Committed,
    Aborted,
    Refused,
    Over,
}
