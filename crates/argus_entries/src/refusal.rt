//! `Refusal`: why a call is refused.

use thiserror::Error;

/// Why a call is refused. If several apply, the first of this list is returned. A refused call
/// changes nothing, and takes no lock.
///
/// | Refusal | When | Calls |
/// |---|---|---|
/// | `NoAction` | the action wasn't begun | all that name an action |
/// | `Over` | it has committed or was aborted | all that name an action |
/// | `Suspended` | it has a live child | `Commit`, `AbortOthers`, `Ask`, `Alter`, `TestRead`,
/// `TestWrite` |
/// | `NoObject` | the object that it names isn't declared | `Ask`, `Alter`, `TestRead`, `TestWrite` |
/// | `IllTyped` | the operation doesn't suit the object's shape, or has a value that refers to an
/// object which isn't declared | `Ask`, `Alter` |
/// | `Conflict` | the lock rule denies the lock | `Ask` the read lock, `Alter` the write lock |
/// | `TooDeep` | the parent has the greatest depth | `BeginSub` |
/// | `TooMany` | as many are begun or declared as may be | `Declare`, `BeginTop`, `BeginSub`,
/// `BeginNested` |
/// | `NoSiblings` | it has neither parent nor creator | `AbortOthers` |
///
/// ```text
/// assert_eq!(rt; reply, Reply::Refused(Refusal::Conflict));
/// ```
#[derive(Clone, Copy, Debug, PartialEq, Eq, Error)]
pub enum Refusal {
    /// The action wasn't begun.
    #[error("the action isn't begun")]
    NoAction,
    /// The action has committed or was aborted.
    #[error("the action is over")]
    Over,
    /// The action has a live child.
    #[error("the action has a live child")]
    Suspended,
    /// The object that the call names isn't declared.
    #[error("the object isn't declared")]
    NoObject,
    /// The operation doesn't suit the object's shape, or has a value that refers to an object which
    /// isn't declared.
    #[error("the operation doesn't suit the object's shape")]
    IllTyped,
    /// Another action holds the object.
    #[error("another action holds the object")]
    Conflict,
    /// The parent has the greatest depth.
    #[error("the parent is too deep")]
    TooDeep,
    /// The greatest number of actions is begun, or of objects declared.
    #[error("there are too many already")]
    TooMany,
    /// The action has neither parent nor creator.
    #[error("the action has neither parent nor creator")]
    NoSiblings,
}
