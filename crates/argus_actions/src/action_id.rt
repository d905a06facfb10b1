//! `ActionId`: the number of an action.

/// The number of an action. Actions are numbered from 0 in the order in which they are begun.
///
/// ```text
/// let first = tree.begin_top()?;
/// assert_eq!(rt; first, ActionId(0));
/// ```
#[derive(Clone, Copy, Debug, PartialEq, Eq, PartialOrd, Ord, Hash)]
pub struct ActionId(pub u32);
