//! `Owner`: the owner of what an action did.

use argus_actions::ActionId;

/// The owner of what an action did: the action itself until it commits, and then the owner of its
/// parent.
///
/// Source: inheritance of locks (Moss, Nested Transactions, MIT/LCS/TR-260, 1981).
///
/// ```text
/// assert_eq!(rt; owner_of(&journal, ActionId(2)), Some(Owner::Held(ActionId(1))));
/// ```
#[derive(Clone, Copy, Debug, PartialEq, Eq)]
pub enum Owner {
    /// The action was begun before the opening: what it did for good is in the contents there.
    Folded,
    /// Nobody: the action was aborted, or an ancestor of it was.
    Gone,
    /// What it did is there for good.
    Base,
    /// This live action: itself, or an ancestor.
    Held(ActionId),
}
