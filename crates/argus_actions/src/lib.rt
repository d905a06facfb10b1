//! The tree of actions: who was begun under whom, and what became of each.
//!
//! An action is a topaction, a subaction of a parent, or a nested topaction of a creator (Argus
//! Reference Manual, MIT/LCS/TR-400, 1987). It is its own ancestor; the other ancestors of a
//! subaction are those of its parent, and a topaction, nested or not, has no other (Moss, Nested
//! Transactions, MIT/LCS/TR-260, 1981).
#![tactic(auto)]

mod action_error;
mod action_id;
mod action_refusal;
mod action_tree;
mod beginning;
mod node;
mod origin;
mod refusing;
mod status;
mod walk;

pub use action_error::ActionError;
pub use action_id::ActionId;
pub use action_refusal::ActionRefusal;
pub use action_tree::ActionTree;
pub use status::Status;
