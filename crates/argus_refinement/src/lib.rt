//! The tree of actions and the cells of objects agree with the history of a journal: laws only, and
//! nothing that runs.
#![tactic(auto)]

pub mod cell_laws;
pub mod tree_laws;
