//! Who holds an atomic object, and with which content: the locks and versions of one object.
//!
//! The rules are those of nested actions: a lock is granted when every holder of a conflicting lock
//! is an ancestor; a subaction's commit hands its locks and versions to its parent, and an abort
//! drops them (Moss, Nested Transactions, MIT/LCS/TR-260, 1981; Argus Reference Manual,
//! MIT/LCS/TR-400, 1987).
#![tactic(auto)]

mod cell;
mod changing;
mod held_list;
mod holdings;
pub mod laws;
mod object_list;
mod readers;
mod version;
mod versions;

pub use cell::Cell;
pub use holdings::Holdings;
pub use version::Version;
