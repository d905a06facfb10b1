//! What a journal of nested transactions says happened, and the laws of every lawful history.
//!
//! The definitions are in specs/: events and histories, ancestors, which actions are live, owners,
//! holders of objects, what an action sees, and the serial order. They know contents and operations
//! only through one record, `Meaning`, so that a crate above says once what its own mean.
//!
//! No function here does anything when it is called. Each one is a law: its clauses hold for every
//! `Meaning`, every opening and every history that `Lawful` allows.
//!
//! | Module | Its laws |
//! |---|---|
//! | `locks` | which actions may hold an object together, and which see the same in it |
//! | `one_after_another` | committed and live work gives the same answers in a serial run |
//! | `what_counts` | for whom an action's work counts, and that nothing comes back |
//! | `tables` | the effects of committed topactions, their table, and checkpoints |
//! | `trees` | the actions as rows, and siblings |
//! | `next_event` | what one more event changes |
//! | `second_forms` | that the forms which proofs use are the plain ones |
//! | `worked` | histories worked out |
#![tactic(auto)]

pub mod locks;
pub mod next_event;
pub mod one_after_another;
pub mod second_forms;
pub mod tables;
pub mod trees;
pub mod what_counts;
pub mod worked;
