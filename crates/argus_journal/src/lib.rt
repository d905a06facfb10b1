//! The journal of a guardian: which calls were made with which replies, when such a list is legal,
//! what it says of each object, and the laws of every legal journal.
//!
//! The definitions are in specs/: the answer of a call after a journal (the first refusal that
//! applies, or otherwise what it asked for), legal journals, the history of a journal in the terms
//! of `argus_model`, and who holds an object, what an action sees in it and what its base is. What
//! contracts say of actions is in the program's numbers; those of the history are one more.
//!
//! | Module | Its laws |
//! |---|---|
//! | `laws` | exclusion, one after another, contents that fit, the table of effects |
//! | `next_entry` | what one more entry changes |
//! | `folding` | what a checkpoint keeps |
//! | `worked` | journals worked out |
//!
//! No function of these modules does anything when it is called: each has laws, which hold of every
//! legal journal, whatever its opening.
#![tactic(auto)]

mod chunks;
pub mod folding;
mod journal;
mod kinship;
pub mod laws;
mod legal_journal;
pub mod limits;
pub mod next_entry;
mod owner;
mod owning;
pub mod worked;
pub mod worked_openings;
pub mod worked_orders;
pub mod worked_siblings;

pub use argus_entries::{Call, Entry, Refusal, Reply, write_entry, write_reply};
pub use journal::Journal;
pub use legal_journal::LegalJournal;
pub use owner::Owner;
pub use owning::owner_of;
