//! Calls of a guardian, their replies, and the entries of both that a journal keeps.
#![tactic(auto)]

mod appending;
mod call;
mod entry;
mod entry_writing;
pub mod laws;
mod operation_writing;
mod refusal;
mod reply;

pub use call::Call;
pub use entry::Entry;
pub use entry_writing::{write_entry, write_reply};
pub use refusal::Refusal;
pub use reply::Reply;
