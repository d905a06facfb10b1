//! The listings of a guardian, written to a writer.
#![tactic(auto)]

mod appending;
mod auditing;
mod flushing;
mod journal_listing;
pub mod laws;
mod list_error;
mod listing;
mod naming;
mod object_listing;
mod stacking;
mod writing;

pub use list_error::ListError;
pub use listing::Listing;
pub use naming::numbered_names;
pub use writing::write_listing;
