//! Lines of a journal's listing, read back: those of entries, as the inverse of `write_entry` of
//! `argus_entries`, and those of an opening.
#![tactic(auto)]

mod call_reading;
mod change_reading;
mod choosing;
mod entry_reading;
pub mod laws;
mod line_stop;
mod opening_reading;
mod part_reading;
mod query_reading;
mod read_entry_error;
mod reply_reading;

pub use entry_reading::read_entry;
pub use opening_reading::{folded_numbers, object_line};
pub use read_entry_error::ReadEntryError;
