//! A guardian's log in a SQLite database, as docs/DURABLE.md has it: what was acknowledged is there
//! after any crash, in order, once, and nothing is there in part.
#![tactic(auto)]

mod appending;
mod change;
mod changing;
mod end;
mod ending;
mod entry_lines;
mod faulty_row;
mod head;
mod keep_error;
mod kept;
pub mod laws;
mod listing;
mod listing_error;
mod making;
mod row_line;
mod rows;
mod store;
mod summing;

pub use end::End;
pub use faulty_row::{FaultyRow, RowFault, Table};
pub use head::Head;
pub use keep_error::KeepError;
pub use kept::Kept;
pub use listing::listing_text;
pub use listing_error::ListingError;
pub use row_line::RowLine;
pub use store::Store;
pub use summing::log_sum;
