//! `ListingError`: why rows have no listing.

use crate::faulty_row::FaultyRow;

/// Why the rows of a log have no listing.
#[derive(Clone, Copy, Debug, PartialEq, Eq)]
pub enum ListingError {
    /// They don't follow from one another: this is the first that doesn't.
    Row(FaultyRow),
    OutOfMemory,
}
