//! `FaultyRow`: the first row of a log that doesn't follow from those before it.

/// The tables of a log that have its listing.
#[derive(Clone, Copy, Debug, PartialEq, Eq)]
pub enum Table {
    Log,
    Opening,
    Batch,
}

/// What is wrong with a row.
#[derive(Clone, Copy, Debug, PartialEq, Eq)]
pub enum RowFault {
    /// A line of the opening isn't in its place; a batch doesn't begin with the entry that comes
    /// next; or the log's row says that another entry comes next.
    Number,
    /// A column has another type than the format says.
    Kind,
    /// The number of the entry behind the batch is one that a database can't hold.
    TooLarge,
    /// The row hasn't the sum that it says: it was changed, or a row before it.
    Sum,
}

/// The first row of a log that doesn't follow from those before it: its table, its number, and what
/// is wrong with it.
#[derive(Clone, Copy, Debug, PartialEq, Eq)]
pub struct FaultyRow {
    pub table: Table,
    pub row: i64,
    pub fault: RowFault,
}
