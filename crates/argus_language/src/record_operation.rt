//! `RecordOperation`: an operation on a field of a record.

/// An operation on a field of a record. A value is as it is in the line.
#[derive(Clone, Copy)]
pub(crate) enum RecordOperation<'a> {
    Get,
    Set(&'a str),
}
