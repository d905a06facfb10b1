//! `ArrayOperation`: an operation on an array.

/// An operation on an array. A value is as it is in the line.
#[derive(Clone, Copy)]
pub(crate) enum ArrayOperation<'a> {
    Low,
    High,
    Size,
    Bottom,
    Top,
    Fetch(i64),
    Store(i64, &'a str),
    Addh(&'a str),
    Addl(&'a str),
    Remh,
    Reml,
    SetLow(i64),
    Trim(i64, i64),
}
