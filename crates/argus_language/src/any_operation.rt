//! `AnyOperation`: an operation on any object.

/// An operation on any object. A content is as it is in the line.
#[derive(Clone, Copy)]
pub(crate) enum AnyOperation<'a> {
    Create(&'a str),
    Read,
    Touch,
}
