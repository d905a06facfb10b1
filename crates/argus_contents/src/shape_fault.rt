//! `ShapeFault`: why a shape can't be made.

use thiserror::Error;

/// Why a [`Shape`](crate::Shape) can't be made. If several apply, anywhere in the shape, the first
/// of this list is returned.
///
/// ```text
/// match Shape::rec(Vec::new(heap.room())) {
///     Ok(shape) => ..,
///     Err(fault) => ..,                       // here: ShapeFault::NoNames
/// }
/// ```
#[derive(Clone, Copy, Debug, PartialEq, Eq, Error)]
pub enum ShapeFault {
    /// A name comes twice in one list of names.
    #[error("a name stands twice in one list of names")]
    NameTwice,
    /// A list of names is empty.
    #[error("a list of names is empty")]
    NoNames,
    /// A list of names has more than 64.
    #[error("a list of names has more than 64")]
    TooManyNames,
    /// A type has a depth of more than 16.
    #[error("a type has a depth of more than 16")]
    TooDeep,
}
