//! `Signal`: why an operation changed nothing and returned no value.

/// Why an operation changed nothing and returned no value. A signal is an ordinary answer.
///
/// | Signal | When |
/// |---|---|
/// | `Absent` | there is no content, it isn't of the operation's kind, or it is a record without
/// the field |
/// | `Exists` | `Create` of an object that has a content |
/// | `Bounds` | an index is out of bounds, or an array that has to have an item is empty |
/// | `WrongTag` | `TagValue` of another tag than the variant has |
/// | `NegativeSize` | `Trim` to a negative number of items |
/// | `Limits` | the array would break a limit of [`limits`](crate::limits) |
///
/// If several apply, the operation's line in [`Query`](crate::Query) or [`Change`](crate::Change)
/// has the order in which they are tested.
///
/// ```text
/// assert_eq!(rt; ask(heap, &None, &Query::Whole)?, Answer::Signal(Signal::Absent));
/// ```
#[derive(Clone, Copy, Debug, PartialEq, Eq)]
pub enum Signal {
    Absent,
    Exists,
    Bounds,
    WrongTag,
    NegativeSize,
    Limits,
}
