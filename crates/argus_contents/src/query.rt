//! `Query`: an operation that looks at a content.

/// An operation that looks at a content. It needs a read lock.
///
/// Fields and tags are numbers from 0, in the order of the shape's names. Below, `high` is
/// `low + size - 1`. On an absent content, and on a content of another kind than its own, each
/// signals `Absent`.
///
/// | Query | Of | Answer |
/// |---|---|---|
/// | `Whole` | any | `Body` of the content |
/// | `Field(i)` | a record | `Val` of the field; `Absent` if there is none |
/// | `Low`, `High`, `Size` | an array | `Num`; an empty array has the high bound `low - 1` |
/// | `Fetch(i)` | an array | `Bounds` if `i < low` or `i > high`; `Val` of the item |
/// | `Bottom`, `Top` | an array | `Bounds` if it is empty; `Val` of the first, of the last item |
/// | `IsTag(t)` | a variant | `Flag` |
/// | `TagValue(t)` | a variant | `WrongTag` if the tag isn't `t`; `Val` |
///
/// Source: in the manner of the built-in atomic types of the Argus Reference Manual
/// (MIT/LCS/TR-400, 1987); the signals and their order are this project's own.
///
/// ```text
/// let answer = ask(heap, &content, &Query::Fetch(1))?;
/// ```
#[derive(Clone, Copy, Debug, PartialEq, Eq)]
pub enum Query {
    Whole,
    Field(u8),
    Low,
    High,
    Size,
    Fetch(i64),
    Bottom,
    Top,
    IsTag(u8),
    TagValue(u8),
}
