//! `Resumed`: a guardian that was made from what a reader had.

use crate::read_end::ReadEnd;
use argus_core::Guardian;

/// A guardian that was made from what a reader had.
///
/// ```text
/// let resumed = resume(heap, &mut reader)?;
/// match resumed.end {
///     ReadEnd::Whole => ..,                       // resumed.guardian goes on from there
///     ReadEnd::Fault(fault) => ..,                // the line resumed.lines + 1
///     ..
/// }
/// ```
#[derive(Drop)]
pub struct Resumed {
    pub guardian: Guardian,
    /// How many bytes were taken, from the first on.
    pub bytes: u64,
    /// How many lines these are. So a line at fault is the next one after these.
    pub lines: u64,
    /// How many of the bytes aren't in the guardian's listing: of an opening that refers to objects
    /// that didn't come, those after its longest prefix in which no object refers to one outside
    /// it.
    pub dropped: u64,
    pub end: ReadEnd,
}
