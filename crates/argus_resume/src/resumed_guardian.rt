//! `ResumedGuardian`: the guardian of what was taken.

use argus_core::Guardian;

/// The guardian of what was taken, and how much of that was dropped.
///
/// ```text
/// let ResumedGuardian { guardian, dropped } = match resuming.into_guardian() { .. };
/// ```
#[derive(Drop)]
pub struct ResumedGuardian {
    pub guardian: Guardian,
    /// How many of the bytes that were taken aren't in its listing: of an opening that refers to
    /// objects that didn't come, those after its longest prefix in which no object refers to one
    /// outside it.
    pub dropped: u64,
}
