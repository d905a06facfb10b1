//! `Options`: what is asked of a run.

use argus_guardian::Listing;

/// What is asked of a run: how many workers run the arms of coenters, how long an access waits for
/// its lock, which listing is written, and whether a checkpoint is made before it.
///
/// ```text
/// Options { workers: 2, patience: 100, listing: Listing::Journal, checkpoint: true }
/// ```
#[derive(Clone, Copy, Debug, PartialEq, Eq)]
pub struct Options {
    /// 1 to `limits::MAX_WORKERS`. One worker runs the arms of a coenter one after another.
    pub workers: u32,
    /// With several workers: for how many wake-ups an access waits that would be refused with
    /// `Conflict`; at most `limits::MAX_PATIENCE`. All waiting threads are woken after each commit,
    /// abort and abort of siblings that was done. One worker waits for nobody.
    pub patience: u32,
    /// What is listed after the run.
    pub listing: Listing,
    /// Whether the journal is folded into its opening before the listing.
    pub checkpoint: bool,
}
