//! `Figure`: what a part of a run took.

use std::time::Duration;

/// What a part of a run took, and how often it was done.
///
/// ```text
/// let figure = Figure { part: "turns", count: 1000, taken: start.elapsed(rt)? };
/// ```
#[derive(Clone, Copy)]
pub(crate) struct Figure {
    pub(crate) part: &'static str,
    pub(crate) count: u32,
    pub(crate) taken: Duration,
}

impl Figure {
    /// The nanoseconds of each; of all if nothing was counted.
    pub(crate) fn nanos_each(&self) -> f64 {
        self.taken.as_secs_f64() * 1e9 / self.count.max(1) as f64
    }
}
