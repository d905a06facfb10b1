//! `Latencies`: how long calls took.

use argus_values::{Heap, OutOfMemory, Room};
use std::time::Duration;

// So many nanoseconds have one place. A call that took a millisecond or longer has the last.
const STEP: u64 = 250;

const PLACES: usize = 4001;

/// How many calls took how many quarters of a microsecond.
///
/// ```text
/// let mut latencies = Latencies::new(heap)?;
/// latencies.add(Duration::from_nanos(600));
/// latencies.most_of_99()                                  // 500 ns
/// ```
#[derive(Drop)]
pub(crate) struct Latencies {
    counts: Vec<u32, Room>,
    all: u64,
}

impl Latencies {
    /// Of no call.
    pub(crate) fn new(heap: Heap) -> Result<Latencies, OutOfMemory> {
        let counts = Vec::from_elem(heap.room(), 0u32, PLACES)?;
        Ok(Latencies { counts, all: 0 })
    }

    /// Counts a call that took so long.
    pub(crate) fn add(&mut self, taken: Duration) {
        let nanos = u64::try_from(taken.as_nanos()).unwrap_or(u64::MAX);
        let place = (nanos / STEP).min(4000) as usize;
        if let Some(count) = self.counts.get_mut(place) {
            *count = count.saturating_add(1);
            self.all = self.all.saturating_add(1);
        }
    }

    /// What 99 of 100 calls took at most.
    pub(crate) fn most_of_99(&self) -> Duration {
        let (mut left, mut nanos) = (self.all, 0u64);
        for count in &self.counts {
            left = left.saturating_sub(u64::from(*count));
            if left <= self.all / 100 {
                break;
            }
            nanos = nanos.saturating_add(STEP);
        }
        Duration::from_nanos(nanos)
    }
}
