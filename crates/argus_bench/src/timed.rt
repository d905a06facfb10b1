//! `Timed`: a seat of a shared guardian each of whose calls is timed.

use crate::bench_error::BenchError;
use crate::callee::Callee;
use crate::latencies::Latencies;
use crate::reply_summary::ReplySummary;
use crate::seated::Seated;
use argus_guardian::Sharing;
use argus_journal::Call;
use std::rt::Clock;
use std::sync::Wait;
use std::time::Instant;

/// A seat of a shared guardian each of whose calls is timed.
///
/// ```text
/// let latencies = Latencies::new(heap)?;
/// let mut client = Client::of(heap, Timed { callee, latencies });
/// ```
#[derive(Drop)]
pub(crate) struct Timed<'a, N: Sharing, R: Wait + Clock + Drop> {
    pub(crate) callee: Seated<'a, N, R>,
    pub(crate) latencies: Latencies,
}

impl<N: Sharing, R: Wait + Clock + Drop> Callee for Timed<'_, N, R> {
    fn answer(&mut self, call: Call, may_wait: bool) -> Result<ReplySummary, BenchError> {
        let start = Instant::now(self.callee.rt)?;
        let told = self.callee.answer(call, may_wait)?;
        self.latencies.add(start.elapsed(self.callee.rt)?);
        Ok(told)
    }
}
