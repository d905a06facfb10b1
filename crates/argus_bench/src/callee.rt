//! `Callee`: what answers calls.

use crate::bench_error::BenchError;
use crate::reply_summary::ReplySummary;
use argus_guardian::Guardian;
use argus_journal::Call;

/// What answers calls: a guardian, or a seat of one that is shared.
///
/// ```text
/// let told = guardian.answer(Call::BeginTop, false)?;     // ReplySummary::Begun(ActionId(0))
/// ```
pub(crate) trait Callee: Drop {
    /// Makes the call; if it may wait, when no action of another thread is in its way.
    fn answer(&mut self, call: Call, may_wait: bool) -> Result<ReplySummary, BenchError>;
}

impl Callee for Guardian {
    #[inline(always)]
    fn answer(&mut self, call: Call, _may_wait: bool) -> Result<ReplySummary, BenchError> {
        Ok(ReplySummary::by(self.call(call)?))
    }
}
