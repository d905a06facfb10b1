//! `Seated`: a seat of a shared guardian, by which calls are made.

use crate::bench_error::BenchError;
use crate::callee::Callee;
use crate::reply_summary::ReplySummary;
use argus_guardian::{CallsEnd, DemandedCall, Seat, Shared, Sharing};
use argus_journal::Call;
use std::sync::Wait;

// More wake-ups than there will be.
const PATIENCE: u32 = u32::MAX;

/// A seat of a shared guardian, by which calls are made. It keeps no receipts.
///
/// ```text
/// let mut client = Client::of(heap, Seated::new(&rt, &shared, seat));
/// let a = client.begin_top()?;
/// ```
#[derive(Drop)]
pub(crate) struct Seated<'a, N: Sharing, R: Wait + Drop> {
    pub(crate) rt: &'a R,
    pub(crate) shared: &'a Shared<N, R>,
    seat: Seat<N>,
}

impl<'a, N: Sharing, R: Wait + Drop> Seated<'a, N, R> {
    pub(crate) fn new(rt: &'a R, shared: &'a Shared<N, R>, seat: Seat<N>) -> Seated<'a, N, R> {
        Seated { rt, shared, seat }
    }

    /// Makes the calls under one lock of the mutex; none may be refused.
    pub(crate) fn answer_each(&mut self, calls: &[DemandedCall]) -> Result<(), BenchError> {
        let Seated { rt, shared, seat } = self;
        match shared.call_each(*rt, seat, calls).end {
            CallsEnd::Whole => Ok(()),
            CallsEnd::Unmet => Err(BenchError::OtherReply),
            CallsEnd::OutOfMemory => Err(BenchError::OutOfMemory),
        }
    }
}

impl<N: Sharing, R: Wait + Drop> Callee for Seated<'_, N, R> {
    #[inline(always)]
    fn answer(&mut self, call: Call, may_wait: bool) -> Result<ReplySummary, BenchError> {
        let Seated { rt, shared, seat } = self;
        let answered = if may_wait {
            shared.answer_waiting(*rt, seat, call, PATIENCE)?
        } else {
            shared.answer(*rt, seat, call)?
        };
        Ok(ReplySummary::by(answered.reply))
    }
}
