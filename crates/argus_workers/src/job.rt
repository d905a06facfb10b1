//! `Job`: what one worker gets.

use crate::arm_context::ArmContext;
use crate::arm_receipts::ArmReceipts;
use crate::crew::Crew;
use crate::gate::Gate;
use argus_sharing::{Seat, Sharing};
use std::sync::Wait;

/// What one worker gets: its seat, and where its arms' receipts go.
#[derive(Drop)]
pub(crate) struct Job<'a, N: Sharing> {
    pub(crate) seat: &'a mut Seat<N>,
    pub(crate) left: &'a mut ArmReceipts,
}

impl<'a, N: Sharing, R: Wait + Drop, G: Gate> Crew<Job<'a, N>> for ArmContext<'_, N, R, G> {
    // Runs one worker's arms, and notes what each left.
    fn work(&self, job: Job<'a, N>) {
        let Job { seat, left } = job;
        left.outcome = self.run_arms(left.worker, seat, &mut left.receipts, &mut left.ends);
        self.shared.lose_caller(self.rt);
    }

    fn leave_out(&self) {
        self.shared.lose_caller(self.rt);
    }
}
