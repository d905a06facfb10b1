//! `ArmContext`: what all workers of a coenter get.

use crate::arm_running::run_arm;
use crate::gate::Gate;
use crate::worker::Worker;
use argus_actions::ActionId;
use argus_contents::ObjId;
use argus_entries::Call;
use argus_language::{BlockKind, Step};
use argus_memory::{Heap, Room};
use argus_runs::{Caller, Stopped};
use argus_sharing::{Receipt, Seat, Shared, Sharing};
use std::sync::Wait;

/// What all workers of a coenter get: what the team has in common, the arms' steps, the actions
/// that were begun for them, the numbers of the script's objects, and how many workers there are.
#[derive(Drop)]
pub(crate) struct ArmContext<'a, N: Sharing, R: Wait + Drop, G: Gate> {
    pub(crate) rt: &'a R,
    pub(crate) heap: Heap,
    pub(crate) shared: &'a Shared<N, R>,
    pub(crate) gate: &'a G,
    pub(crate) patience: u32,
    pub(crate) arms: &'a [Step],
    pub(crate) begun: &'a [Option<ActionId>],
    pub(crate) numbers: &'a [ObjId],
    pub(crate) workers: usize,
}

impl<N: Sharing, R: Wait + Drop, G: Gate> ArmContext<'_, N, R, G> {
    /// Runs one worker's arms in order, and notes where the receipts of each end. `Stopped`: one of
    /// them was stopped; the others after it were run all the same.
    pub(crate) fn run_arms(
        &self,
        number: usize,
        seat: &mut Seat<N>,
        receipts: &mut Vec<Receipt, Room>,
        ends: &mut Vec<usize, Room>,
    ) -> Result<(), Stopped> {
        let mut worker = self.worker_at(seat, receipts);
        let mut outcome = Ok(());
        for k in 0..self.arms.len() {
            if self.has(number, k) {
                if self.run_one(&mut worker, k).is_err() {
                    outcome = Err(Stopped);
                }
                ends.push(worker.receipts.len())?;
            }
        }
        outcome
    }

    /// Aborts the actions of one worker's arms.
    pub(crate) fn abort_arms(&self, number: usize, seat: &mut Seat<N>) {
        let mut receipts = Vec::new(self.heap.room());
        let mut worker = self.worker_at(seat, &mut receipts);
        for (k, action) in self.begun.iter().enumerate() {
            if let Some(action) = *action
                && self.has(number, k)
            {
                // If there is no memory for this either, the action stays as it is.
                let _ = worker.call(Call::Abort(action));
            }
        }
    }

    // Whether arm k is run by the worker with this number.
    fn has(&self, number: usize, k: usize) -> bool {
        self.workers > 0 && k % self.workers == number
    }

    fn worker_at<'b>(
        &'b self,
        seat: &'b mut Seat<N>,
        receipts: &'b mut Vec<Receipt, Room>,
    ) -> Worker<'b, N, R> {
        Worker {
            rt: self.rt,
            heap: self.heap,
            shared: self.shared,
            patience: self.patience,
            seat,
            receipts,
        }
    }

    // Runs arm k, if it was begun.
    fn run_one(&self, worker: &mut Worker<N, R>, k: usize) -> Result<(), Stopped> {
        if let (Some(Step::Block(BlockKind::Arm(_), body)), Some(Some(action)), Ok(arm)) = (
            self.arms.get(k),
            self.begun.get(k),
            u32::try_from(k),
        ) {
            let done = run_arm(
                self.heap,
                worker,
                self.gate,
                self.numbers,
                body,
                *action,
                arm,
            );
            if done.is_err() {
                // Others may wait for its locks. If there is no memory for this either, they go on
                // waiting.
                let _ = worker.call(Call::Abort(*action));
                return Err(Stopped);
            }
        }
        Ok(())
    }
}
