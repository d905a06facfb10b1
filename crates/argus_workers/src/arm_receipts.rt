//! `ArmReceipts`: the receipts that one worker's arms leave.

use argus_memory::{Heap, Room};
use argus_runs::Stopped;
use argus_sharing::Receipt;
use std::alloc::AllocError;

/// The receipts that one worker's arms leave.
#[derive(Drop)]
pub(crate) struct ArmReceipts {
    /// The worker's number.
    pub(crate) worker: usize,
    /// The receipts of its first arm, of its second one, and so on.
    pub(crate) receipts: Vec<Receipt, Room>,
    /// For each arm that it has come to, how many receipts there were after it. There is room for
    /// all its arms.
    pub(crate) ends: Vec<usize, Room>,
    /// Whether each arm came to its end. `Stopped`: one was stopped, or the worker hasn't run.
    pub(crate) outcome: Result<(), Stopped>,
}

impl ArmReceipts {
    /// Those of a worker that hasn't run, with room for the ends of this many arms.
    pub(crate) fn new(heap: Heap, worker: usize, arms: usize) -> Result<ArmReceipts, AllocError> {
        Ok(ArmReceipts {
            worker,
            receipts: Vec::new(heap.room()),
            ends: Vec::with_capacity(heap.room(), arms)?,
            outcome: Err(Stopped),
        })
    }
}
