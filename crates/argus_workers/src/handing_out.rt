//! The arms of an outermost coenter, handed out to workers.

use crate::arm_context::ArmContext;
use crate::arm_receipts::ArmReceipts;
use crate::crew::do_all;
use crate::gate::Gate;
use crate::gathering::gather;
use crate::job::Job;
use crate::team::Team;
use argus_actions::ActionId;
use argus_contents::ObjId;
use argus_language::Step;
use argus_memory::{Heap, Room};
use argus_runs::Stopped;
use argus_sharing::{Receipt, Seat, Sharing};
use std::alloc::AllocError;
use std::sync::Wait;
use std::thread::Threads;

/// Lets the seats' workers run the arms that were begun, and adds their receipts, arm after arm.
/// Arm k is run by worker k mod workers, each worker's arms in order. If no thread can be made for
/// a worker, its arms are stopped.
pub(crate) fn hand_out<
    N: Sharing + Send + Sync,
    R: Threads + Wait + Drop + Send + Sync,
    G: Gate + Sync,
>(
    team: &Team<N, R, G>,
    seats: &mut [Seat<N>],
    numbers: &[ObjId],
    arms: &[Step],
    begun: &[Option<ActionId>],
    receipts: &mut Vec<Receipt, Room>,
) -> Result<(), Stopped> {
    if none_begun(begun) {
        return Ok(());
    }
    // If there are fewer arms than workers, the others have nothing to do.
    let workers = seats.len().min(arms.len());
    let seats = &mut seats[..workers];
    let handed = ArmContext {
        rt: team.rt,
        heap: team.heap,
        shared: team.shared,
        gate: team.gate,
        patience: team.patience,
        arms,
        begun,
        numbers,
        workers,
    };
    if seats.len() == 1 {
        return run_alone(&handed, &mut seats[0], receipts);
    }
    run_together(&handed, seats, receipts)
}

fn none_begun(begun: &[Option<ActionId>]) -> bool {
    begun.iter().all(|action| action.is_none())
}

// One worker runs all arms, on this thread. Their receipts come in script order, so they are added
// right away.
fn run_alone<N: Sharing, R: Wait + Drop, G: Gate>(
    handed: &ArmContext<N, R, G>,
    seat: &mut Seat<N>,
    receipts: &mut Vec<Receipt, Room>,
) -> Result<(), Stopped> {
    let mut ends = Vec::with_capacity(handed.heap.room(), handed.arms.len())?;
    handed.run_arms(0, seat, receipts, &mut ends)
}

// Several workers run the arms. Their receipts are then put into script order.
fn run_together<N: Sharing + Send + Sync, R: Threads + Wait + Drop + Send + Sync, G: Gate + Sync>(
    handed: &ArmContext<N, R, G>,
    seats: &mut [Seat<N>],
    receipts: &mut Vec<Receipt, Room>,
) -> Result<(), Stopped> {
    let mut left = rooms_for(handed.heap, seats.len(), handed.arms.len())?;
    handed
        .shared
        .expect_callers(handed.rt, u32::try_from(seats.len()).ok());
    let ran = run_all(handed, seats, left.as_mut_slice());
    handed.shared.expect_callers(handed.rt, Some(1));
    ran?;
    abort_unrun(handed, seats, left.as_slice());
    gather(handed.heap, left, handed.arms.len(), receipts)
}

// For each worker, room for what its arms leave.
fn rooms_for(
    heap: Heap,
    workers: usize,
    arms: usize,
) -> Result<Vec<ArmReceipts, Room>, AllocError> {
    let mut rooms = Vec::with_capacity(heap.room(), workers)?;
    for worker in 0..workers {
        rooms.push(ArmReceipts::new(heap, worker, arms)?)?;
    }
    Ok(rooms)
}

// Runs each worker's arms, all but the last one's on threads of their own.
fn run_all<N: Sharing + Send + Sync, R: Threads + Wait + Drop + Send + Sync, G: Gate + Sync>(
    handed: &ArmContext<N, R, G>,
    seats: &mut [Seat<N>],
    left: &mut [ArmReceipts],
) -> Result<(), AllocError> {
    let jobs = jobs_for(handed.heap, seats, left)?;
    do_all(handed.rt, handed, jobs);
    Ok(())
}

fn jobs_for<'a, N: Sharing>(
    heap: Heap,
    seats: &'a mut [Seat<N>],
    left: &'a mut [ArmReceipts],
) -> Result<Vec<Job<'a, N>, Room>, AllocError> {
    let mut jobs = Vec::with_capacity(heap.room(), left.len())?;
    for (seat, left) in seats.iter_mut().zip(left) {
        jobs.push(Job { seat, left })?;
    }
    Ok(jobs)
}

// Aborts the actions of the arms of workers that weren't started, since others may wait for what
// they block.
fn abort_unrun<N: Sharing, R: Wait + Drop, G: Gate>(
    handed: &ArmContext<N, R, G>,
    seats: &mut [Seat<N>],
    left: &[ArmReceipts],
) {
    for (seat, left) in seats.iter_mut().zip(left) {
        // A worker that ran has come to at least one arm.
        if left.ends.is_empty() {
            handed.abort_arms(left.worker, seat);
        }
    }
}
