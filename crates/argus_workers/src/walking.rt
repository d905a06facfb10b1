//! Seat 0's walk through a script, which hands the arms of outermost coenters to workers.
//!
//! It is a walk of its own, made of the runner's pieces, since no method of a trait may start
//! threads over a trait of this repository; so it can't be a `Caller`. The runner runs the arms,
//! and the receipts are checked against the definition of a run afterwards.

use crate::gate::Gate;
use crate::handing_out::hand_out;
use crate::team::Team;
use crate::worker::Worker;
use argus_actions::ActionId;
use argus_contents::ObjId;
use argus_language::{BlockKind, Lock, Script, Step};
use argus_memory::Room;
use argus_runs::pieces::{
    begin, begin_arms, call_to_test, declare, finish_block, flow_of, is_yes, object_at,
};
use argus_runs::{Caller, Flow, Stopped, run_steps};
use argus_sharing::{Receipt, Seat, Sharing};
use std::slice;
use std::sync::Wait;
use std::thread::Threads;

/// Runs the script by all seats. The receipts are in script order.
pub(crate) fn walk<
    N: Sharing + Send + Sync,
    R: Threads + Wait + Drop + Send + Sync,
    G: Gate + Sync,
>(
    team: &Team<N, R, G>,
    seats: &mut [Seat<N>],
    script: &Script,
) -> Result<Vec<Receipt, Room>, Stopped> {
    let Some((seat, others)) = seats.split_first_mut() else {
        return Err(Stopped);
    };
    let mut receipts = Vec::new(team.heap.room());
    let mut first = Worker {
        rt: team.rt,
        heap: team.heap,
        shared: team.shared,
        patience: team.patience,
        seat,
        receipts: &mut receipts,
    };
    let mut numbers = Vec::new(team.heap.room());
    for step in script.steps() {
        if let Step::Declare = step {
            declare(team.heap, &mut first, script.shapes(), &mut numbers)?;
        } else {
            walk_step(team, &mut first, others, numbers.as_slice(), step, None)?;
        }
    }
    Ok(receipts)
}

#[cycle(walk)]
fn walk_steps<N: Sharing + Send + Sync, R: Threads + Wait + Drop + Send + Sync, G: Gate + Sync>(
    team: &Team<N, R, G>,
    first: &mut Worker<N, R>,
    others: &mut [Seat<N>],
    numbers: &[ObjId],
    steps: &[Step],
    within: Option<ActionId>,
) -> Result<Flow, Stopped> {
    for step in steps {
        let flow = walk_step(team, first, others, numbers, step, within)?;
        if !flow.goes_on() {
            return Ok(flow);
        }
    }
    Ok(Flow::On)
}

#[cycle(walk)]
fn walk_step<N: Sharing + Send + Sync, R: Threads + Wait + Drop + Send + Sync, G: Gate + Sync>(
    team: &Team<N, R, G>,
    first: &mut Worker<N, R>,
    others: &mut [Seat<N>],
    numbers: &[ObjId],
    step: &Step,
    within: Option<ActionId>,
) -> Result<Flow, Stopped> {
    match (step, within) {
        (Step::Block(BlockKind::Enter(kind), body), _) => match begin(first, *kind, within)? {
            None => Ok(Flow::On),
            Some(action) => {
                let flow = walk_steps(team, first, others, numbers, body, Some(action))?;
                finish_block(first, action, flow)
            }
        },
        (Step::Block(BlockKind::If(lock, x), body), Some(action)) => {
            match flow_unless_yes(first, *lock, object_at(numbers, *x), action)? {
                None => walk_steps(team, first, others, numbers, body, within),
                Some(flow) => Ok(flow),
            }
        }
        (Step::Block(BlockKind::Coenter, arms), _) => {
            let begun = begin_arms(team.heap, first, arms, within)?;
            hand_out(
                team,
                others,
                numbers,
                arms,
                begun.as_slice(),
                first.receipts,
            )?;
            Ok(Flow::On)
        }
        (Step::Block(BlockKind::If(_, _), _), None)
        | (Step::Block(BlockKind::Arm(_), _), _)
        | (Step::Declare, _)
        | (Step::Ask(_, _), _)
        | (Step::Alter(_, _), _)
        | (Step::Leave, _)
        | (Step::AbortLeave, _)
        | (Step::LeaveAll, _) => {
            run_steps(team.heap, first, numbers, slice::from_ref(step), within)
        }
    }
}

// How the block goes on after a test that didn't return yes; `None` if it did.
fn flow_unless_yes<C: Caller>(
    caller: &mut C,
    lock: Lock,
    object: ObjId,
    action: ActionId,
) -> Result<Option<Flow>, Stopped>
    requires { C.ready caller.old }
    ensures { C.ready caller.new }
{
    let reply = caller.call(call_to_test(lock, action, object))?;
    if is_yes(&reply) {
        return Ok(None);
    }
    Ok(Some(flow_of(&reply)))
}
