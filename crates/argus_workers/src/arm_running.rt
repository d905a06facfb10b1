//! The run of one arm by its worker.

use crate::gate::Gate;
use argus_actions::ActionId;
use argus_contents::ObjId;
use argus_language::Step;
use argus_memory::Heap;
use argus_runs::pieces::finish_block;
use argus_runs::{Caller, Flow, Stopped, run_steps};

/// Runs the steps of an arm, each after the gate lets it pass, and ends its action.
pub(crate) fn run_arm<C: Caller, G: Gate>(
    heap: Heap,
    caller: &mut C,
    gate: &G,
    numbers: &[ObjId],
    body: &[Step],
    action: ActionId,
    arm: u32,
) -> Result<(), Stopped>
    requires { C.ready caller.old }
    ensures { C.ready caller.new }
{
    let flow = run_gated(heap, caller, gate, numbers, body, action, arm)?;
    finish_block(caller, action, flow)?;
    Ok(())
}

fn run_gated<C: Caller, G: Gate>(
    heap: Heap,
    caller: &mut C,
    gate: &G,
    numbers: &[ObjId],
    body: &[Step],
    action: ActionId,
    arm: u32,
) -> Result<Flow, Stopped>
    requires { C.ready caller.old }
    ensures { C.ready caller.new }
{
    for k in 0..body.len() {
        let Ok(step) = u32::try_from(k) else {
            return Err(Stopped);
        };
        gate.pass(arm, step);
        let flow = run_steps(heap, caller, numbers, &body[k..k + 1], Some(action))?;
        if !flow.goes_on() {
            return Ok(flow);
        }
    }
    Ok(Flow::On)
}
