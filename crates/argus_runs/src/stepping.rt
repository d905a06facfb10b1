//! The run of steps, one after another, and of the blocks among them.

ghost use Rattle.std.specs.Prelude.{Some, length, ◌≡◌};
ghost use Rattle.argus_language.specs.PlainStep.{block, plain_step, plain_steps};
ghost use Rattle.argus_language.specs.declared.block_kind.BlockKind.TheVariants as opening;
ghost use Rattle.argus_runs.specs.{RunOutcome.Finishes, RunPrefix.StopsEarly};
ghost use Rattle.argus_runs.specs.Running.{run_arm, run_arms, run_step, run_steps};

use crate::accessing::{call_to_test, flow_of, is_yes};
use crate::beginning::{begin, begin_arms};
use crate::caller::Caller;
use crate::ending::finish_block;
use crate::flow::Flow;
use crate::numbers::object_at;
use crate::stopped::Stopped;
use argus_actions::ActionId;
use argus_contents::ObjId;
use argus_entries::Call;
use argus_language::{BlockKind, Lock, Step};
use argus_memory::Heap;

/// Runs steps of an action, or at top level, until one ends the block. `numbers` are the objects
/// that the script's names stand for; a number past them stands for none.
///
/// `told`: what the run comes to, and the state after it, are what the definition says. `early`: if
/// it stops before its end, the state is a prefix of what the run comes to. `kept`: what the
/// caller's calls keep, the run keeps.
///
/// `Stopped`: the caller stopped, or there is no memory for a copy of a change or for the begun
/// arms of a coenter. No call is made after that.
#[cycle(run)]
pub fn run_steps<C: Caller>(
    heap: Heap,
    caller: &mut C,
    numbers: &[ObjId],
    steps: &[Step],
    within: Option<ActionId>,
) -> Result<Flow, Stopped>
    requires ready { C.ready caller.old }
    ensures ready { C.ready caller.new }
    ensures kept { C.preserved caller.old caller.new }
    ensures told { Finishes C.is_determined result (λ f. f)
        (run_steps C.State C.reply C.arm_runner numbers.now (plain_steps steps.now) within
        (C.state caller.old)) (C.state caller.new) }
    ensures early { StopsEarly C.is_determined C.calls_extend C.is_prefix result
        (run_steps C.State C.reply C.arm_runner numbers.now (plain_steps steps.now) within
        (C.state caller.old)) (C.state caller.new) }
{
    for step in steps {
        let flow = run_step(heap, caller, numbers, step, within)?;
        if !flow.goes_on() {
            return Ok(flow);
        }
    }
    Ok(Flow::On)
}

#[cycle(run)]
pub(crate) fn run_step<C: Caller>(
    heap: Heap,
    caller: &mut C,
    numbers: &[ObjId],
    step: &Step,
    within: Option<ActionId>,
) -> Result<Flow, Stopped>
    requires ready { C.ready caller.old }
    ensures ready { C.ready caller.new }
    ensures kept { C.preserved caller.old caller.new }
    ensures told { Finishes C.is_determined result (λ f. f)
        (run_step C.State C.reply C.arm_runner numbers.now (plain_step step.now) within
        (C.state caller.old)) (C.state caller.new) }
    ensures early { StopsEarly C.is_determined C.calls_extend C.is_prefix result
        (run_step C.State C.reply C.arm_runner numbers.now (plain_step step.now) within
        (C.state caller.old)) (C.state caller.new) }
{
    match step {
        Step::Declare => Ok(Flow::On),
        Step::Ask(x, query) => match within {
            None => Ok(Flow::On),
            Some(action) => caller.access(Call::Ask(action, object_at(numbers, *x), *query)),
        },
        Step::Alter(x, change) => match within {
            None => Ok(Flow::On),
            Some(action) => {
                let change = change.duplicate(heap)?;
                caller.alter(action, object_at(numbers, *x), change)
            }
        },
        Step::Leave => Ok(Flow::Leave),
        Step::AbortLeave => Ok(Flow::AbortLeave),
        Step::LeaveAll => Ok(Flow::LeaveAll),
        Step::Block(opening, body) => match *opening {
            BlockKind::Enter(kind) => match begin(caller, kind, within)? {
                None => Ok(Flow::On),
                Some(action) => {
                    let flow = run_steps(heap, caller, numbers, body, Some(action))?;
                    finish_block(caller, action, flow)
                }
            },
            BlockKind::If(lock, x) => match within {
                None => Ok(Flow::On),
                Some(action) => run_if(heap, caller, numbers, lock, x, body, action),
            },
            BlockKind::Coenter => run_coenter(heap, caller, numbers, body, within),
            BlockKind::Arm(_) => match within {
                None => Ok(Flow::On),
                Some(action) => {
                    let flow = run_steps(heap, caller, numbers, body, Some(action))?;
                    finish_block(caller, action, flow)
                }
            },
        },
    }
}

#[cycle(run)]
fn run_if<C: Caller>(
    heap: Heap,
    caller: &mut C,
    numbers: &[ObjId],
    lock: Lock,
    x: u32,
    body: &[Step],
    action: ActionId,
) -> Result<Flow, Stopped>
    requires ready { C.ready caller.old }
    ensures ready { C.ready caller.new }
    ensures kept { C.preserved caller.old caller.new }
    ensures told { Finishes C.is_determined result (λ f. f)
        (run_step C.State C.reply C.arm_runner numbers.now (block (opening.If lock x)
        (plain_steps body.now)) (Some action) (C.state caller.old)) (C.state caller.new) }
    ensures early { StopsEarly C.is_determined C.calls_extend C.is_prefix result
        (run_step C.State C.reply C.arm_runner numbers.now (block (opening.If lock x)
        (plain_steps body.now)) (Some action) (C.state caller.old)) (C.state caller.new) }
{
    let reply = caller.call(call_to_test(lock, action, object_at(numbers, x)))?;
    if is_yes(&reply) {
        return run_steps(heap, caller, numbers, body, Some(action));
    }
    Ok(flow_of(&reply))
}

#[cycle(run)]
fn run_coenter<C: Caller>(
    heap: Heap,
    caller: &mut C,
    numbers: &[ObjId],
    arms: &[Step],
    within: Option<ActionId>,
) -> Result<Flow, Stopped>
    requires ready { C.ready caller.old }
    ensures ready { C.ready caller.new }
    ensures kept { C.preserved caller.old caller.new }
    ensures told { Finishes C.is_determined result (λ f. f)
        (run_step C.State C.reply C.arm_runner numbers.now (block opening.Coenter
        (plain_steps arms.now)) within (C.state caller.old)) (C.state caller.new) }
    ensures early { StopsEarly C.is_determined C.calls_extend C.is_prefix result
        (run_step C.State C.reply C.arm_runner numbers.now (block opening.Coenter
        (plain_steps arms.now)) within (C.state caller.old)) (C.state caller.new) }
{
    let begun = begin_arms(heap, caller, arms, within)?;
    if caller.arms(heap, numbers, arms, begun.as_slice())? {
        return Ok(Flow::On);
    }
    run_begun(heap, caller, numbers, arms, begun.as_slice())
}

// The arms that were begun, one after another.
#[cycle(run)]
fn run_begun<C: Caller>(
    heap: Heap,
    caller: &mut C,
    numbers: &[ObjId],
    arms: &[Step],
    begun: &[Option<ActionId>],
) -> Result<Flow, Stopped>
    requires len { length begun.now ≡ length arms.now }
    requires ready { C.ready caller.old }
    ensures ready { C.ready caller.new }
    ensures kept { C.preserved caller.old caller.new }
    ensures told { Finishes C.is_determined result (λ f. f)
        (run_arms C.State C.reply C.arm_runner numbers.now (plain_steps arms.now) begun.now
        (C.state caller.old)) (C.state caller.new) }
    ensures early { StopsEarly C.is_determined C.calls_extend C.is_prefix result
        (run_arms C.State C.reply C.arm_runner numbers.now (plain_steps arms.now) begun.now
        (C.state caller.old)) (C.state caller.new) }
{
    for i in 0..arms.len() {
        run_if_begun(heap, caller, numbers, &arms[i], begun[i])?;
    }
    Ok(Flow::On)
}

#[cycle(run)]
fn run_if_begun<C: Caller>(
    heap: Heap,
    caller: &mut C,
    numbers: &[ObjId],
    arm: &Step,
    begun: Option<ActionId>,
) -> Result<Flow, Stopped>
    requires ready { C.ready caller.old }
    ensures ready { C.ready caller.new }
    ensures kept { C.preserved caller.old caller.new }
    ensures told { Finishes C.is_determined result (λ f. f)
        (run_arm C.State C.reply C.arm_runner numbers.now (plain_step arm.now) begun
        (C.state caller.old)) (C.state caller.new) }
    ensures early { StopsEarly C.is_determined C.calls_extend C.is_prefix result
        (run_arm C.State C.reply C.arm_runner numbers.now (plain_step arm.now) begun
        (C.state caller.old)) (C.state caller.new) }
{
    match begun {
        None => Ok(Flow::On),
        Some(_) => run_step(heap, caller, numbers, arm, begun),
    }
}
