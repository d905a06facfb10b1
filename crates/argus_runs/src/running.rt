//! The run of a whole script.

ghost use Rattle.std.specs.Prelude.{◌≡◌};
ghost use Rattle.argus_language.specs.{PlainStep.plain_step, Script.plain_script};
ghost use Rattle.argus_runs.specs.{RunOutcome.Finishes, RunPrefix.StopsEarly};
ghost use Rattle.argus_runs.specs.Running.{declare_next, is_declaration, run_script};

use crate::caller::Caller;
use crate::numbers::object_of;
use crate::stepping::run_step;
use crate::stopped::Stopped;
use argus_contents::{ObjId, Shape};
use argus_entries::Call;
use argus_language::{Script, Step};
use argus_memory::{Heap, Room};

/// Runs a whole script, and returns the numbers of the objects that its names stand for, in the
/// order of their declarations. If a declaration was refused, its number is 65,535, which no object
/// has.
///
/// Its clauses are those of `run_steps`. `Stopped` comes as there, and if there is no memory for a
/// copy of a shape or for a number.
pub fn run_script<C: Caller>(
    heap: Heap,
    caller: &mut C,
    script: &Script,
) -> Result<Vec<ObjId, Room>, Stopped>
    requires ready { C.ready caller.old }
    ensures ready { C.ready caller.new }
    ensures kept { C.preserved caller.old caller.new }
    ensures told { Finishes C.is_determined result (λ numbers. numbers.items)
        (run_script C.State C.reply C.arm_runner (plain_script script.now) (C.state caller.old))
        (C.state caller.new) }
    ensures early { StopsEarly C.is_determined C.calls_extend C.is_prefix result
        (run_script C.State C.reply C.arm_runner (plain_script script.now) (C.state caller.old))
        (C.state caller.new) }
{
    let mut numbers = Vec::new(heap.room());
    for step in script.steps() {
        if is_declaration(step) {
            declare(heap, caller, script.shapes(), &mut numbers)?;
        } else {
            run_step(heap, caller, numbers.as_slice(), step, None)?;
        }
    }
    Ok(numbers)
}

// Whether the step declares an object.
fn is_declaration(step: &Step) -> bool
    ensures { result ≡ is_declaration (plain_step step.now) }
{
    match step {
        Step::Declare => true,
        Step::Ask(_, _)
        | Step::Alter(_, _)
        | Step::Leave
        | Step::AbortLeave
        | Step::LeaveAll
        | Step::Block(_, _) => false,
    }
}

/// Declares the next object of the script, of these shapes, and adds the number that its name
/// stands for: 65,535, which no object has, if the declaration was refused.
///
/// `Stopped`: the caller stopped at the declaration, or there is no memory for a copy of the shape
/// or for the number.
pub fn declare<C: Caller>(
    heap: Heap,
    caller: &mut C,
    shapes: &[Shape],
    numbers: &mut Vec<ObjId, Room>,
) -> Result<(), Stopped>
    requires ready { C.ready caller.old }
    ensures ready { C.ready caller.new }
    ensures kept { C.preserved caller.old caller.new }
    ensures told { Finishes C.is_determined result (λ _. numbers.new.items)
        (declare_next C.State C.reply C.arm_runner shapes.now numbers.old.items
        (C.state caller.old)) (C.state caller.new) }
    ensures early { StopsEarly C.is_determined C.calls_extend C.is_prefix result
        (declare_next C.State C.reply C.arm_runner shapes.now numbers.old.items
        (C.state caller.old)) (C.state caller.new) }
{
    let Some(shape) = shapes.get(numbers.len()) else {
        return Ok(());
    };
    let reply = caller.call(Call::Declare(shape.duplicate(heap)?))?;
    numbers.push(object_of(&reply))?;
    Ok(())
}
