//! How blocks and arms begin.

ghost use Rattle.std.specs.Prelude.{IfOk, length, ◌≡◌};
ghost use Rattle.argus_language.specs.PlainStep.{plain_step, plain_steps};
ghost use Rattle.argus_entries.specs.Call.{plain_call};
ghost use Rattle.argus_runs.specs.{RunOutcome.Finishes, Replies.begin_call, RunPrefix.StopsEarly};
ghost use Rattle.argus_runs.specs.Running.{begin_all, begin_arm, begin_one};

use crate::caller::Caller;
use crate::stopped::Stopped;
use argus_actions::ActionId;
use argus_entries::{Call, Reply};
use argus_language::{ActionKind, BlockKind, Step};
use argus_memory::{Heap, Room};

/// Begins a block or an arm: its action, if it was begun.
///
/// `Stopped`: the caller stopped at the begin.
pub fn begin<C: Caller>(
    caller: &mut C,
    kind: ActionKind,
    within: Option<ActionId>,
) -> Result<Option<ActionId>, Stopped>
    requires ready { C.ready caller.old }
    ensures ready { C.ready caller.new }
    ensures kept { C.preserved caller.old caller.new }
    ensures told { Finishes C.is_determined result (λ b. b)
        (begin_one C.State C.reply C.arm_runner kind within (C.state caller.old))
        (C.state caller.new) }
    ensures early { StopsEarly C.is_determined C.calls_extend C.is_prefix result
        (begin_one C.State C.reply C.arm_runner kind within (C.state caller.old))
        (C.state caller.new) }
{
    match caller.call(call_to_begin(kind, within))? {
        Reply::Begun(action) => Ok(Some(action)),
        Reply::Object(_) | Reply::Answered(_) | Reply::Refused(_) => Ok(None),
    }
}

fn call_to_begin(kind: ActionKind, within: Option<ActionId>) -> Call
    ensures { plain_call result ≡ begin_call kind within }
{
    match (within, kind) {
        (None, ActionKind::Topaction) | (None, ActionKind::Subaction) => Call::BeginTop,
        (Some(creator), ActionKind::Topaction) => Call::BeginNested(creator),
        (Some(parent), ActionKind::Subaction) => Call::BeginSub(parent),
    }
}

fn begin_arm<C: Caller>(
    caller: &mut C,
    arm: &Step,
    within: Option<ActionId>,
) -> Result<Option<ActionId>, Stopped>
    requires ready { C.ready caller.old }
    ensures ready { C.ready caller.new }
    ensures kept { C.preserved caller.old caller.new }
    ensures told { Finishes C.is_determined result (λ b. b) (begin_arm C.State C.reply C.arm_runner
        (plain_step arm.now) within (C.state caller.old)) (C.state caller.new) }
    ensures early { StopsEarly C.is_determined C.calls_extend C.is_prefix result
        (begin_arm C.State C.reply C.arm_runner (plain_step arm.now) within (C.state caller.old))
        (C.state caller.new) }
{
    match arm {
        Step::Block(BlockKind::Arm(kind), _) => begin(caller, *kind, within),
        Step::Block(BlockKind::Enter(_), _)
        | Step::Block(BlockKind::If(_, _), _)
        | Step::Block(BlockKind::Coenter, _)
        | Step::Declare
        | Step::Ask(_, _)
        | Step::Alter(_, _)
        | Step::Leave
        | Step::AbortLeave
        | Step::LeaveAll => Ok(None),
    }
}

/// Begins all arms of a coenter, before any of them runs: the action of each that was begun.
///
/// `Stopped`: the caller stopped at a begin, or there is no memory for the list. What was begun by
/// then stays begun.
pub fn begin_arms<C: Caller>(
    heap: Heap,
    caller: &mut C,
    arms: &[Step],
    within: Option<ActionId>,
) -> Result<Vec<Option<ActionId>, Room>, Stopped>
    requires ready { C.ready caller.old }
    ensures ready { C.ready caller.new }
    ensures kept { C.preserved caller.old caller.new }
    ensures begun { Finishes C.is_determined result (λ v. v.items)
        (begin_all C.State C.reply C.arm_runner (plain_steps arms.now) within (C.state caller.old))
        (C.state caller.new) }
    ensures early { StopsEarly C.is_determined C.calls_extend C.is_prefix result
        (begin_all C.State C.reply C.arm_runner (plain_steps arms.now) within (C.state caller.old))
        (C.state caller.new) }
    ensures len { IfOk result (λ v. length v.items ≡ length arms.now) }
{
    let mut begun = Vec::new(heap.room());
    for arm in arms {
        let action = begin_arm(caller, arm, within)?;
        begun.push(action)?;
    }
    Ok(begun)
}
