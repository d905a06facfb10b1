//! How a block or an arm ends.

ghost use Rattle.std.specs.Prelude.{true, ◌≡◌};
ghost use Rattle.argus_entries.specs.Call.{abort};
ghost use Rattle.argus_runs.specs.{RunOutcome.Finishes, Replies.is_over, RunPrefix.StopsEarly};
ghost use Rattle.argus_runs.specs.Running.{commit_block, finish, give_up, then_on};
ghost use Rattle.argus_runs.specs.declared.flow.Flow.TheVariants.{LeaveAll};

use crate::caller::Caller;
use crate::flow::Flow;
use crate::stopped::Stopped;
use argus_actions::ActionId;
use argus_entries::{Call, Refusal, Reply};

/// The end of a block or an arm with this flow: how the block around it goes on.
///
/// `Stopped`: the caller stopped at the commit or at an abort.
pub fn finish_block<C: Caller>(
    caller: &mut C,
    action: ActionId,
    flow: Flow,
) -> Result<Flow, Stopped>
    requires ready { C.ready caller.old }
    ensures ready { C.ready caller.new }
    ensures kept { C.preserved caller.old caller.new }
    ensures told { Finishes C.is_determined result (λ f. f)
        (finish C.State C.reply C.arm_runner action flow (C.state caller.old))
        (C.state caller.new) }
    ensures early { StopsEarly C.is_determined C.calls_extend C.is_prefix result
        (finish C.State C.reply C.arm_runner action flow (C.state caller.old))
        (C.state caller.new) }
{
    match flow {
        Flow::On | Flow::Leave => end_by_commit(caller, action),
        Flow::AbortLeave => end_by_abort(caller, action),
        Flow::LeaveAll => end_with_others(caller, action),
        Flow::Refused(why) => end_refused(caller, action, why),
    }
}

fn end_by_abort<C: Caller>(caller: &mut C, action: ActionId) -> Result<Flow, Stopped>
    requires ready { C.ready caller.old }
    ensures ready { C.ready caller.new }
    ensures kept { C.preserved caller.old caller.new }
    ensures told { Finishes C.is_determined result (λ f. f) (then_on C.State C.reply C.arm_runner
        (abort action.0) (C.state caller.old)) (C.state caller.new) }
    ensures early { StopsEarly C.is_determined C.calls_extend C.is_prefix result
        (then_on C.State C.reply C.arm_runner (abort action.0) (C.state caller.old))
        (C.state caller.new) }
{
    caller.call(Call::Abort(action))?;
    Ok(Flow::On)
}

// A call of the block was refused.
fn end_refused<C: Caller>(caller: &mut C, action: ActionId, why: Refusal) -> Result<Flow, Stopped>
    requires ready { C.ready caller.old }
    ensures ready { C.ready caller.new }
    ensures kept { C.preserved caller.old caller.new }
    ensures told { Finishes C.is_determined result (λ f. f)
        (give_up C.State C.reply C.arm_runner action why (C.state caller.old))
        (C.state caller.new) }
    ensures early { StopsEarly C.is_determined C.calls_extend C.is_prefix result
        (give_up C.State C.reply C.arm_runner action why (C.state caller.old))
        (C.state caller.new) }
{
    if is_over(why) {
        return Ok(Flow::On);
    }
    end_by_abort(caller, action)
}

fn end_by_commit<C: Caller>(caller: &mut C, action: ActionId) -> Result<Flow, Stopped>
    requires ready { C.ready caller.old }
    ensures ready { C.ready caller.new }
    ensures kept { C.preserved caller.old caller.new }
    ensures told { Finishes C.is_determined result (λ f. f)
        (commit_block C.State C.reply C.arm_runner action (C.state caller.old))
        (C.state caller.new) }
    ensures early { StopsEarly C.is_determined C.calls_extend C.is_prefix result
        (commit_block C.State C.reply C.arm_runner action (C.state caller.old))
        (C.state caller.new) }
{
    match caller.call(Call::Commit(action))? {
        Reply::Refused(why) => end_refused(caller, action, why),
        Reply::Object(_) | Reply::Begun(_) | Reply::Answered(_) => Ok(Flow::On),
    }
}

// The arm ends all its siblings, and commits.
fn end_with_others<C: Caller>(caller: &mut C, action: ActionId) -> Result<Flow, Stopped>
    requires ready { C.ready caller.old }
    ensures ready { C.ready caller.new }
    ensures kept { C.preserved caller.old caller.new }
    ensures told { Finishes C.is_determined result (λ f. f)
        (finish C.State C.reply C.arm_runner action LeaveAll (C.state caller.old))
        (C.state caller.new) }
    ensures early { StopsEarly C.is_determined C.calls_extend C.is_prefix result
        (finish C.State C.reply C.arm_runner action LeaveAll (C.state caller.old))
        (C.state caller.new) }
{
    match caller.call(Call::AbortOthers(action))? {
        Reply::Refused(why) => end_refused(caller, action, why),
        Reply::Object(_) | Reply::Begun(_) | Reply::Answered(_) => end_by_commit(caller, action),
    }
}

// Whether the action is over, or was never begun, so that it needs no end.
fn is_over(why: Refusal) -> bool
    ensures { result ≡ is_over why }
{
    match why {
        Refusal::NoAction | Refusal::Over => true,
        Refusal::Suspended
        | Refusal::NoObject
        | Refusal::IllTyped
        | Refusal::Conflict
        | Refusal::TooDeep
        | Refusal::TooMany
        | Refusal::NoSiblings => false,
    }
}
