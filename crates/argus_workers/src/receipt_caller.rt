//! `ReceiptCaller`: answers a run's calls from receipts.

ghost use Rattle.std.specs.{Prelude.{IfOk, None, OnOk, ◌≡◌}, Option.option_map};
ghost use Rattle.argus_language.specs.PlainStep.{plain_step};
ghost use Rattle.argus_entries.specs.{Call.plain_call, Reply.plain_reply, Same.same_call};
ghost use Rattle.argus_runs.specs.{RunOutcome.finished, Running.run_arm};
ghost use Rattle.argus_runs.specs.declared.flow.Flow.TheVariants.{On};
ghost use Rattle.argus_sharing.specs.Receipt.{plain_receipt};
ghost use Rattle.argus_workers.specs.Outcomes.{ended_as, ended_by_call, ended_by_reply};
ghost use Rattle.argus_workers.specs.RunCheck.{CheckState, check_arm, reply_from_receipts};
ghost use Rattle.argus_workers.specs.State.{check_state_of};

use crate::arm_number::ArmNumber;
use crate::arm_outcome::ArmOutcome;
use crate::ended::Ended;
use crate::made_call::MadeCall;
use argus_actions::ActionId;
use argus_contents::ObjId;
use argus_entries::{Call, Refusal, Reply};
use argus_language::Step;
use argus_memory::{Heap, Room};
use argus_runs::pieces::flow_of;
use argus_runs::{Caller, Flow, Stopped, run_steps};
use argus_sharing::Receipt;
use std::slice;

// Answers each call from the next receipt, which has to be its own, and notes who made it. Arms of
// coenters run one after another.
#[derive(Drop)]
pub(crate) struct ReceiptCaller<'a> {
    pub(crate) heap: Heap,
    // The receipts that are still to come.
    pub(crate) left: &'a [Receipt],
    pub(crate) calls: Vec<MadeCall, Room>,
    // The arm that runs, and the receipt of its last call so far.
    pub(crate) arm: Option<ArmNumber>,
    pub(crate) last: Option<&'a Receipt>,
    // The outermost coenters that ran, and what became of their arms.
    pub(crate) coenters: u32,
    pub(crate) outcomes: Vec<ArmOutcome, Room>,
    // The next receipt wasn't the call's own, or an arm's last one didn't end it.
    pub(crate) unfit: bool,
}

impl Caller for ReceiptCaller<'_> {
    ghost use Rattle.std.specs.Prelude.{None, false, true, ⊤};
    ghost use Rattle.std.proofs.Common.{rules};
    ghost use Rattle.argus_workers.specs.RunCheck.{CheckState, reply_from_receipts};
    ghost use Rattle.argus_workers.specs.State.{check_state_of};

    ghost State = { CheckState };

    ghost state = { check_state_of };

    ghost reply = { reply_from_receipts };

    ghost arm_runner = { None };

    ghost preserved = { λ _ _. ⊤ };

    ghost is_determined = { true };

    ghost is_prefix = { λ _ _. ⊤ };

    ghost calls_extend = { false };

    ghost no_arm_runner = { Prim.search rules };

    ghost prefix_refl = { Prim.search rules };

    ghost prefix_trans = { Prim.search rules };

    ghost call_extends = { Prim.search rules };

    ghost preserved_refl = { Prim.search rules };

    ghost preserved_trans = { Prim.search rules };

    fn call(&mut self, call: Call) -> Result<Reply, Stopped> {
        let receipt = self.next_receipt(&call)?;
        Ok(receipt.reply.duplicate(self.heap)?)
    }

    fn access(&mut self, call: Call) -> Result<Flow, Stopped> {
        let receipt = self.next_receipt(&call)?;
        Ok(flow_of(&receipt.reply))
    }

    fn arms(
        &mut self,
        _heap: Heap,
        _numbers: &[ObjId],
        _arms: &[Step],
        _begun: &[Option<ActionId>],
    ) -> Result<bool, Stopped> {
        Ok(false)
    }
}

impl<'a> ReceiptCaller<'a> {
    // The next receipt, which has to be the call's own; it is used up.
    fn next_receipt(&mut self, call: &Call) -> Result<&'a Receipt, Stopped>
        ensures { IfOk result (λ receipt. reply_from_receipts (plain_call call.now)
            (check_state_of self.old)
            ≡ finished (plain_reply receipt.now.reply) (check_state_of self.new)) }
    {
        match self.left.split_first() {
            Some((receipt, rest)) if is_of(receipt, call) => {
                self.calls.push(MadeCall {
                    arm: self.arm,
                    at: receipt.at,
                })?;
                self.left = rest;
                self.last = Some(receipt);
                Ok(receipt)
            }
            Some(_) | None => {
                self.unfit = true;
                Err(Stopped)
            }
        }
    }

    // Runs an arm of an outermost coenter, if it was begun, and notes what became of it.
    pub(crate) fn run_arm(
        &mut self,
        numbers: &[ObjId],
        arm: &Step,
        begun: Option<ActionId>,
        number: u32,
    ) -> Result<(), Stopped>
        ensures { OnOk result (check_arm number numbers.now (plain_step arm.now) begun
            (check_state_of self.old) ≡ finished On (check_state_of self.new)) }
    {
        self.arm = Some(ArmNumber {
            coenter: self.coenters,
            arm: number,
        });
        self.last = None;
        self.run_begun(numbers, arm, begun)?;
        let Some(ended) = ended_as(begun, self.last) else {
            self.unfit = true;
            return Err(Stopped);
        };
        self.outcomes.push(ArmOutcome {
            coenter: self.coenters,
            arm: number,
            action: begun,
            ended,
        })?;
        self.arm = None;
        Ok(())
    }

    fn run_begun(
        &mut self,
        numbers: &[ObjId],
        arm: &Step,
        begun: Option<ActionId>,
    ) -> Result<Flow, Stopped>
        ensures { IfOk result (λ f. run_arm CheckState reply_from_receipts None numbers.now
            (plain_step arm.now) begun
            (check_state_of self.old) ≡ finished f (check_state_of self.new)) }
    {
        match begun {
            None => Ok(Flow::On),
            Some(_) => run_steps(self.heap, self, numbers, slice::from_ref(arm), begun),
        }
    }
}

fn is_of(receipt: &Receipt, call: &Call) -> bool
    ensures { result ≡ same_call (plain_call receipt.now.call) (plain_call call.now) }
{
    receipt.call == *call
}

// How an arm ended, by its action, if it was begun, and by its last call.
fn ended_as(action: Option<ActionId>, last: Option<&Receipt>) -> Option<Ended>
    ensures { result ≡ ended_as action (option_map (λ r. (plain_receipt r.now).entry) last.entry) }
{
    match (action, last) {
        (None, _) => Some(Ended::Refused),
        (Some(_), None) => None,
        (Some(action), Some(receipt)) => ended_by(action, receipt),
    }
}

fn ended_by(action: ActionId, receipt: &Receipt) -> Option<Ended>
    ensures { result ≡ ended_by_reply action (plain_call receipt.now.call)
        (plain_reply receipt.now.reply) }
{
    match &receipt.reply {
        Reply::Refused(Refusal::NoAction) | Reply::Refused(Refusal::Over) => Some(Ended::Over),
        Reply::Refused(Refusal::Suspended)
        | Reply::Refused(Refusal::NoObject)
        | Reply::Refused(Refusal::IllTyped)
        | Reply::Refused(Refusal::Conflict)
        | Reply::Refused(Refusal::TooDeep)
        | Reply::Refused(Refusal::TooMany)
        | Reply::Refused(Refusal::NoSiblings) => None,
        Reply::Object(_) | Reply::Begun(_) | Reply::Answered(_) => {
            ended_by_call(action, &receipt.call)
        }
    }
}

// How it ended, if this was its last call and was accepted.
fn ended_by_call(action: ActionId, call: &Call) -> Option<Ended>
    ensures { result ≡ ended_by_call action (plain_call call.now) }
{
    match call {
        Call::Commit(of) if of.0 == action.0 => Some(Ended::Committed),
        Call::Abort(of) if of.0 == action.0 => Some(Ended::Aborted),
        Call::Declare(_)
        | Call::BeginTop
        | Call::BeginSub(_)
        | Call::BeginNested(_)
        | Call::Commit(_)
        | Call::Abort(_)
        | Call::AbortOthers(_)
        | Call::Ask(_, _, _)
        | Call::Alter(_, _, _)
        | Call::TestRead(_, _)
        | Call::TestWrite(_, _) => None,
    }
}
