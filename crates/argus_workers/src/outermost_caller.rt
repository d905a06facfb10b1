//! `OutermostCaller`: a receipt caller that runs the arms of outermost coenters one by one.

use crate::receipt_caller::ReceiptCaller;
use argus_actions::ActionId;
use argus_contents::ObjId;
use argus_entries::{Call, Reply};
use argus_language::Step;
use argus_memory::Heap;
use argus_runs::{Caller, Flow, Stopped};

// Answers the calls outside the arms of outermost coenters, and lets the receipt caller run these
// arms, so that it notes what becomes of each.
#[derive(Drop)]
pub(crate) struct OutermostCaller<'a> {
    pub(crate) receipt_caller: ReceiptCaller<'a>,
}

impl Caller for OutermostCaller<'_> {
    ghost use Rattle.std.specs.Prelude.{Some, false, true, ⊤};
    ghost use Rattle.std.proofs.Common.{rules};
    ghost use Rattle.argus_workers.specs.RunCheck.{CheckState, check_arms, reply_from_receipts};
    ghost use Rattle.argus_workers.specs.State.{check_state_of};

    ghost State = { CheckState };

    ghost state = { λ w. check_state_of w.receipt_caller };

    ghost reply = { reply_from_receipts };

    ghost arm_runner = { Some (check_arms 0) };

    ghost preserved = { λ _ _. ⊤ };

    ghost is_determined = { true };

    ghost is_prefix = { λ _ _. ⊤ };

    ghost calls_extend = { false };

    ghost no_arm_runner = { Prim.search rules };

    ghost prefix_refl = { Prim.search rules };

    ghost prefix_trans = { Prim.search rules };

    ghost call_extends = { Prim.search rules };

    ghost preserved_refl = { Prim.search rules };

    ghost preserved_trans = { Prim.search rules };

    fn call(&mut self, call: Call) -> Result<Reply, Stopped> {
        self.receipt_caller.call(call)
    }

    fn access(&mut self, call: Call) -> Result<Flow, Stopped> {
        self.receipt_caller.access(call)
    }

    fn arms(
        &mut self,
        _heap: Heap,
        numbers: &[ObjId],
        arms: &[Step],
        begun: &[Option<ActionId>],
    ) -> Result<bool, Stopped> {
        for k in 0..arms.len() {
            // A script has far fewer arms, and coenters, than a number counts.
            let Ok(number) = u32::try_from(k) else {
                return Err(Stopped);
            };
            self.receipt_caller
                .run_arm(numbers, &arms[k], begun[k], number)?;
        }
        let Some(coenters) = self.receipt_caller.coenters.checked_add(1) else {
            return Err(Stopped);
        };
        self.receipt_caller.coenters = coenters;
        Ok(true)
    }
}
