//! `Worker`: makes calls by one seat.

use argus_actions::ActionId;
use argus_contents::ObjId;
use argus_entries::{Call, Reply};
use argus_language::Step;
use argus_memory::{Heap, OutOfMemory, Room};
use argus_runs::pieces::flow_of;
use argus_runs::{Caller, Flow, Stopped};
use argus_sharing::{Receipt, Seat, Shared, Sharing};
use std::sync::Wait;

/// Makes calls by one seat, and keeps their receipts. Accesses wait for their locks as long as the
/// patience lasts.
#[derive(Drop)]
pub(crate) struct Worker<'a, N: Sharing, R: Wait + Drop> {
    pub(crate) rt: &'a R,
    pub(crate) heap: Heap,
    pub(crate) shared: &'a Shared<N, R>,
    pub(crate) patience: u32,
    pub(crate) seat: &'a mut Seat<N>,
    pub(crate) receipts: &'a mut Vec<Receipt, Room>,
}

// Its replies also depend on other threads' calls, so no clause can say what a run comes to; the
// receipts show it afterwards.
impl<N: Sharing, R: Wait + Drop> Caller for Worker<'_, N, R> {
    ghost use Rattle.std.specs.Prelude.{None, false, ⊤};
    ghost use Rattle.std.proofs.Common.{rules};
    ghost use Rattle.argus_runs.specs.RunOutcome.{mismatched};

    ghost State = { ⊤ };

    ghost state = { λ _. tt };

    ghost reply = { λ _ _. mismatched };

    ghost arm_runner = { None };

    ghost preserved = { λ _ _. ⊤ };

    ghost is_determined = { false };

    ghost is_prefix = { λ _ _. ⊤ };

    ghost calls_extend = { false };

    ghost no_arm_runner = { Prim.search rules };

    ghost prefix_refl = { Prim.search rules };

    ghost prefix_trans = { Prim.search rules };

    ghost call_extends = { Prim.search rules };

    ghost preserved_refl = { Prim.search rules };

    ghost preserved_trans = { Prim.search rules };

    fn call(&mut self, call: Call) -> Result<Reply, Stopped> {
        self.receipts.reserve(1)?;
        let receipt = self.shared.call(self.rt, self.seat, call)?;
        let reply = receipt.reply.duplicate(self.heap);
        self.receipts.push_reserved(receipt);
        Ok(reply?)
    }

    fn access(&mut self, call: Call) -> Result<Flow, Stopped> {
        self.receipts.reserve(1)?;
        match self
            .shared
            .call_waiting(self.rt, self.seat, call, self.patience)
        {
            Ok(receipt) => {
                let flow = flow_of(&receipt.reply);
                self.receipts.push_reserved(receipt);
                Ok(flow)
            }
            Err(OutOfMemory) => Err(Stopped),
        }
    }

    fn arms(
        &mut self,
        _heap: Heap,
        _numbers: &[ObjId],
        _arms: &[Step],
        _begun: &[Option<ActionId>],
    ) -> Result<bool, Stopped> {
        Ok(false)
    }
}
