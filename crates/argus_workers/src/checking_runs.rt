//! `check_run`: what receipts in script order show of a run.

ghost use Rattle.std.specs.Prelude.{IfOk, IfSome, map, true, ◌≡◌};
ghost use Rattle.argus_language.specs.Script.{plain_script};
ghost use Rattle.argus_sharing.specs.Receipt.{plain_receipt};
ghost use Rattle.argus_workers.specs.{RunCheck.{IsCheckedRun, IsWhole}, State.check_state_of};

use crate::arm_outcome::ArmOutcome;
use crate::ordering::in_order;
use crate::outermost_caller::OutermostCaller;
use crate::receipt_caller::ReceiptCaller;
use argus_language::Script;
use argus_memory::{Heap, OutOfMemory, Room};
use argus_runs::run_script;
use argus_sharing::Receipt;

/// What receipts in script order show of a run of the script: what became of each arm of each
/// outermost coenter that ran, in script order.
///
/// Script order is that of a run whose arms run one after another: for a coenter the begins of all
/// its arms, then each arm's calls, arm after arm. Two calls are *parallel* if two different arms
/// of one outermost coenter made them; the begin of an arm isn't made by the arm.
///
/// `None` comes if the receipts don't show a run: a call isn't the one that comes next after the
/// replies before it; one is missing, or one too many; of two that aren't parallel the earlier
/// doesn't have the lower number; or an arm's last call didn't end it, such as an abort that is
/// refused though its action isn't over. `OutOfMemory` may come in place of any result. No
/// receipt's call is copied, nor the reply to an access; other replies are, and the script's shapes
/// and changes, one at a time.
///
/// ```text
/// let outcomes = check_run(heap, &script, receipts.as_slice())?;
/// ```
pub fn check_run(
    heap: Heap,
    script: &Script,
    receipts: &[Receipt],
) -> Result<Option<Vec<ArmOutcome, Room>>, OutOfMemory>
    ensures { IfOk result (λ found. IfSome found (λ outcomes. IsCheckedRun (plain_script script.now)
        (map plain_receipt receipts.now) outcomes.items)) }
{
    let mut outermost_caller = OutermostCaller {
        receipt_caller: ReceiptCaller {
            heap,
            left: receipts,
            calls: Vec::with_capacity(heap.room(), receipts.len())?,
            arm: None,
            last: None,
            coenters: 0,
            outcomes: Vec::new(heap.room()),
            unfit: false,
        },
    };
    match run_script(heap, &mut outermost_caller, script) {
        Ok(_numbers) => {
            if is_whole(&outermost_caller.receipt_caller) {
                Ok(Some(outermost_caller.receipt_caller.outcomes))
            } else {
                Ok(None)
            }
        }
        Err(_) if outermost_caller.receipt_caller.unfit => Ok(None),
        Err(_) => Err(OutOfMemory),
    }
}

// Whether all receipts were used up, in order.
fn is_whole(receipt_caller: &ReceiptCaller<'_>) -> bool
    ensures { result ≡ true → IsWhole (check_state_of receipt_caller.now) }
{
    receipt_caller.left.is_empty() && in_order(receipt_caller.calls.as_slice())
}
