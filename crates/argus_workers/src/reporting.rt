//! A report of a run, tested against its script and its receipts.

ghost use Rattle.std.specs.Prelude.{IfOk, IfSome, map, true, ◌+◌, ◌↔◌, ◌≡◌};
ghost use Rattle.argus_language.specs.Script.{plain_script};
ghost use Rattle.argus_sharing.specs.Receipt.{plain_receipt};
ghost use Rattle.argus_workers.specs.RunCheck.{IsCheckedRun};

use crate::checking_runs::check_run;
use crate::run_report::RunReport;
use argus_language::Script;
use argus_memory::{Heap, OutOfMemory, Room};
use argus_sharing::Receipt;

/// The receipts, in script order, with what they show; `None` if they don't show a run of the
/// script (`check_run`). `OutOfMemory` may come in place of any result; the receipts are then dropped.
///
/// ```text
/// let report = report_of(heap, &script, receipts)?;
/// ```
pub fn report_of(
    heap: Heap,
    script: &Script,
    receipts: Vec<Receipt, Room>,
) -> Result<Option<RunReport>, OutOfMemory>
    ensures checked { IfOk result (λ found. IfSome found (λ report. IsCheckedRun
        (plain_script script.now)
        (map plain_receipt report.receipts.items) report.outcomes.items)) }
    ensures same { IfOk result (λ found. IfSome found (λ report. report.receipts ≡ receipts)) }
{
    match check_run(heap, script, receipts.as_slice())? {
        Some(outcomes) => Ok(Some(RunReport { outcomes, receipts })),
        None => Ok(None),
    }
}

/// Whether exactly this many calls were made between these two counts.
///
/// ```text
/// if !has_risen(before, after, receipts.len()) {
///     return Err(RunFault::Memory);
/// }
/// ```
pub fn has_risen(before: u128, after: u128, calls: usize) -> bool
    ensures { (result ≡ true) ↔ (after ≡ before + calls) }
{
    match before.checked_add(calls as u128) {
        Some(wanted) => after == wanted,
        None => false,
    }
}
