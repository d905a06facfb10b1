//! `run_shared`: a script, run by several workers on a shared guardian.

ghost use Rattle.std.specs.Prelude.{IfErr, IfOk, IfSome, length, map, sum_by, ◌+◌, ◌≡◌, ◌≤◌};
ghost use Rattle.argus_language.specs.Script.{plain_script};
ghost use Rattle.argus_sharing.specs.Receipt.{plain_receipt};
ghost use Rattle.argus_runs.specs.declared.run_fault.RunFault.TheVariants.{Memory};
ghost use Rattle.argus_workers.specs.RunCheck.{IsCheckedRun};

use crate::gate::Gate;
use crate::reporting::{has_risen, report_of};
use crate::run_report::RunReport;
use crate::team::Team;
use crate::walking::walk;
use argus_language::Script;
use argus_memory::{Heap, OutOfMemory};
use argus_runs::RunFault;
use argus_sharing::{Seat, Shared, Sharing};
use std::sync::Wait;
use std::thread::Threads;

/// Runs a script by workers. Seat 0 makes the calls outside outermost coenters and begins their
/// arms; arm k of an outermost coenter is run by worker k mod workers, with the seat after its
/// number, each worker's arms in order. A coenter inside an arm is run by that arm's worker. The
/// workers that have an arm run at once, one on this thread and each other one on a thread of its
/// own. Accesses wait for their locks for at most `patience` wake-ups; one that would wait while
/// all other workers wait, so that nobody is left to wake it, is made at once.
///
/// On `Ok` the receipts, in script order, are those of the run. Of two calls that aren't made by
/// two arms of one outermost coenter the earlier has the lower number. Each arm ended as its last
/// call shows (`checked`). The seats made as many calls as there are receipts (`made`). All this is
/// tested when the workers are done.
///
/// | Error | When |
/// |---|---|
/// | `Memory` | there is no memory, for a worker's start too, or a test of the receipts fails |
///
/// Out of memory at seat 0 is returned at once; in an arm it stops that arm, whose action is then
/// aborted if there is memory for that, and the others go on to their end. Each seat's `made` says
/// what it did. If no thread can be made for a worker, that counts as memory refused in its arms.
///
/// `RunFault::Write` never comes. There is one seat more than workers, and at least one worker. It
/// may wait for other threads. Nobody else makes calls meanwhile.
///
/// ```text
/// let report = run_shared(&rt, heap, &shared, &mut seats, &script, &NoGate, 2, 0)?;
/// ```
pub fn run_shared<N: Sharing + Send + Sync, R: Threads + Wait + Drop + Send + Sync, G: Gate + Sync>(
    rt: &R,
    heap: Heap,
    shared: &Shared<N, R>,
    seats: &mut [Seat<N>],
    script: &Script,
    gate: &G,
    workers: u32,
    patience: u32,
) -> Result<RunReport, RunFault>
    requires workers { 1 ≤ workers }
    requires seats { length seats.old ≡ workers + 1 }
    ensures checked { IfOk result (λ report. IsCheckedRun (plain_script script.now)
        (map plain_receipt report.receipts.items) report.outcomes.items) }
    ensures made { IfOk result (λ report. sum_by (λ seat. seat.made) seats.new
        ≡ sum_by (λ seat. seat.made) seats.old + length report.receipts.items) }
    ensures memory { IfErr result (λ fault. fault ≡ Memory) }
{
    let team = Team {
        rt,
        heap,
        shared,
        gate,
        patience,
    };
    let Some(before) = made_by(seats) else {
        return Err(RunFault::Memory);
    };
    shared.expect_callers(rt, Some(1));
    let walked = walk(&team, seats, script);
    shared.expect_callers(rt, None);
    let Ok(receipts) = walked else {
        return Err(RunFault::Memory);
    };
    let Some(after) = made_by(seats) else {
        return Err(RunFault::Memory);
    };
    if !has_risen(before, after, receipts.len()) {
        return Err(RunFault::Memory);
    }
    match report_of(heap, script, receipts) {
        Ok(Some(report)) => Ok(report),
        Ok(None) | Err(OutOfMemory) => Err(RunFault::Memory),
    }
}

// How many calls the seats made; `None` if they are too many to be counted.
fn made_by<N: Sharing>(seats: &[Seat<N>]) -> Option<u128>
    ensures { IfSome result (λ n. n ≡ sum_by (λ seat. seat.made) seats.now) }
{
    let mut made: u128 = 0;
    for seat in seats {
        made = made.checked_add(u128::from(seat.made()))?;
    }
    Some(made)
}
