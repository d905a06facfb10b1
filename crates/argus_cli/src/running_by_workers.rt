//! A run by several workers, which share a new guardian.

ghost use Rattle.std.specs.Prelude.{All, IfOk, [], length, true, ◌+◌, ◌≡◌, ◌≤◌};
ghost use Rattle.argus_guardian.specs.Starting.{StartsWith};
ghost use Rattle.argus_cli.specs.{ByWorkers.IsLeftByWorkers, Ranges.IsTeam};
ghost use Rattle.argus_commands.specs.Script.{plain_script};
ghost use Rattle.argus_journal.specs.Opening.{empty};

use argus_commands::{NoGate, Script, checked_runs_are_runs, run_shared};
use argus_guardian::{Guardian, Keeper, Parts, Shared, Sharing};
use argus_values::{Heap, ObjId, OutOfMemory};
use std::marker::Brand;
use std::sync::Wait;
use std::sync::ledger::Blank;
use std::thread::Threads;

/// Runs the script by this many workers on a new guardian that they share, and settles with all
/// seats and all receipts. Accesses wait for their locks, for at most `patience` wake-ups.
///
/// `OutOfMemory`: there is no memory, or a worker can't be started. It is also returned if what the
/// workers did isn't a run of the script, or isn't all that was done to the guardian.
pub(crate) fn run_by_workers<T: Threads + Wait + Copy + Drop + Send + Sync>(
    rt: &T,
    heap: Heap,
    script: &Script,
    workers: u32,
    patience: u32,
) -> Result<Guardian, OutOfMemory>
    requires { IsTeam workers }
    ensures { IfOk result (λ guardian. IsLeftByWorkers (plain_script script.now) guardian) }
{
    let blank = Blank::new(u64::from(workers) + 1);
    share::<Brand, T>(
        rt,
        heap,
        Guardian::new(heap),
        script,
        workers,
        patience,
        blank,
        Keeper::new(),
    )
}

// Shares the guardian among the workers and the thread that begins their arms. The conditions from
// the third on say which sharing this is.
fn share<N: Sharing + Send + Sync, T: Threads + Wait + Copy + Drop + Send + Sync>(
    rt: &T,
    heap: Heap,
    guardian: Guardian,
    script: &Script,
    workers: u32,
    patience: u32,
    blank: Blank,
    keeper: Keeper,
) -> Result<Guardian, OutOfMemory>
    requires workers { IsTeam workers }
    requires fresh { (guardian.opening ≡ empty) × (guardian.entries ≡ []) }
    requires name { blank.name ≡ N.name }
    requires parts { (blank.parts ≡ N.parts) × (blank.parts ≡ workers + 1) }
    requires places { N.places ≡ 0 }
    requires starts { StartsWith N.Board N.start guardian keeper }
    ensures { IfOk result (λ left. IsLeftByWorkers (plain_script script.now) left) }
{
    match Shared::<N, T>::new(*rt, heap, guardian, workers + 1, 0, blank, keeper) {
        Ok(parts) => run_and_settle(rt, heap, parts, script, workers, patience),
        Err(_) => Err(OutOfMemory),
    }
}

// Lets all seats run the script, and settles with all of them and all receipts.
fn run_and_settle<N: Sharing + Send + Sync, T: Threads + Wait + Drop + Send + Sync>(
    rt: &T,
    heap: Heap,
    parts: Parts<N, T>,
    script: &Script,
    workers: u32,
    patience: u32,
) -> Result<Guardian, OutOfMemory>
    requires workers { 1 ≤ workers }
    requires seats { length parts.seats.items ≡ workers + 1 }
    requires unused { All (λ seat. seat.made ≡ 0) parts.seats.items }
    requires start { N.start ≡ 0 }
    ensures { IfOk result (λ left. IsLeftByWorkers (plain_script script.now) left) }
{
    let Parts {
        shared,
        mut seats,
        ..
    } = parts;
    let all = seats.as_mut_slice();
    let Ok(report) = run_shared(rt, heap, &shared, all, script, &NoGate, workers, patience) else {
        return Err(OutOfMemory);
    };
    let Ok(guardian) = shared.settle(seats, report.receipts.as_slice()) else {
        return Err(OutOfMemory);
    };
    if is_from_start(&guardian) {
        guardian.journal_is_legal();
        checked_runs_are_runs();
        Ok(guardian)
    } else {
        Err(OutOfMemory)
    }
}

// Whether nothing went before the guardian's entries, as in a new one. The lock's contract doesn't
// say which guardian comes back.
fn is_from_start(guardian: &Guardian) -> bool
    ensures { result ≡ true → guardian.now.opening ≡ empty }
{
    let journal = guardian.journal().journal();
    if journal.first_entry() > 0 {
        return false;
    }
    if journal.first_action() > 0 {
        return false;
    }
    journal.opening(ObjId(0)).is_none()
}
