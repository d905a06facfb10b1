//! The law of what is shown. The function does nothing: its contract is the law.

ghost use Rattle.argus_workers.specs.Laws.{CheckedRunsAreRuns};

/// Receipts that show a run are that run's: each call is the one that comes next after the replies
/// before it, whichever thread made it. So what holds of a serial run's entries holds of them, too.
pub fn checked_runs_are_runs()
    ensures { CheckedRunsAreRuns }
{}
