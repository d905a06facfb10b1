//! The laws of runs. The functions do nothing: their contracts are the laws.

ghost use Rattle.argus_runs.specs.Laws.{PlaysTell, RunsEnd};

/// Each script comes to an end after each journal. What a run comes to is a function of both, so
/// there is one journal after it.
pub fn runs_end()
    ensures { RunsEnd }
{}

/// The entries that a run adds to a journal are that run's: each is the call that comes next after
/// the replies before it, and nothing comes after the last.
pub fn plays_tell()
    ensures { PlaysTell }
{}
