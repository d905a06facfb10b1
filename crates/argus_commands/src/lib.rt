//! Scripts: the crate that users name.
//!
//! It re-exports `argus_language` (scripts, parsed), `argus_runs` (a script, run on a guardian),
//! `argus_workers` (a script, run by several workers, and a run, checked by its receipts) and
//! `argus_streams` (readers and writers that are never tried again after a failure).
//!
//! ```text
//! use argus_commands::{FailStop, Gate, parse, run_serial, run_shared};
//! ```
#![tactic(auto)]

pub use argus_language::{
    ActionKind, BlockKind, FaultKind, Lock, ParseError, Script, ScriptFault, Step,
    levels_tell_unmatched_lines, limits, lines_spell_one_script, parse,
};
pub use argus_runs::{RunFault, plays_tell, run_serial, run_without_output, runs_end};
pub use argus_streams::{FailStop, InputError, NotWritten, read_up_to, write_whole};
pub use argus_workers::{
    ArmOutcome, Ended, Gate, NoGate, RunReport, check_run, checked_runs_are_runs, has_risen,
    report_of, run_shared,
};
