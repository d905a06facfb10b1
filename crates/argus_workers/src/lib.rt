//! Scripts, run by several workers, and what receipts in script order show of a script's run.
#![tactic(auto)]

mod arm_context;
mod arm_number;
mod arm_outcome;
mod arm_receipts;
mod arm_running;
mod checking_runs;
mod crew;
mod ended;
mod gate;
mod gathering;
mod handing_out;
mod job;
mod laws;
mod made_call;
mod no_gate;
mod ordering;
mod outermost_caller;
mod receipt_caller;
mod reporting;
mod run_report;
mod running_shared;
mod team;
mod walking;
mod worker;

pub use argus_runs::RunFault;
pub use arm_outcome::ArmOutcome;
pub use checking_runs::check_run;
pub use ended::Ended;
pub use gate::Gate;
pub use laws::checked_runs_are_runs;
pub use no_gate::NoGate;
pub use reporting::{has_risen, report_of};
pub use run_report::RunReport;
pub use running_shared::run_shared;
