//! Scripts, run on a guardian.
#![tactic(auto)]

mod accessing;
mod beginning;
mod caller;
mod ending;
mod flow;
mod laws;
mod numbers;
mod run_fault;
mod running;
mod running_serially;
mod running_without_output;
mod sources;
mod stepping;
mod stopped;
mod writing_guardian;

pub use caller::Caller;
pub use flow::Flow;
pub use laws::{plays_tell, runs_end};
pub use run_fault::RunFault;
pub use running::run_script;
pub use running_serially::run_serial;
pub use running_without_output::run_without_output;
pub use stepping::run_steps;
pub use stopped::Stopped;

/// The pieces of a run, for a caller that runs the arms of coenters in another way.
pub mod pieces {
    pub use crate::accessing::{call_to_test, flow_of, is_yes};
    pub use crate::beginning::{begin, begin_arms};
    pub use crate::ending::finish_block;
    pub use crate::numbers::object_at;
    pub use crate::running::declare;
}
