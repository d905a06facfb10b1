//! The programs' parts: a script is read, run on a new guardian, and listed; and a journal's listing
//! is read, checked by running its calls again, and listed in another way.
//!
//! [`run`] goes from the bytes of a script to the listing of the guardian on which it was run, by
//! one worker or by several; [`options`] reads the command line of the program that calls it.
//! [`replay`] goes from the bytes of a journal's listing to a listing of its guardian;
//! [`options_for_replay`] reads the command line of the program `replay`.
#![tactic(auto)]

mod arguments;
mod cli_fault;
mod command;
mod command_line;
mod faulty_line;
pub mod limits;
mod listing;
mod no_options;
mod replay_command_line;
mod replay_error;
mod replay_options;
mod replaying;
mod run_options;
mod running;
mod running_by_workers;
mod text_fault;
mod words;

pub use argus_commands::{FaultKind, ScriptFault};
pub use argus_guardian::Listing;
pub use cli_fault::CliFault;
pub use command_line::options;
pub use faulty_line::FaultyLine;
pub use listing::list;
pub use no_options::NoOptions;
pub use replay_command_line::options_for_replay;
pub use replay_error::ReplayError;
pub use replay_options::{ReplayOptions, ReplayRequest};
pub use replaying::replay;
pub use run_options::Options;
pub use running::run;
pub use text_fault::TextFault;
pub use words::words_given;
