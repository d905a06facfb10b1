//! A guardian, made again from the lines of its journal.
#![tactic(auto)]

mod entry_lines;
mod entry_reading;
mod frequent_line;
mod frequent_words;
pub mod laws;
mod line_error;
mod line_fault;
mod lines_taken;
mod opened_object;
mod opening_lines;
mod opening_taking;
mod read_end;
mod reading;
mod rebuilding;
mod resumed;
mod resumed_guardian;
mod resuming;
mod stage;
mod staging;
mod taken_end;
mod taken_from;
mod well_formed_calls;
mod well_formed_values;

pub use line_error::LineError;
pub use line_fault::LineFault;
pub use lines_taken::LinesTaken;
pub use read_end::ReadEnd;
pub use reading::resume;
pub use resumed::Resumed;
pub use resumed_guardian::ResumedGuardian;
pub use resuming::Resuming;
pub use taken_end::TakenEnd;
pub use taken_from::TakenFrom;
