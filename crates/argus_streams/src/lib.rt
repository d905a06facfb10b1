//! Readers and writers that are never tried again after a failure.
#![tactic(auto)]

mod fail_stop;
mod input;
mod input_error;
mod output;

pub use fail_stop::FailStop;
pub use input::read_up_to;
pub use input_error::InputError;
pub use output::{NotWritten, write_whole};
