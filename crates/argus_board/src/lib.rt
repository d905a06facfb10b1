//! The readers' board: committed contents that threads read without a mutex.
#![tactic(auto)]

mod board;
mod board_change;
mod board_writer;
mod effect;
mod history_prefix;
mod keeper;
mod look_fault;
mod looker;
mod looking;
mod page;
mod pages;
mod published;
mod publishing;
mod table;
mod tells_effects;
mod writing;

pub use board::Board;
pub use board_writer::BoardWriter;
pub use effect::{Effect, duplicate_effect};
pub use keeper::Keeper;
pub use look_fault::LookFault;
pub use looker::Looker;
pub use tells_effects::TellsEffects;
