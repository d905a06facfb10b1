//! Atomic objects under nested transactions: each call is one step.
#![tactic(auto)]

mod aborting_live;
mod accessing;
mod beginning;
mod calling;
mod checkpoint_error;
mod checkpointing;
mod declaring;
mod effect;
mod ending;
mod engine;
mod guardian;
mod laws;
mod objects;
mod ready_commit;
mod starting;
mod statuses;
mod testing;

pub use checkpoint_error::CheckpointError;
pub use guardian::Guardian;
pub use ready_commit::ReadyCommit;
