//! What a journal's writes leave in its objects, for all of them: one walk over the journal begins
//! and ends its actions again in a tree of its own, and another finds each object's writes.
//!
//! ```text
//! let audit = Audit::of(heap, journal, objects)?;
//! let base = audit.base(heap, journal, ObjId(0))?;
//! ```
#![tactic(auto)]

mod audit;
mod owning;
mod reading;
mod replaying;
mod retracing;
mod visiting;
mod writes;

pub use audit::Audit;
pub use replaying::{replay_base, replay_for};
