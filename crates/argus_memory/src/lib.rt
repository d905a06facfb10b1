//! The allocator of all Argus crates, and the error `OutOfMemory`.
//!
//! Memory comes from a [`Heap`]: one word, freely copied, over the program's allocator. It may have
//! a [`Budget`], past which each allocation is refused. So a user can bound what a guardian takes,
//! and a test can refuse each allocation of a call in turn. A list, a text or a box has a [`Room`]
//! of its heap as its allocator.
//!
//! ```text
//! let heap = Heap::new(rt.alloc())?;               // no limit
//! let mut names = Vec::new(heap.room());
//! let budget = Budget::new(rt.alloc())?;
//! let tight = Heap::with_budget(rt.alloc(), budget);
//! budget.allow(3);                                 // three more allocations, then refusals
//! ```
#![tactic(auto)]

mod budget;
mod count;
mod heap;
mod limited;
mod out_of_memory;

pub use budget::Budget;
pub use heap::Heap;
pub use limited::{Limited, Room};
pub use out_of_memory::OutOfMemory;
