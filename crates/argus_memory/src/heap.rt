//! `Heap`: where the values of this project get their memory.
ghost use Rattle.std.specs.Prelude.{⊤};

use crate::budget::Budget;
use crate::count::{Count, is_spent};
use crate::limited::{Limited, Room};
use crate::out_of_memory::OutOfMemory;
use std::alloc::{AllocError, Global};

/// Where memory comes from: the program's own allocator, and a budget for what is taken from it.
///
/// It is one word, and freely copied. A list, a text or a box is made in its [`room`](Heap::room).
///
/// ```text
/// fn main(rt: HostRuntime) -> Result<(), AllocError> {
///     let heap = Heap::new(rt.alloc())?;
///     let mut names = Vec::new(heap.room());
///     ..
/// ```
#[derive(Clone, Copy)]
pub struct Heap {
    inner: Global,
    budget: Budget,
}

impl Heap {
    /// A heap without a limit. Make it once, first in `main`, and copy it.
    ///
    /// `AllocError` comes if the inner allocator refuses the word of its budget.
    pub fn new(inner: Global) -> Result<Heap, AllocError> {
        Ok(Heap::with_budget(inner, Budget::new(inner)?))
    }

    /// It refuses each allocation once the budget is used up.
    pub fn with_budget(inner: Global, budget: Budget) -> Heap {
        Heap { inner, budget }
    }

    /// The allocator for one list, text, box or map of this heap.
    pub fn room(self) -> Room {
        Limited::over(self.inner, Count::of(self.budget))
    }

    /// Takes one from the budget for an allocation that is made outside of rooms, and returns the
    /// allocator to make it with. A collection that takes only `Copy` allocators needs it.
    ///
    /// `OutOfMemory` comes if nothing was left.
    pub fn ask(self) -> Result<Global, OutOfMemory> {
        if is_spent(&Count::of(self.budget)) {
            return Err(OutOfMemory);
        }
        Ok(self.inner)
    }
}

impl Limited<Global> {
    /// The heap that this is a room of: `list.allocator().heap()` is where `list` gets its memory.
    pub fn heap(&self) -> Heap {
        Heap::with_budget(*self.inner(), self.count().budget())
    }
}

impl Clone for Limited<Global> {
    ghost is_infallible = { λ _. ⊤ };

    fn clone(&self) -> Result<Room, AllocError> {
        Ok(self.heap().room())
    }
}
