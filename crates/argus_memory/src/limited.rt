//! `Limited`: an allocator with a budget, and `Room`, the one of this project.

use crate::count::{Count, is_spent};
use std::alloc::{AllocError, Allocator, Global};

/// An allocator that does what its inner one does, and refuses once its budget is used up.
///
/// A refusal is an `AllocError`, as if the machine had no memory left, and changes nothing.
#[derive(Drop)]
pub struct Limited<B: Allocator> {
    // The proofs in proofs/limited count on this order: the inner allocator, then one word.
    inner: B,
    count: Count,
}

/// What a list, a text, a box or a map gets its memory from: one word, of a [`Heap`](crate::Heap).
///
/// ```text
/// let mut names: Vec<String<Room>, Room> = Vec::new(heap.room());
/// let same = names.allocator().heap();
/// ```
pub type Room = Limited<Global>;

impl<B: Allocator> Limited<B> {
    pub(crate) fn over(inner: B, count: Count) -> Limited<B> {
        Limited { inner, count }
    }

    pub(crate) fn inner(&self) -> &B {
        &self.inner
    }

    pub(crate) fn count(&self) -> &Count {
        &self.count
    }
}

unsafe impl<B: Allocator> Allocator for Limited<B> {
    ghost dealloc_token = { λ room ty ptr. B.dealloc_token room.inner ty ptr };

    fn allocate(&self, size: usize, align: usize) -> Result<*mut u8, AllocError> {
        if is_spent(&self.count) {
            return Err(AllocError);
        }
        self.inner.allocate(size, align)
    }

    unsafe fn deallocate(&self, ptr: *mut u8, size: usize, align: usize) {
        self.inner.deallocate(ptr, size, align);
    }

    unsafe fn grow<T>(
        &self,
        ptr: *mut T,
        len: usize,
        old_cap: usize,
        new_cap: usize,
    ) -> Result<*mut T, AllocError> {
        if is_spent(&self.count) {
            return Err(AllocError);
        }
        self.inner.grow(ptr, len, old_cap, new_cap)
    }

    // Giving back what isn't needed takes nothing from the budget.
    unsafe fn shrink<T>(
        &self,
        ptr: *mut T,
        len: usize,
        old_cap: usize,
        new_cap: usize,
    ) -> Result<*mut T, AllocError> {
        self.inner.shrink(ptr, len, old_cap, new_cap)
    }
}
