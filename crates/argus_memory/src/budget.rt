//! `Budget`: how many allocations are left.

use std::alloc::{AllocError, Global};
use std::sync::atomic::{AtomicU64, Ordering};

// From here on a count means no limit.
pub(crate) const UNLIMITED: u64 = 1 << 62;

/// How many allocations a [`Heap`](crate::Heap) may still make. All copies share one count.
///
/// The count is one word that is never freed, so that a heap can be copied into every value. An
/// allocation or a growth takes one, whatever its size; giving memory back takes none.
///
/// ```text
/// let budget = Budget::new(rt.alloc())?;
/// budget.allow(0);                       // the next allocation is refused
/// budget.lift();                         // and from here on none is
/// ```
#[derive(Clone, Copy)]
pub struct Budget {
    pub(crate) left: &'static AtomicU64,
}

impl Budget {
    /// A budget without a limit.
    ///
    /// `AllocError` comes if the inner allocator refuses the word that holds the count.
    pub fn new(inner: Global) -> Result<Budget, AllocError> {
        let left: &'static AtomicU64 = Box::leak(Box::new(inner, AtomicU64::new(UNLIMITED))?);
        Ok(Budget { left })
    }

    /// Allows this many further allocations, and then refuses each one; 2^62 and more are no limit.
    pub fn allow(&self, allocations: u64) {
        self.left.store(allocations, Ordering::SeqCst);
    }

    /// Removes the limit.
    pub fn lift(&self) {
        self.allow(UNLIMITED);
    }

    /// How many allocations are left; `None` if there is no limit.
    pub fn left(&self) -> Option<u64> {
        let left = self.left.load(Ordering::SeqCst);
        if left < UNLIMITED { Some(left) } else { None }
    }
}
