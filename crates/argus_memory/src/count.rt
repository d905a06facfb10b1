//! `Count`: where a budget's count is, as an allocator holds it.
ghost use denote.Sharing.{said};
ghost use Rattle.argus_memory.specs.Count.{lasts};

use crate::budget::{Budget, UNLIMITED};
use std::marker::{Model, Send, Sync};
use std::sync::atomic::{AtomicU64, Ordering};

// The word of a budget, behind a raw pointer. It means the same as a `&'static`. But for a type
// with a reference in it the check writes out the whole structure at each step of each function,
// and every list has an allocator.
#[derive(Drop)]
pub(crate) struct Count {
    at: *const AtomicU64,
}

impl Model for Count {
    ghost also_owns = { λ c. lasts c.at };

    ghost also_shares = { λ c _ κ. said (lasts c.at) κ };
}

// It owns nothing but the right to look at a word that threads may share.
unsafe impl Send for Count {}

unsafe impl Sync for Count {}

impl Count {
    pub(crate) fn of(budget: Budget) -> Count {
        Count::at(budget.left)
    }

    pub(crate) fn budget(&self) -> Budget {
        Budget { left: self.word() }
    }

    fn at(word: &'static AtomicU64) -> Count {
        Count {
            at: word as *const AtomicU64,
        }
    }

    #[inline(always)]
    fn word(&self) -> &'static AtomicU64 {
        unsafe { &*self.at }
    }
}

// Takes one from the count, if it is limited; true if nothing was left.
#[inline(always)]
pub(crate) fn is_spent(count: &Count) -> bool {
    count.word().load(Ordering::Relaxed) < UNLIMITED && was_last(count)
}

#[cold]
#[inline(never)]
fn was_last(count: &Count) -> bool {
    count
        .word()
        .fetch_update(Ordering::SeqCst, Ordering::SeqCst, one_less)
        .is_err()
}

// What is left after one more. A limit that another thread removes meanwhile stays removed.
fn one_less(left: u64) -> Option<u64> {
    if left < UNLIMITED {
        left.checked_sub(1)
    } else {
        Some(left)
    }
}
