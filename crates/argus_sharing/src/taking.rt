//! How threads take the mutex, and wait until a call is in nobody's way.

use crate::locked::Locked;
use crate::shared::Shared;
use crate::sharing::Sharing;
use argus_entries::Call;
use std::hint::spin_loop;
use std::sync::{MutexGuard, Wait};

// How often a thread tries to take the mutex before it sleeps. It pauses before each try, first so
// many times, then twice as often each time up to the most: tries close together would take the
// cache line away from the thread that holds the mutex, which then gets less done.
const TRIES: u32 = 14;

const FIRST_PAUSES: u32 = 256;

const MOST_PAUSES: u32 = 4096;

// How often a thread looks whether its call is in nobody's way before it sleeps until actions end,
// and its pauses before each look.
const LOOKS: u32 = 20;

const LOOK_PAUSES: u32 = 1024;

impl<N: Sharing, R: Wait + Drop> Shared<N, R> {
    /// Takes the mutex: at once if it is free, else after some tries, or else asleep.
    #[inline(always)]
    pub(crate) fn take(&self, rt: &impl Wait) -> MutexGuard<'_, Locked<N, R>> {
        match self.locked.try_lock() {
            Some(guard) => guard,
            None => self.take_slowly(rt),
        }
    }

    #[cold]
    #[inline(never)]
    fn take_slowly(&self, rt: &impl Wait) -> MutexGuard<'_, Locked<N, R>> {
        let mut pauses = FIRST_PAUSES;
        for _try in 0..TRIES {
            pause(pauses);
            if let Some(guard) = self.locked.try_lock() {
                return guard;
            }
            pauses = pauses.saturating_mul(2).min(MOST_PAUSES);
        }
        self.locked.lock(rt)
    }

    /// Takes the mutex when the call wouldn't be refused with `Conflict`, or after this many
    /// wake-ups.
    pub(crate) fn take_without_conflict(
        &self,
        rt: &impl Wait,
        call: &Call,
        patience: u32,
    ) -> MutexGuard<'_, Locked<N, R>> {
        let guard = self.take(rt);
        if patience == 0 || !guard.would_conflict(call) {
            return guard;
        }
        drop(guard);
        self.wait_for_ends(rt, self.look_again(rt, call), call, patience)
    }

    // Takes the mutex as soon as the call wouldn't conflict, but at last after some looks.
    #[cold]
    #[inline(never)]
    fn look_again(&self, rt: &impl Wait, call: &Call) -> MutexGuard<'_, Locked<N, R>> {
        for _look in 0..LOOKS {
            pause(LOOK_PAUSES);
            let guard = self.take(rt);
            if !guard.would_conflict(call) {
                return guard;
            }
        }
        self.take(rt)
    }

    fn wait_for_ends<'a>(
        &'a self,
        rt: &impl Wait,
        guard: MutexGuard<'a, Locked<N, R>>,
        call: &Call,
        patience: u32,
    ) -> MutexGuard<'a, Locked<N, R>> {
        let mut guard = guard;
        for _wake_up in 0..patience {
            if !guard.would_conflict(call) || guard.would_all_wait() {
                break;
            }
            guard.begin_wait();
            guard = self.freed.wait(rt, guard);
            guard.end_wait();
        }
        guard
    }
}

// Lets some time go by.
fn pause(count: u32) {
    for _pause in 0..count {
        spin_loop();
    }
}
