//! Which threads wait: when all would, nobody is left who could wake them.

use crate::locked::Locked;
use crate::shared::Shared;
use crate::sharing::Sharing;
use std::sync::Wait;

impl<N: Sharing, R: Wait + Drop> Shared<N, R> {
    /// Says how many threads make calls from now on, at most; `None`: any number. If it is known,
    /// and all the others wait, a thread doesn't begin to wait: nobody is left who could wake it.
    /// Its call is made at once, as if it had been woken as often as its patience allows.
    ///
    /// It may wait for other threads.
    ///
    /// ```text
    /// shared.expect_callers(&rt, Some(2));            // two threads are about to be started
    /// ```
    pub fn expect_callers(&self, rt: &impl Wait, callers: Option<u32>) {
        self.take(rt).set_callers(callers);
    }

    /// Says that one of the expected threads makes no more calls. Those that wait are woken, which
    /// counts towards their patience: they may be all that are left.
    ///
    /// It may wait for other threads.
    pub fn lose_caller(&self, rt: &impl Wait) {
        self.take(rt).drop_caller();
        self.freed.notify_all();
    }
}

impl<N: Sharing, R: Wait + Drop> Locked<N, R> {
    /// Whether all threads that make calls would wait, if one more began to.
    pub(crate) fn would_all_wait(&self) -> bool {
        match self.callers {
            Some(callers) => callers <= self.waiting.saturating_add(1),
            None => false,
        }
    }

    pub(crate) fn begin_wait(&mut self) {
        self.waiting = self.waiting.saturating_add(1);
    }

    pub(crate) fn end_wait(&mut self) {
        self.waiting = self.waiting.saturating_sub(1);
    }

    fn set_callers(&mut self, callers: Option<u32>) {
        self.callers = callers;
    }

    fn drop_caller(&mut self) {
        if let Some(callers) = self.callers {
            self.callers = Some(callers.saturating_sub(1));
        }
    }
}
