//! `do_all`: the jobs of a crew, at once.

use argus_memory::Room;
use std::sync::Wait;
use std::thread;
use std::thread::Threads;

/// Does jobs, on several threads at once.
pub(crate) trait Crew<J> {
    /// Does one job.
    fn work(&self, job: J);

    /// One job fewer will be done.
    fn leave_out(&self);
}

/// Runs the jobs, the last one on this thread and each other one on a thread of its own, and
/// returns when all threads have ended. A job for which no thread can be made is dropped undone.
pub(crate) fn do_all<R: Threads + Wait, C: Crew<J> + Sync, J: Send + Drop>(
    rt: &R,
    crew: &C,
    mut jobs: Vec<J, Room>,
) {
    let last = jobs.pop();
    thread::scope(thread::scope_env(), rt, move |scope| {
        for job in jobs {
            if scope.spawn(move || crew.work(job)).is_err() {
                crew.leave_out();
            }
        }
        if let Some(job) = last {
            crew.work(job);
        }
    })
}
