//! `Manner`: how the topactions of threads count.

/// How the topactions of threads count: each thread in records of its own, or all in the same; or
/// each in its own, by lists of calls, or with each call timed.
///
/// ```text
/// let work = Work::Threads(Manner::Hot, 4);
/// ```
#[derive(Clone, Copy)]
pub(crate) enum Manner {
    Own,
    Hot,
    Batch,
    Timed,
}
