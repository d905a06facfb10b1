//! `Work`: a piece of work whose time is taken.

use crate::bench_error::BenchError;
use crate::manner::Manner;
use crate::turn::Turn;
use crate::turning::{CHAIN_RECORDS, RECORDS};

/// A piece of work whose time is taken; the program's help says what each is.
///
/// ```text
/// let (work, count) = work_of("hot:4")?;              // Work::Threads(Manner::Hot), 4
/// ```
#[derive(Clone, Copy)]
pub(crate) enum Work {
    /// On a guardian with so many records.
    Alone(Turn),
    /// By one seat of a shared guardian.
    Seat(Turn),
    /// By so many threads.
    Threads(Manner),
    /// So many lookers, while a thread commits.
    Busy,
    /// The same, while nothing happens.
    Idle,
}

// Each with its name, and with its count if none is given.
const WORKS: [(&str, Work, u16); 13] = [
    ("flat", Work::Alone(Turn::Flat), RECORDS),
    ("nested", Work::Alone(Turn::Nested), RECORDS),
    ("commit", Work::Alone(Turn::Commit), RECORDS),
    ("abort", Work::Alone(Turn::Abort), RECORDS),
    ("chain", Work::Alone(Turn::Chain), CHAIN_RECORDS),
    ("shared:flat", Work::Seat(Turn::Flat), 0),
    ("shared:nested", Work::Seat(Turn::Nested), 0),
    ("own", Work::Threads(Manner::Own), 1),
    ("hot", Work::Threads(Manner::Hot), 1),
    ("batch", Work::Threads(Manner::Batch), 1),
    ("timed", Work::Threads(Manner::Timed), 1),
    ("busy", Work::Busy, 1),
    ("idle", Work::Idle, 1),
];

/// The work of this name, and its count, as of `commit:10`.
pub(crate) fn work_of(text: &str) -> Result<(Work, u16), BenchError> {
    for (name, work, count) in &WORKS {
        if *name == text {
            return Ok((*work, *count));
        }
        if let Some(digits) = text.strip_prefix(*name)
            && let Some(digits) = digits.strip_prefix(":")
        {
            return Ok((*work, digits.parse::<u16>()?));
        }
    }
    Err(BenchError::UnknownWork)
}
