//! The limits of a run's options, by name.
//!
//! | What | Limit |
//! |---|---|
//! | workers, at least one | `MAX_WORKERS` |
//! | wake-ups for which an access waits | `MAX_PATIENCE` |

/// The greatest number of workers.
pub const MAX_WORKERS: u32 = 8;

/// The greatest number of wake-ups for which an access waits.
pub const MAX_PATIENCE: u32 = 1_000;
