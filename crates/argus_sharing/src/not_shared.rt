//! `NotShared`: a guardian that couldn't be shared.

use argus_core::Guardian;

/// There was no memory to share the guardian, which is unchanged.
///
/// ```text
/// if let Err(NotShared { guardian }) = Shared::new(rt, heap, guardian, 2, 1, blank, keeper) {
///     ..                                          // it goes on as a guardian of one thread
/// }
/// ```
#[derive(Drop)]
pub struct NotShared {
    pub guardian: Guardian,
}
