//! `Gate`: where the arms of a run may be delayed.

/// Where the arms of a run may be delayed, so that a test can force their order.
///
/// ```text
/// impl Gate for Turns {
///     fn pass(&self, arm: u32, step: u32) {
///         ..                                      // waits until the other arm has come here, too
///     }
/// }
/// ```
pub trait Gate {
    /// An arm's worker calls it before each step that is directly in an arm of an outermost
    /// coenter. Arms and steps are counted from 0.
    fn pass(&self, arm: u32, step: u32);
}
