//! `NoGate`: a gate that never blocks.

use crate::gate::Gate;

/// Never blocks.
///
/// ```text
/// run_shared(&rt, heap, &shared, &mut seats, &script, &NoGate, 2, 0)?;
/// ```
#[derive(Clone, Copy, Debug, PartialEq, Eq)]
pub struct NoGate;

impl Gate for NoGate {
    fn pass(&self, _arm: u32, _step: u32) {}
}
