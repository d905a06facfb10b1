//! `ArmOutcome`: what became of an arm.

use crate::ended::Ended;
use argus_actions::ActionId;

/// What became of an arm of an outermost coenter, which is one that is in no other.
///
/// `coenter` counts the outermost coenters that ran, and `arm` the arms of each, both from 0.
/// `action` is the arm's action, if it was begun.
///
/// ```text
/// let outcomes = check_run(heap, &script, receipts.as_slice())?;
/// // Some([ArmOutcome { coenter: 0, arm: 0, action: Some(ActionId(1)), ended: Committed }, ..])
/// ```
#[derive(Clone, Copy, Debug, PartialEq, Eq)]
pub struct ArmOutcome {
    pub coenter: u32,
    pub arm: u32,
    pub action: Option<ActionId>,
    pub ended: Ended,
}
