//! `RunReport`: what a run reports, with the receipts that show it.

use crate::arm_outcome::ArmOutcome;
use argus_memory::Room;
use argus_sharing::Receipt;

/// What a run reports, with the receipts that show it.
///
/// ```text
/// let Some(report) = report_of(heap, &script, receipts)? else {
///     return Err(RunFault::Memory);
/// };
/// let guardian = shared.settle(seats, report.receipts.as_slice())?;
/// ```
#[derive(Debug, Drop)]
pub struct RunReport {
    /// What became of each arm of each outermost coenter that ran, in script order.
    pub outcomes: Vec<ArmOutcome, Room>,
    /// One for each call that was made, in script order: the Begin calls of a coenter's arms, and
    /// then each arm's calls, arm after arm.
    pub receipts: Vec<Receipt, Room>,
}
