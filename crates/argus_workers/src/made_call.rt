//! `MadeCall`: who made a call of a run, and where it is in the journal.

use crate::arm_number::ArmNumber;

// A call of a run: the arm of an outermost coenter that made it, if one did, and its number in the
// journal.
#[derive(Clone, Copy)]
pub(crate) struct MadeCall {
    pub(crate) arm: Option<ArmNumber>,
    pub(crate) at: u64,
}
