//! `ArmNumber`: which arm of which outermost coenter.

// An arm of an outermost coenter: the coenters that ran are counted from 0, and so are the arms of
// each.
#[derive(Clone, Copy)]
pub(crate) struct ArmNumber {
    pub(crate) coenter: u32,
    pub(crate) arm: u32,
}
