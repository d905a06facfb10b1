//! `BlockKind`: a line with which a block or an arm begins.

use crate::action_kind::ActionKind;
use crate::lock::Lock;

/// A line with which a block or an arm begins.
///
/// | Line | Opening |
/// |---|---|
/// | `enter topaction`, `enter action` | `Enter` |
/// | `if test_read X`, `if test_write X` | `If`, with the number of the object X |
/// | `coenter` | `Coenter` |
/// | `topaction`, `action` in a coenter | `Arm` |
///
/// Objects are numbered from 0, in the order of their declarations.
///
/// ```text
/// Step::Block(BlockKind::If(Lock::Read, 0), steps)  // if test_read x .. end
/// ```
#[derive(Clone, Copy, Debug, PartialEq, Eq)]
pub enum BlockKind {
    Enter(ActionKind),
    If(Lock, u32),
    Coenter,
    Arm(ActionKind),
}
