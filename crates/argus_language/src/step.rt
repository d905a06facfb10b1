//! `Step`: a step of a script.

use crate::block_kind::BlockKind;
use argus_contents::{Change, Query};
use argus_memory::Room;

/// A step of a script. Objects are numbered from 0, in the order of their declarations; fields and
/// tags in the order of their object's shape.
///
/// | Line | Step |
/// |---|---|
/// | `declare NAME SHAPE` | `Declare`: the next object, whose name and shape the script has |
/// | an access that looks at X | `Ask`, with X's number |
/// | an access that changes X | `Alter`, with X's number |
/// | `leave`, `abort leave`, `leave all` | `Leave`, `AbortLeave`, `LeaveAll` |
/// | a block or an arm | `Block`: its first line, and its steps. The steps of a coenter are its
/// arms |
///
/// ```text
/// Step::Ask(0, Query::Whole)                      // read x
/// ```
#[derive(Debug, Drop)]
pub enum Step {
    Declare,
    Ask(u32, Query),
    Alter(u32, Change),
    Leave,
    AbortLeave,
    LeaveAll,
    Block(BlockKind, Vec<Step, Room>),
}
