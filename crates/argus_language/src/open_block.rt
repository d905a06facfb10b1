//! `OpenBlock`: a block or an arm that is being read.

use crate::block_kind::BlockKind;
use crate::level::Level;
use crate::step::Step;
use argus_memory::Room;

/// A block or an arm that is being read: the line with which it began, and the steps before it in
/// the block around it.
#[derive(Drop)]
pub(crate) struct OpenBlock {
    pub opening: BlockKind,
    pub level: Level,
    pub before: Vec<Step, Room>,
}
