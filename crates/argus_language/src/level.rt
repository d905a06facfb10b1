//! `Level`: a block or an arm that is open.

use crate::place::Place;

/// A block or an arm that is open: the place of its lines, the number of the line that opened the
/// block, and how many blocks are open with it. An arm has the number and the count of its coenter.
#[derive(Clone, Copy)]
pub(crate) struct Level {
    pub place: Place,
    pub line: u32,
    pub depth: u32,
}
