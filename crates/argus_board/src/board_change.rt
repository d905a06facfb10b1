//! `BoardChange`: one operation of the board's writer.

use crate::effect::Effect;
use crate::history_prefix::HistoryPrefix;

/// One operation of the board's writer.
#[derive(Drop)]
pub enum BoardChange {
    /// What a committed topaction leaves.
    Leaves(Effect),
    /// How far the history has come: the last operation of each publish.
    Marks(HistoryPrefix),
}
