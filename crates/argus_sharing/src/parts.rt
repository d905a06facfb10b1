//! `Parts`: what sharing a guardian returns.

use crate::seat::Seat;
use crate::shared::Shared;
use crate::sharing::Sharing;
use argus_board::Looker;
use argus_memory::Room;
use std::sync::Wait;

/// What sharing a guardian returns: the shared guardian, and its seats and lookers.
///
/// ```text
/// let parts = Shared::new(rt, heap, guardian, 2, 1, blank, keeper)?;
/// let Parts { shared, mut seats, mut lookers } = parts;
/// ```
#[derive(Drop)]
pub struct Parts<N: Sharing, R: Wait + Drop> {
    pub shared: Shared<N, R>,
    pub seats: Vec<Seat<N>, Room>,
    pub lookers: Vec<Looker<N>, Room>,
}
