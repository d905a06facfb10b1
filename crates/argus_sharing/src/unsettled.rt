//! `Unsettled`: a shared guardian that wasn't settled.

use crate::seat::Seat;
use crate::settle_fault::SettleFault;
use crate::shared::Shared;
use crate::sharing::Sharing;
use argus_memory::Room;
use std::sync::Wait;

/// Why a shared guardian wasn't settled, with all that was passed in, unchanged.
///
/// ```text
/// if let Err(Unsettled { fault, shared, seats }) = shared.settle(seats, receipts.as_slice()) {
///     ..                                          // it is still shared
/// }
/// ```
#[derive(Drop)]
pub struct Unsettled<N: Sharing, R: Wait + Drop> {
    pub fault: SettleFault,
    pub shared: Shared<N, R>,
    pub seats: Vec<Seat<N>, Room>,
}
