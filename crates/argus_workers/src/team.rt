//! `Team`: what all threads of a run have in common.

use crate::gate::Gate;
use argus_memory::Heap;
use argus_sharing::{Shared, Sharing};
use std::sync::Wait;

/// What all threads of a run have in common.
#[derive(Drop)]
pub(crate) struct Team<'a, N: Sharing, R: Wait + Drop, G: Gate> {
    pub(crate) rt: &'a R,
    pub(crate) heap: Heap,
    pub(crate) shared: &'a Shared<N, R>,
    pub(crate) gate: &'a G,
    pub(crate) patience: u32,
}
