//! `AtomicObject`: an object with its shape.

use argus_contents::Shape;
use argus_objects::Cell;

/// A declared object: its shape, which never changes, and its cell.
///
/// ```text
/// let object = AtomicObject { shape, cell: Cell::new(heap, None) };
/// assert!(rt; object.cell.base().is_none());          // no action has created it yet
/// ```
#[derive(Drop)]
pub(crate) struct AtomicObject {
    pub(crate) shape: Shape,
    pub(crate) cell: Cell,
}
