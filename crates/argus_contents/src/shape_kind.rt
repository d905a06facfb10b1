//! `ShapeKind`: the parts of a shape.

use crate::name::Name;
use crate::ty::Ty;
use argus_memory::Room;

/// The parts of a [`Shape`](crate::Shape), before it is known whether they make one.
#[derive(Debug)]
pub(crate) enum ShapeKind {
    Rec(Vec<(Name, Ty), Room>),
    Arr(Ty),
    Var(Vec<(Name, Ty), Room>),
}

// Written by hand, so that dropping a shape is one call; a derived `Drop` is expanded at each
// place.
impl Drop for ShapeKind {
    fn drop(self) {
        match self {
            ShapeKind::Rec(_) | ShapeKind::Var(_) => {}
            ShapeKind::Arr(_) => {}
        }
    }
}
