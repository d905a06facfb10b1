//! `ShapeView`: the parts of a shape.

use crate::name::Name;
use crate::ty::Ty;

/// The parts of a [`Shape`](crate::Shape), as they were passed in.
///
/// ```text
/// match shape.view() {
///     ShapeView::Rec(fields) => ..,      // a name and a type for each field
///     ShapeView::Arr(item) => ..,        // the type of every item
///     ShapeView::Var(tags) => ..,        // a name and a type for each tag
/// }
/// ```
#[derive(Clone, Copy)]
pub enum ShapeView<'a> {
    Rec(&'a [(Name, Ty)]),
    Arr(&'a Ty),
    Var(&'a [(Name, Ty)]),
}
