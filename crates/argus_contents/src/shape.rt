//! `Shape`: what an object was declared to hold.

ghost use Rattle.std.specs.{Prelude.{◌≡◌, ◌↔◌, true, IfOk}, Result.result_err};
ghost use Rattle.argus_contents.specs.{Decided.{said_equivalence, shape_decided}, Same.same_shape};
ghost use Rattle.argus_contents.specs.Shape.{arr, fault_of, IsMakeable, rec, var};
ghost use Rattle.argus_contents.specs.{ShapeKind.plain_kind, ShapeView.plain_view};
ghost use Rattle.argus_contents.specs.Ty.{plain_fields, plain_ty};

use crate::name::Name;
use crate::shape_fault::ShapeFault;
use crate::shape_kind::ShapeKind;
use crate::shape_view::ShapeView;
use crate::shaping::fault_in;
use crate::ty::{self, Ty, duplicate_fields};
use argus_memory::{Heap, OutOfMemory, Room};
use std::marker::Model;

/// What an object was declared to hold: a record, an array or a variant. It never changes.
///
/// Each list of names in it has 1 to 64 distinct names, and each type a depth of at most 16.
///
/// Source: the built-in atomic types of the Argus Reference Manual (MIT/LCS/TR-400, 1987).
///
/// ```text
/// let mut fields = Vec::new(heap.room());
/// fields.push((Name::new(heap, "balance")?, Ty::Int))?;
/// let account = Shape::rec(fields)?;              // atomic_record[balance:int]
/// let numbers = Shape::arr(Ty::Int)?;             // atomic_array[int]
/// ```
#[derive(Debug, Drop)]
pub struct Shape {
    kind: ShapeKind,
}

impl Model for Shape {
    ghost use Rattle.argus_contents.specs.Shape.{PlainShape};
    ghost use Rattle.argus_contents.specs.ShapeCode.{shape_coded};

    ghost Value = { PlainShape };

    ghost coded = { shape_coded };

    ghost use Rattle.argus_contents.specs.ShapeKind.{plain_kind};

    ghost view = { λ shape. plain_kind shape.kind };

    ghost use Rattle.argus_contents.specs.Shape.{IsMakeable};

    ghost invariant = { λ shape. IsMakeable (plain_kind shape.kind) };
}

impl Shape {
    ghost use Rattle.argus_contents.specs.ShapeKind.{plain_kind};

    /// A record with these fields. The fault is the first that applies anywhere in it.
    pub fn rec(fields: Vec<(Name, Ty), Room>) -> Result<Shape, ShapeFault>
        ensures ok { IfOk result (λ shape. shape ≡ rec (plain_fields fields.items)) }
        ensures fault { result_err result ≡ fault_of (rec (plain_fields fields.items)) }
    {
        Shape::of(ShapeKind::Rec(fields))
    }

    /// An array of items of this type. The fault is the first that applies anywhere in it.
    pub fn arr(item: Ty) -> Result<Shape, ShapeFault>
        ensures ok { IfOk result (λ shape. shape ≡ arr (plain_ty item)) }
        ensures fault { result_err result ≡ fault_of (arr (plain_ty item)) }
    {
        Shape::of(ShapeKind::Arr(item))
    }

    /// A variant with these tags. The fault is the first that applies anywhere in it.
    pub fn var(tags: Vec<(Name, Ty), Room>) -> Result<Shape, ShapeFault>
        ensures ok { IfOk result (λ shape. shape ≡ var (plain_fields tags.items)) }
        ensures fault { result_err result ≡ fault_of (var (plain_fields tags.items)) }
    {
        Shape::of(ShapeKind::Var(tags))
    }

    fn of(kind: ShapeKind) -> Result<Shape, ShapeFault>
        ensures ok { IfOk result (λ shape. shape ≡ plain_kind kind) }
        ensures fault { result_err result ≡ fault_of (plain_kind kind) }
    {
        match fault_in(&kind) {
            None => Ok(Shape { kind }),
            Some(fault) => Err(fault),
        }
    }

    /// The parts that were passed in.
    pub fn view(&self) -> ShapeView<'_>
        ensures { plain_view result ≡ self.now }
    {
        match &self.kind {
            ShapeKind::Rec(fields) => ShapeView::Rec(fields),
            ShapeKind::Arr(item) => ShapeView::Arr(item),
            ShapeKind::Var(tags) => ShapeView::Var(tags),
        }
    }

    /// A law for proofs; it does nothing. No fault applies to any shape, and each name in it has
    /// the form of a name.
    pub fn limits_are_kept(&self)
        ensures { IsMakeable self.now }
    {
        let _ = &self.kind;
    }

    /// A shape equal to this one. `OutOfMemory`: nothing was copied.
    pub fn duplicate(&self, heap: Heap) -> Result<Shape, OutOfMemory>
        ensures { IfOk result (λ copy. copy ≡ self.now) }
    {
        let kind = match &self.kind {
            ShapeKind::Rec(fields) => ShapeKind::Rec(duplicate_fields(heap, fields)?),
            ShapeKind::Arr(item) => ShapeKind::Arr(item.duplicate(heap)?),
            ShapeKind::Var(tags) => ShapeKind::Var(duplicate_fields(heap, tags)?),
        };
        Ok(Shape { kind })
    }
}

impl PartialEq for Shape {
    ghost eq = { λ a b. same_shape a b };

    ghost laws = { said_equivalence (λ shape. shape) same_shape shape_decided };

    /// Whether both say the same: names by their bytes. It takes no memory.
    fn eq(&self, other: &Shape) -> bool
        ensures { (result ≡ true) ↔ (self.now ≡ other.now) }
    {
        is_same(&self.kind, &other.kind)
    }
}

fn is_same(a: &ShapeKind, b: &ShapeKind) -> bool
    ensures { result ≡ same_shape (plain_kind a.now) (plain_kind b.now) }
{
    match (a, b) {
        (ShapeKind::Rec(a), ShapeKind::Rec(b)) => ty::are_same(a, b),
        (ShapeKind::Arr(a), ShapeKind::Arr(b)) => ty::is_same(a, b),
        (ShapeKind::Var(a), ShapeKind::Var(b)) => ty::are_same(a, b),
        _ => false,
    }
}
