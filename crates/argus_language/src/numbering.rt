//! The number of the field or tag that an operation names.

ghost use Rattle.std.specs.Prelude.{◌≡◌, Some, None, IfOk, IfErr, OnOk};
ghost use Rattle.argus_contents.specs.Ty.{plain_fields};
ghost use Rattle.argus_language.specs.{Fault.{field_fault, operation_fault}, Fields.field_of};
ghost use Rattle.argus_language.specs.Numbered.{numbered_in, with_number};
ghost use Rattle.argus_language.specs.PlainLine.{plain_operation};

use crate::fault_kind::FaultKind;
use crate::fields::field_number;
use crate::operation::Operation;
use argus_contents::{Name, Shape, ShapeView, Ty};

/// The number of the field or tag that an operation on an object of this shape names, 0 if it names
/// none; or why the operation doesn't suit the shape.
pub(crate) fn number_in(shape: &Shape, operation: &Operation<'_>) -> Result<u8, FaultKind>
    ensures number { IfOk result
        (λ n. numbered_in shape.now (plain_operation operation.now)
        ≡ Some (with_number n (plain_operation operation.now))) }
    ensures fine { OnOk result (operation_fault (plain_operation operation.now) shape.now ≡ None) }
    ensures fault { IfErr result
        (λ k. operation_fault (plain_operation operation.now) shape.now ≡ Some k) }
{
    match operation {
        Operation::Any(_) => Ok(0),
        Operation::Record(field, _) => match shape.view() {
            ShapeView::Rec(fields) => number_among(fields, field),
            ShapeView::Arr(_) | ShapeView::Var(_) => Err(FaultKind::BadType),
        },
        Operation::Array(_) => match shape.view() {
            ShapeView::Arr(_) => Ok(0),
            ShapeView::Rec(_) | ShapeView::Var(_) => Err(FaultKind::BadType),
        },
        Operation::Variant(tag, _) => match shape.view() {
            ShapeView::Var(tags) => number_among(tags, tag),
            ShapeView::Rec(_) | ShapeView::Arr(_) => Err(FaultKind::BadType),
        },
    }
}

fn number_among(fields: &[(Name, Ty)], name: &str) -> Result<u8, FaultKind>
    ensures number { IfOk result (λ n. field_of name.now (plain_fields fields.now) ≡ Some n) }
    ensures fine { OnOk result (field_fault name.now (plain_fields fields.now) ≡ None) }
    ensures fault { IfErr result (λ k. (field_of name.now (plain_fields fields.now) ≡ None)
        × (field_fault name.now (plain_fields fields.now) ≡ Some k)) }
{
    match field_number(fields, name) {
        Some(number) => Ok(number),
        None => Err(FaultKind::UnknownName),
    }
}
