//! `typed`, `fits`, `query_fits` and `change_fits`: what suits a type or a shape.

ghost use Rattle.std.specs.Prelude.{◌≡◌, ◌↔◌, drop, Some, true};
ghost use Rattle.argus_contents.specs.Change.{CreatesWithin, plain_change};
ghost use Rattle.argus_contents.specs.Content.{is_within, KeepsBounds, KeepsLimits, plain_content};
ghost use Rattle.argus_contents.specs.Fitting.{change_suits, field_suits, has_field, has_number};
ghost use Rattle.argus_contents.specs.Fitting.{has_tag, is_array, is_fitting, item_suits};
ghost use Rattle.argus_contents.specs.Fitting.{query_suits, tag_suits};
ghost use Rattle.argus_contents.specs.Ty.{plain_fields, plain_ty};
ghost use Rattle.argus_contents.specs.Typing.{all_typed, each_typed, is_typed, is_typed_at};
ghost use Rattle.argus_contents.specs.Value.{listed, plain_list, plain_value};

use crate::change::Change;
use crate::content::Content;
use crate::limits::{MAX_BOUND, MAX_ITEMS, MIN_BOUND};
use crate::name::Name;
use crate::query::Query;
use crate::shape::Shape;
use crate::shape_view::ShapeView;
use crate::ty::Ty;
use crate::value::Value;
use argus_memory::Room;
use std::collections::VecDeque;

/// Whether the value is of the type, with this many objects declared: the constructors agree, each
/// part is of the part's type, and each reference names a declared object.
pub fn typed(ty: &Ty, declared: u32, value: &Value) -> bool
    ensures { result ≡ is_typed (plain_ty ty.now) declared (plain_value value.now) }
{
    has_type(value, ty, declared)
}

#[cycle(typed)]
fn has_type(value: &Value, ty: &Ty, declared: u32) -> bool
    ensures { result ≡ is_typed (plain_ty ty.now) declared (plain_value value.now) }
{
    match (ty, value) {
        (Ty::Null, Value::Null) => true,
        (Ty::Bool, Value::Bool(_)) => true,
        (Ty::Int, Value::Int(_)) => true,
        (Ty::Text, Value::Text(_)) => true,
        (Ty::Atomic, Value::Atomic(object)) => object.0 < declared,
        (Ty::Sequence(item), Value::Sequence(items)) => all_have_type(items, item, declared),
        (Ty::Fields(names), Value::Fields(fields)) => each_has_type(fields, names, declared),
        (Ty::Choice(names), Value::Choice(tag, part)) => match names.get(*tag as usize) {
            Some((_, ty)) => has_type(part, ty, declared),
            None => false,
        },
        (
            Ty::Null
            | Ty::Bool
            | Ty::Int
            | Ty::Text
            | Ty::Atomic
            | Ty::Sequence(_)
            | Ty::Fields(_)
            | Ty::Choice(_),
            _,
        ) => false,
    }
}

#[cycle(typed)]
fn all_have_type(values: &[Value], ty: &Ty, declared: u32) -> bool
    ensures { result ≡ all_typed (plain_ty ty.now) declared (listed (plain_list values.now)) }
{
    for value in values {
        if !has_type(value, ty, declared) {
            return false;
        }
    }
    true
}

#[cycle(typed)]
fn each_has_type(values: &[Value], names: &[(Name, Ty)], declared: u32) -> bool
    ensures { result ≡ each_typed (plain_fields names.now) declared
        (listed (plain_list values.now)) }
{
    if values.len() != names.len() {
        return false;
    }
    for i in 0..values.len() {
        let (_, ty) = &names[i];
        if !has_type(&values[i], ty, declared) {
            return false;
        }
    }
    true
}

fn has_type_at(value: &Value, number: u8, names: &[(Name, Ty)], declared: u32) -> bool
    ensures { result ≡ is_typed_at (plain_fields names.now) number declared
        (plain_value value.now) }
{
    match names.get(number as usize) {
        Some((_, ty)) => typed(ty, declared, value),
        None => false,
    }
}

/// Whether the content fits the shape, with this many objects declared: the kinds agree, each part
/// is of its type, and an array keeps the limits. A content that fits may be asked and altered.
pub fn fits(shape: &Shape, declared: u32, content: &Content) -> bool
    ensures exact { result ≡ is_fitting shape.now declared (plain_content content.now) }
    ensures keeps { result ≡ true → KeepsLimits (Some (plain_content content.now)) }
{
    match (shape.view(), content) {
        (ShapeView::Rec(names), Content::Rec(fields)) => each_has_type(fields, names, declared),
        (ShapeView::Arr(item), Content::Arr { low, items }) => {
            keeps_limits(*low, items.len()) && items_have_type(items, item, declared)
        }
        (ShapeView::Var(names), Content::Var { tag, value }) => {
            has_type_at(value, *tag, names, declared)
        }
        (ShapeView::Rec(_), Content::Arr { .. } | Content::Var { .. }) => false,
        (ShapeView::Arr(_), Content::Rec(_) | Content::Var { .. }) => false,
        (ShapeView::Var(_), Content::Rec(_) | Content::Arr { .. }) => false,
    }
}

fn keeps_limits(low: i64, size: usize) -> bool
    ensures exact { result ≡ is_within low size }
    ensures keeps { (result ≡ true) ↔ KeepsBounds low size }
{
    if size > MAX_ITEMS || low < MIN_BOUND || low > MAX_BOUND {
        return false;
    }
    low + size as i64 - 1 <= MAX_BOUND
}

fn items_have_type(items: &VecDeque<Value, Room>, ty: &Ty, declared: u32) -> bool
    ensures { result ≡ all_typed (plain_ty ty.now) declared (listed (plain_list items.now.items)) }
{
    let (front, back) = items.as_slices();
    all_have_type(front, ty, declared) && all_have_type(back, ty, declared)
}

/// Whether the query suits the shape: it is one of the shape's kind, and there is a field or a tag
/// with its number. `Whole` suits every shape.
pub fn query_fits(shape: &Shape, query: &Query) -> bool
    ensures { result ≡ query_suits shape.now query.now }
{
    match query {
        Query::Whole => true,
        Query::Field(field) => has_field(shape, *field),
        Query::Low | Query::High | Query::Size => is_array(shape),
        Query::Fetch(_) | Query::Bottom | Query::Top => is_array(shape),
        Query::IsTag(tag) | Query::TagValue(tag) => has_tag(shape, *tag),
    }
}

fn is_array(shape: &Shape) -> bool
    ensures { result ≡ is_array shape.now }
{
    match shape.view() {
        ShapeView::Arr(_) => true,
        ShapeView::Rec(_) | ShapeView::Var(_) => false,
    }
}

fn has_field(shape: &Shape, number: u8) -> bool
    ensures { result ≡ has_field shape.now number }
{
    match shape.view() {
        ShapeView::Rec(names) => have_number(names, number),
        ShapeView::Arr(_) | ShapeView::Var(_) => false,
    }
}

fn has_tag(shape: &Shape, number: u8) -> bool
    ensures { result ≡ has_tag shape.now number }
{
    match shape.view() {
        ShapeView::Var(names) => have_number(names, number),
        ShapeView::Rec(_) | ShapeView::Arr(_) => false,
    }
}

fn have_number(names: &[(Name, Ty)], number: u8) -> bool
    ensures { result ≡ has_number (plain_fields names.now) number }
{
    (number as usize) < names.len()
}

/// Whether the change suits the shape, with this many objects declared: it is one of the shape's
/// kind, there is a field or a tag with its number, and its value is of the type or its content
/// fits. `Touch` suits every shape. After a change that suits, an array still keeps the limits.
#[inline(always)]
pub fn change_fits(shape: &Shape, declared: u32, change: &Change) -> bool
    ensures exact { result ≡ change_suits shape.now declared (plain_change change.now) }
    ensures keeps { result ≡ true → CreatesWithin (plain_change change.now) }
{
    match change {
        Change::Touch => true,
        Change::Create(content) => fits(shape, declared, content),
        Change::SetField(field, value) => fits_field(shape, declared, *field, value),
        Change::Store(_, value) => fits_item(shape, declared, value),
        Change::Addh(value) | Change::Addl(value) => fits_item(shape, declared, value),
        Change::Remh | Change::Reml => is_array(shape),
        Change::SetLow(_) | Change::Trim(_, _) => is_array(shape),
        Change::ChangeTag(tag, value) => fits_tag(shape, declared, *tag, value),
    }
}

fn fits_field(shape: &Shape, declared: u32, number: u8, value: &Value) -> bool
    ensures { result ≡ field_suits shape.now declared number (plain_value value.now) }
{
    match shape.view() {
        ShapeView::Rec(names) => has_type_at(value, number, names, declared),
        ShapeView::Arr(_) | ShapeView::Var(_) => false,
    }
}

fn fits_item(shape: &Shape, declared: u32, value: &Value) -> bool
    ensures { result ≡ item_suits shape.now declared (plain_value value.now) }
{
    match shape.view() {
        ShapeView::Arr(item) => typed(item, declared, value),
        ShapeView::Rec(_) | ShapeView::Var(_) => false,
    }
}

fn fits_tag(shape: &Shape, declared: u32, number: u8, value: &Value) -> bool
    ensures { result ≡ tag_suits shape.now declared number (plain_value value.now) }
{
    match shape.view() {
        ShapeView::Var(names) => has_type_at(value, number, names, declared),
        ShapeView::Rec(_) | ShapeView::Arr(_) => false,
    }
}
