//! Why parts don't make a shape.

ghost use lib.Pointwise.{pointwise};
ghost use Rattle.std.specs.{Prelude.{◌≡◌, ◌||◌, nat_eq, nat_le, true, IfNone}, List.list_any};
ghost use Rattle.argus_contents.specs.Shape.{anywhere, AreNamed, deepest_of, depth_in, depth_of};
ghost use Rattle.argus_contents.specs.Shape.{fault_of, has_twice, HasNames, in_fields, in_ty};
ghost use Rattle.argus_contents.specs.Shape.{IsMakeable, IsNamed, names_of};
ghost use Rattle.argus_contents.specs.ShapeKind.{plain_kind, test_of};
ghost use Rattle.argus_contents.specs.Ty.{plain_fields, plain_ty};

use crate::limits::{MAX_NAMES, MAX_VALUE_DEPTH};
use crate::name::Name;
use crate::shape_fault::ShapeFault;
use crate::shape_kind::ShapeKind;
use crate::ty::Ty;

// What is looked for in every list of names.
#[derive(Clone, Copy)]
pub(crate) enum NameTest {
    Twice,
    None,
    TooMany,
}

/// The first fault that applies anywhere in the shape. If there is none, the whole shape was
/// visited, so each name in it has the form of a name.
pub(crate) fn fault_in(kind: &ShapeKind) -> Option<ShapeFault>
    ensures fault { result ≡ fault_of (plain_kind kind.now) }
    ensures makeable { IfNone result (IsMakeable (plain_kind kind.now)) }
{
    if holds_anywhere(kind, NameTest::Twice) {
        return Some(ShapeFault::NameTwice);
    }
    if holds_anywhere(kind, NameTest::None) {
        return Some(ShapeFault::NoNames);
    }
    if holds_anywhere(kind, NameTest::TooMany) {
        return Some(ShapeFault::TooManyNames);
    }
    if !is_within_depth(kind, MAX_VALUE_DEPTH) {
        return Some(ShapeFault::TooDeep);
    }
    None
}

fn holds_anywhere(kind: &ShapeKind, test: NameTest) -> bool
    ensures { result ≡ anywhere (test_of test) (plain_kind kind.now) }
{
    match kind {
        ShapeKind::Rec(fields) => holds_in_list(fields, test),
        ShapeKind::Arr(item) => holds_in_ty(item, test),
        ShapeKind::Var(tags) => holds_in_list(tags, test),
    }
}

#[cycle(holds)]
fn holds_in_ty(ty: &Ty, test: NameTest) -> bool
    ensures { result ≡ in_ty (test_of test) (plain_ty ty.now) }
{
    match ty {
        Ty::Sequence(item) => holds_in_ty(item, test),
        Ty::Fields(fields) => holds_in_list(fields, test),
        Ty::Choice(tags) => holds_in_list(tags, test),
        Ty::Null | Ty::Bool | Ty::Int | Ty::Text | Ty::Atomic => false,
    }
}

// Of the list's own names, or of a list in one of its types.
#[cycle(holds)]
fn holds_in_list(fields: &[(Name, Ty)], test: NameTest) -> bool
    ensures { result ≡ (test_of test (names_of (plain_fields fields.now))
        || in_fields (test_of test) (plain_fields fields.now)) }
{
    holds_of(fields, test) || holds_in_fields(fields, test)
}

#[cycle(holds)]
fn holds_in_fields(fields: &[(Name, Ty)], test: NameTest) -> bool
    ensures { result ≡ in_fields (test_of test) (plain_fields fields.now) }
{
    for (_, ty) in fields {
        if holds_in_ty(ty, test) {
            return true;
        }
    }
    false
}

fn holds_of(fields: &[(Name, Ty)], test: NameTest) -> bool
    ensures { result ≡ test_of test (names_of (plain_fields fields.now)) }
{
    match test {
        NameTest::Twice => has_name_twice(fields),
        NameTest::None => fields.is_empty(),
        NameTest::TooMany => fields.len() > MAX_NAMES,
    }
}

fn has_name_twice(fields: &[(Name, Ty)]) -> bool
    ensures { result ≡ has_twice (names_of (plain_fields fields.now)) }
{
    for i in 0..fields.len() {
        let (name, _) = &fields[i];
        if has_name(&fields[i + 1..], name) {
            return true;
        }
    }
    false
}

fn has_name(fields: &[(Name, Ty)], name: &Name) -> bool
    ensures { result ≡ list_any (λ other. pointwise nat_eq other name.now)
        (names_of (plain_fields fields.now)) }
{
    for (other, _) in fields {
        if other.as_str() == name.as_str() {
            return true;
        }
    }
    false
}

fn is_within_depth(kind: &ShapeKind, levels: usize) -> bool
    ensures depth { result ≡ nat_le (depth_in (plain_kind kind.now)) levels }
    ensures named { result ≡ true → HasNames (plain_kind kind.now) }
{
    match kind {
        ShapeKind::Rec(fields) => are_within(fields, levels),
        ShapeKind::Arr(item) => is_within(item, levels),
        ShapeKind::Var(tags) => are_within(tags, levels),
    }
}

#[cycle(within)]
fn is_within(ty: &Ty, levels: usize) -> bool
    ensures depth { result ≡ nat_le (depth_of (plain_ty ty.now)) levels }
    ensures named { result ≡ true → IsNamed (plain_ty ty.now) }
{
    if levels == 0 {
        return false;
    }
    match ty {
        Ty::Sequence(item) => is_within(item, levels - 1),
        Ty::Fields(fields) => are_within(fields, levels - 1),
        Ty::Choice(tags) => are_within(tags, levels - 1),
        Ty::Null | Ty::Bool | Ty::Int | Ty::Text | Ty::Atomic => true,
    }
}

#[cycle(within)]
fn are_within(fields: &[(Name, Ty)], levels: usize) -> bool
    ensures depth { result ≡ nat_le (deepest_of (plain_fields fields.now)) levels }
    ensures named { result ≡ true → AreNamed (plain_fields fields.now) }
{
    for (name, ty) in fields {
        name.form_is_kept();
        if !is_within(ty, levels) {
            return false;
        }
    }
    true
}
