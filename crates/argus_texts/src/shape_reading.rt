//! `read_shape`: the shape of a written form.

ghost use Rattle.std.specs.Prelude.{◌≡◌, ◌<◌, IfOk, IfErr, IfSome, IfNone};
ghost use Rattle.argus_contents.specs.Ty.{plain_fields, plain_ty};
ghost use Rattle.argus_contents.specs.declared.limits.TheConstants.{MAX_NAMES};
ghost use Rattle.argus_texts.specs.{Language.Reads, ShapeLanguages.Types};
ghost use Rattle.argus_texts.specs.ShapeLanguages.{BeginsNo, Closed, Fields, IsList, IsScalar};
ghost use Rattle.argus_texts.specs.ShapeLanguages.{IsShallow, Lists, Names, OnNoForm, Shapes};
ghost use Rattle.argus_texts.specs.ShapeSpelling.{AreNamed, IsMakeable, IsNamed, IsShapeText};
ghost use Rattle.argus_texts.specs.ShapeSpelling.{shape_spelling};

use crate::scan::{split_ascii, strip, strip_word};
use crate::unread::Unread;
use argus_contents::limits::{MAX_NAMES, MAX_VALUE_DEPTH};
use argus_contents::{Name, NameError, Shape, Ty};
use argus_memory::{Heap, OutOfMemory, Room};

/// The shape whose written form the text is. `None` exactly if the text isn't the form of a shape
/// that can be made: each list has 1 to 64 distinct names, and types have a depth of at most 16.
///
/// `OutOfMemory` may come in place of either result.
pub fn read_shape(heap: Heap, text: &str) -> Result<Option<Shape>, OutOfMemory>
    ensures read { IfOk result
        (λ answer. IfSome answer (λ shape. IsMakeable shape × (text.now ≡ shape_spelling shape))) }
    ensures refused { IfOk result (λ answer. IfNone answer (IsShapeText text.now → ⊥)) }
{
    match whole_shape(heap, text) {
        Ok(shape) => Ok(Some(shape)),
        Err(Unread::NoForm) => Ok(None),
        Err(Unread::Memory) => Err(OutOfMemory),
    }
}

fn whole_shape(heap: Heap, text: &str) -> Result<Shape, Unread>
    ensures read { IfOk result (λ shape. IsMakeable shape × (text.now ≡ shape_spelling shape)) }
    ensures refused { IfErr result (λ e. OnNoForm e (IsShapeText text.now → ⊥)) }
{
    let (shape, rest) = one_shape(heap, text)?;
    if rest.len() > 0 {
        return Err(Unread::NoForm);
    }
    Ok(shape)
}

/// The shape at the front, and what comes after it.
///
/// `NoForm`: the text doesn't begin with the written form of a shape. `Memory`: there was none for
/// its names and types.
pub fn one_shape(heap: Heap, text: &str) -> Result<(Shape, &str), Unread>
    ensures read { IfOk result (λ r. Reads Shapes text.now r.0 r.1.now) }
    ensures refused { IfErr result (λ e. OnNoForm e (BeginsNo Shapes text.now)) }
{
    if let Some(others) = strip_word(text, "atomic_record[") {
        let (fields, rest) = names(heap, others, MAX_VALUE_DEPTH)?;
        let Ok(shape) = Shape::rec(fields) else {
            return Err(Unread::NoForm);
        };
        return Ok((shape, rest));
    }
    if let Some(others) = strip_word(text, "atomic_array[") {
        let (item, rest) = closed_ty(heap, others, MAX_VALUE_DEPTH)?;
        let Ok(shape) = Shape::arr(item) else {
            return Err(Unread::NoForm);
        };
        return Ok((shape, rest));
    }
    if let Some(others) = strip_word(text, "atomic_variant[") {
        let (tags, rest) = names(heap, others, MAX_VALUE_DEPTH)?;
        let Ok(shape) = Shape::var(tags) else {
            return Err(Unread::NoForm);
        };
        return Ok((shape, rest));
    }
    Err(Unread::NoForm)
}

/// The type at the front, and what comes after it.
#[cycle(shape_reading)]
fn one_ty(heap: Heap, text: &str, levels: usize) -> Result<(Ty, &str), Unread>
    ensures read { IfOk result (λ r. Reads (Types IsNamed) text.now (plain_ty r.0) r.1.now) }
    ensures refused { IfErr result
        (λ e. OnNoForm e (BeginsNo (Types (IsShallow levels)) text.now)) }
{
    if levels == 0 {
        return Err(Unread::NoForm);
    }
    match scalar(text) {
        Some((ty, rest)) => Ok((ty, rest)),
        None => compound(heap, text, levels),
    }
}

fn scalar(text: &str) -> Option<(Ty, &str)>
    ensures read { IfSome result (λ r. Reads (Types IsNamed) text.now (plain_ty r.0) r.1.now) }
    ensures refused { IfNone result (BeginsNo (Types IsScalar) text.now) }
{
    if let Some(rest) = strip_word(text, "null") {
        return Some((Ty::Null, rest));
    }
    if let Some(rest) = strip_word(text, "bool") {
        return Some((Ty::Bool, rest));
    }
    if let Some(rest) = strip_word(text, "int") {
        return Some((Ty::Int, rest));
    }
    if let Some(rest) = strip_word(text, "text") {
        return Some((Ty::Text, rest));
    }
    if let Some(rest) = strip_word(text, "atomic") {
        return Some((Ty::Atomic, rest));
    }
    None
}

/// The type at the front, which doesn't begin as a scalar does, and what comes after it.
#[cycle(shape_reading)]
fn compound(heap: Heap, text: &str, levels: usize) -> Result<(Ty, &str), Unread>
    requires { (0 < levels) × BeginsNo (Types IsScalar) text.now }
    ensures read { IfOk result (λ r. Reads (Types IsNamed) text.now (plain_ty r.0) r.1.now) }
    ensures refused { IfErr result
        (λ e. OnNoForm e (BeginsNo (Types (IsShallow levels)) text.now)) }
{
    if let Some(others) = strip_word(text, "sequence[") {
        let (item, rest) = closed_ty(heap, others, levels - 1)?;
        return Ok((Ty::Sequence(Box::new(heap.room(), item)?), rest));
    }
    if let Some(others) = strip_word(text, "struct[") {
        let (fields, rest) = names(heap, others, levels - 1)?;
        return Ok((Ty::Fields(fields), rest));
    }
    if let Some(others) = strip_word(text, "oneof[") {
        let (tags, rest) = names(heap, others, levels - 1)?;
        return Ok((Ty::Choice(tags), rest));
    }
    Err(Unread::NoForm)
}

/// The type before the closing bracket, and what comes after that.
#[cycle(shape_reading)]
fn closed_ty(heap: Heap, text: &str, levels: usize) -> Result<(Ty, &str), Unread>
    ensures read { IfOk result (λ r. Reads (Closed IsNamed) text.now (plain_ty r.0) r.1.now) }
    ensures refused { IfErr result
        (λ e. OnNoForm e (BeginsNo (Closed (IsShallow levels)) text.now)) }
{
    let (ty, others) = one_ty(heap, text, levels)?;
    let Some(rest) = strip(others, b']') else {
        return Err(Unread::NoForm);
    };
    Ok((ty, rest))
}

/// The names with their types before the closing bracket, and what comes after that.
#[cycle(shape_reading)]
fn names(heap: Heap, text: &str, levels: usize) -> Result<(Vec<(Name, Ty), Room>, &str), Unread>
    ensures read { IfOk result
        (λ r. Reads (Lists AreNamed) text.now (plain_fields r.0.items) r.1.now) }
    ensures refused { IfErr result
        (λ e. OnNoForm e (BeginsNo (Lists (IsList MAX_NAMES levels)) text.now)) }
{
    let mut names = Vec::new(heap.room());
    let mut rest = text;
    for _ in 0..MAX_NAMES {
        let (name, ty, behind) = field(heap, rest, levels)?;
        names.push((name, ty))?;
        let Some((first, others)) = split_ascii(behind) else {
            return Err(Unread::NoForm);
        };
        if first == b']' {
            return Ok((names, others));
        }
        if first != b',' {
            return Err(Unread::NoForm);
        }
        rest = others;
    }
    Err(Unread::NoForm)
}

/// The name at the front, the type after its colon, and what comes after that.
#[cycle(shape_reading)]
fn field(heap: Heap, text: &str, levels: usize) -> Result<(Name, Ty, &str), Unread>
    ensures read { IfOk result (λ r. Reads (Fields IsNamed) text.now (r.0, plain_ty r.1) r.2.now) }
    ensures refused { IfErr result
        (λ e. OnNoForm e (BeginsNo (Fields (IsShallow levels)) text.now)) }
{
    let (name, others) = one_name(heap, text)?;
    let (ty, rest) = one_ty(heap, others, levels)?;
    Ok((name, ty, rest))
}

/// The name before the first colon, and what comes after that.
fn one_name(heap: Heap, text: &str) -> Result<(Name, &str), Unread>
    ensures read { IfOk result (λ r. Reads Names text.now r.0 r.1.now) }
    ensures refused { IfErr result (λ e. OnNoForm e (BeginsNo Names text.now)) }
{
    let Some((front, rest)) = text.split_once(':') else {
        return Err(Unread::NoForm);
    };
    match Name::new(heap, front) {
        Ok(name) => Ok((name, rest)),
        Err(NameError::BadName) => Err(Unread::NoForm),
        Err(NameError::OutOfMemory) => Err(Unread::Memory),
    }
}
