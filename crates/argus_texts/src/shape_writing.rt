//! `write_shape`: the written form of a shape.

ghost use Rattle.std.specs.Prelude.{◌≡◌, ◌∷◌, ◌++◌, OnOk, OnErr, string_bytes};
ghost use Rattle.argus_contents.specs.Ty.{plain_fields, plain_ty};
ghost use Rattle.argus_texts.specs.{Grown.Grew, Bytes.colon};
ghost use Rattle.argus_texts.specs.ShapeSpelling.{names_inside, shape_spelling, ty_spelling};

use crate::writing::append;
use argus_contents::{Name, Shape, ShapeView, Ty};
use argus_memory::{OutOfMemory, Room};

/// Appends the written form of the shape. At `OutOfMemory` the text is cut back to what it was.
///
/// ```text
/// write_shape(&shape, &mut out)?;          // atomic_record[balance:int]
/// ```
pub fn write_shape(shape: &Shape, out: &mut String<Room>) -> Result<(), OutOfMemory>
    ensures written { OnOk result
        (string_bytes out.new ≡ string_bytes out.old ++ shape_spelling shape.now) }
    ensures unchanged { OnErr result (string_bytes out.new ≡ string_bytes out.old) }
{
    let start = out.len();
    let result = append_shape(shape, out);
    if result.is_err() {
        out.truncate(start);
    }
    result
}

fn append_shape(shape: &Shape, out: &mut String<Room>) -> Result<(), OutOfMemory>
    ensures grew { Grew (string_bytes out.old) (string_bytes out.new) }
    ensures written { OnOk result
        (string_bytes out.new ≡ string_bytes out.old ++ shape_spelling shape.now) }
{
    match shape.view() {
        ShapeView::Rec(fields) => {
            append("atomic_record[", out)?;
            append_names(fields, out)
        }
        ShapeView::Arr(item) => {
            append("atomic_array[", out)?;
            append_ty(item, out)?;
            append("]", out)
        }
        ShapeView::Var(tags) => {
            append("atomic_variant[", out)?;
            append_names(tags, out)
        }
    }
}

#[cycle(shape_writing)]
fn append_ty(ty: &Ty, out: &mut String<Room>) -> Result<(), OutOfMemory>
    ensures grew { Grew (string_bytes out.old) (string_bytes out.new) }
    ensures written { OnOk result
        (string_bytes out.new ≡ string_bytes out.old ++ ty_spelling (plain_ty ty.now)) }
{
    match ty {
        Ty::Null => append("null", out),
        Ty::Bool => append("bool", out),
        Ty::Int => append("int", out),
        Ty::Text => append("text", out),
        Ty::Atomic => append("atomic", out),
        Ty::Sequence(item) => {
            append("sequence[", out)?;
            append_ty(item, out)?;
            append("]", out)
        }
        Ty::Fields(fields) => {
            append("struct[", out)?;
            append_names(fields, out)
        }
        Ty::Choice(tags) => {
            append("oneof[", out)?;
            append_names(tags, out)
        }
    }
}

/// The names with their types, with commas between them, and the closing bracket.
#[cycle(shape_writing)]
fn append_names(names: &[(Name, Ty)], out: &mut String<Room>) -> Result<(), OutOfMemory>
    ensures grew { Grew (string_bytes out.old) (string_bytes out.new) }
    ensures written { OnOk result
        (string_bytes out.new ≡ string_bytes out.old ++ names_inside (plain_fields names.now)) }
{
    let Some(((name, ty), others)) = names.split_first() else {
        return append("]", out);
    };
    append_field(name, ty, out)?;
    for (name, ty) in others {
        append(",", out)?;
        append_field(name, ty, out)?;
    }
    append("]", out)
}

/// A name, a colon and its type.
#[cycle(shape_writing)]
fn append_field(name: &Name, ty: &Ty, out: &mut String<Room>) -> Result<(), OutOfMemory>
    ensures grew { Grew (string_bytes out.old) (string_bytes out.new) }
    ensures written { OnOk result
        (string_bytes out.new
        ≡ string_bytes out.old ++ (name.now ++ colon ∷ ty_spelling (plain_ty ty.now))) }
{
    append(name.as_str(), out)?;
    append(":", out)?;
    append_ty(ty, out)
}
