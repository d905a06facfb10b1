//! `Ty`: the type of a value.

ghost use Rattle.std.specs.Prelude.{◌≡◌, ◌↔◌, true, IfOk};
ghost use Rattle.argus_contents.specs.Decided.{said_equivalence, ty_decided};
ghost use Rattle.argus_contents.specs.{Same.{same_fields, same_ty}, Ty.{plain_ty, plain_fields}};

use crate::name::Name;
use argus_memory::{Heap, OutOfMemory, Room};

/// The type of a value.
///
/// A struct or a oneof has 1 to 64 distinct names, and a type has depth at most 16, wherever it is
/// in a [`Shape`](crate::Shape); the constructors of shapes test it.
///
/// Source: the built-in immutable types of the Argus Reference Manual (MIT/LCS/TR-400, 1987).
///
/// ```text
/// let numbers = Ty::Sequence(Box::new(heap.room(), Ty::Int)?);      // sequence[int]
/// ```
#[derive(Debug)]
pub enum Ty {
    Null,
    Bool,
    Int,
    Text,
    /// A reference to an object of any shape.
    Atomic,
    Sequence(Box<Ty, Room>),
    /// `struct[..]`: a name and a type for each part.
    Fields(Vec<(Name, Ty), Room>),
    /// `oneof[..]`: a name and a type for each tag.
    Choice(Vec<(Name, Ty), Room>),
}

// Written by hand, so that dropping a type is one call; a derived `Drop` is expanded at each place.
impl Drop for Ty {
    fn drop(self) {
        match self {
            Ty::Null | Ty::Bool | Ty::Int | Ty::Text | Ty::Atomic => {}
            Ty::Sequence(_) => {}
            Ty::Fields(_) | Ty::Choice(_) => {}
        }
    }
}

impl Ty {
    /// A type equal to this one. `OutOfMemory`: nothing was copied.
    pub fn duplicate(&self, heap: Heap) -> Result<Ty, OutOfMemory>
        ensures { IfOk result (λ copy. plain_ty copy ≡ plain_ty self.now) }
    {
        duplicate_ty(heap, self)
    }
}

impl PartialEq for Ty {
    ghost eq = { λ a b. same_ty (plain_ty a) (plain_ty b) };

    ghost laws = { said_equivalence plain_ty same_ty ty_decided };

    /// Whether both say the same: names by their bytes. It takes no memory.
    fn eq(&self, other: &Ty) -> bool
        ensures { (result ≡ true) ↔ (plain_ty self.now ≡ plain_ty other.now) }
    {
        is_same(self, other)
    }
}

#[cycle(same)]
pub(crate) fn is_same(a: &Ty, b: &Ty) -> bool
    ensures { result ≡ same_ty (plain_ty a.now) (plain_ty b.now) }
{
    match (a, b) {
        (Ty::Null, Ty::Null) => true,
        (Ty::Bool, Ty::Bool) => true,
        (Ty::Int, Ty::Int) => true,
        (Ty::Text, Ty::Text) => true,
        (Ty::Atomic, Ty::Atomic) => true,
        (Ty::Sequence(a), Ty::Sequence(b)) => is_same(a, b),
        (Ty::Fields(a), Ty::Fields(b)) => are_same(a, b),
        (Ty::Choice(a), Ty::Choice(b)) => are_same(a, b),
        _ => false,
    }
}

/// Whether these names and types say the same, one by one.
#[cycle(same)]
pub(crate) fn are_same(a: &[(Name, Ty)], b: &[(Name, Ty)]) -> bool
    ensures { result ≡ same_fields (plain_fields a.now) (plain_fields b.now) }
{
    if a.len() != b.len() {
        return false;
    }
    for i in 0..a.len() {
        let (name, ty) = &a[i];
        let (other_name, other_ty) = &b[i];
        if name != other_name || !is_same(ty, other_ty) {
            return false;
        }
    }
    true
}

#[cycle(duplicate)]
fn duplicate_ty(heap: Heap, ty: &Ty) -> Result<Ty, OutOfMemory>
    ensures { IfOk result (λ copy. plain_ty copy ≡ plain_ty ty.now) }
{
    match ty {
        Ty::Null => Ok(Ty::Null),
        Ty::Bool => Ok(Ty::Bool),
        Ty::Int => Ok(Ty::Int),
        Ty::Text => Ok(Ty::Text),
        Ty::Atomic => Ok(Ty::Atomic),
        Ty::Sequence(item) => {
            let copy = duplicate_ty(heap, item)?;
            Ok(Ty::Sequence(Box::new(heap.room(), copy)?))
        }
        Ty::Fields(fields) => Ok(Ty::Fields(duplicate_fields(heap, fields)?)),
        Ty::Choice(tags) => Ok(Ty::Choice(duplicate_fields(heap, tags)?)),
    }
}

/// Names and types equal to these, in the same order.
#[cycle(duplicate)]
pub(crate) fn duplicate_fields(
    heap: Heap,
    fields: &[(Name, Ty)],
) -> Result<Vec<(Name, Ty), Room>, OutOfMemory>
    ensures { IfOk result (λ copies. plain_fields copies.items ≡ plain_fields fields.now) }
{
    let mut copies = Vec::with_capacity(heap.room(), fields.len())?;
    for (name, ty) in fields {
        let name = name.duplicate(heap)?;
        copies.push((name, duplicate_ty(heap, ty)?))?;
    }
    Ok(copies)
}
