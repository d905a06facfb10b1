//! What a look copies out of a table.

ghost use Rattle.std.specs.Prelude.{[], ◌++◌, ◌≡◌, ◌∷◌, IfOk, OnOk, map};
ghost use Rattle.argus_board.specs.Effects.{content_of_object, plain_contents};

use argus_contents::{Content, ObjId};
use argus_memory::{Heap, OutOfMemory, Room};

/// A copy of the content of each of these objects; none if it is absent or the table lacks it.
pub(crate) fn copies_of(
    heap: Heap,
    contents: &[Option<Content>],
    objects: &[ObjId],
) -> Result<Vec<Option<Content>, Room>, OutOfMemory>
    ensures { IfOk result (λ copies. plain_contents copies.items
        ≡ map (λ o. content_of_object (plain_contents contents.now) o.0) objects.now) }
{
    let mut copies = Vec::with_capacity(heap.room(), objects.len())?;
    for object in objects {
        append_copy_of(heap, contents, *object, &mut copies)?;
    }
    Ok(copies)
}

// Appends a copy of the object's content; none if it is absent or the table lacks it.
#[inline(always)]
fn append_copy_of(
    heap: Heap,
    contents: &[Option<Content>],
    object: ObjId,
    copies: &mut Vec<Option<Content>, Room>,
) -> Result<(), OutOfMemory>
    ensures { OnOk result (plain_contents copies.new.items ≡ plain_contents copies.old.items
        ++ content_of_object (plain_contents contents.now) object.0 ∷ []) }
{
    match contents.get(object.0 as usize) {
        Some(content) => Content::append_copy(heap, content, copies),
        None => Ok(copies.push(None)?),
    }
}

/// Copies of these contents, in the same order.
pub(crate) fn duplicate_contents(
    heap: Heap,
    contents: &[Option<Content>],
) -> Result<Vec<Option<Content>, Room>, OutOfMemory>
    ensures { IfOk result (λ copies. plain_contents copies.items ≡ plain_contents contents.now) }
{
    let mut copies = Vec::with_capacity(heap.room(), contents.len())?;
    for content in contents {
        Content::append_copy(heap, content, &mut copies)?;
    }
    Ok(copies)
}
