//! `Effect`: what a committed topaction leaves.

ghost use Rattle.std.specs.Prelude.{IfOk, ◌≡◌};
ghost use Rattle.argus_contents.specs.Effect.{plain_effect};

use argus_contents::{Content, ObjId};
use argus_memory::{Heap, OutOfMemory, Room};

/// What a committed topaction leaves for good: each object that it has written, with its content,
/// which may be absent. If an object comes twice, the first counts.
///
/// Source: at a topaction's commit its versions become the bases (Argus Reference Manual,
/// MIT/LCS/TR-400, 1987).
///
/// ```text
/// let mut effect = Vec::new(heap.room());
/// effect.push((ObjId(0), Some(content)))?;
/// board.append(effect)?;
/// ```
pub type Effect = Vec<(ObjId, Option<Content>), Room>;

/// An effect equal to this one. `OutOfMemory`: nothing was copied.
pub fn duplicate_effect(heap: Heap, effect: &Effect) -> Result<Effect, OutOfMemory>
    ensures { IfOk result (λ copy. plain_effect copy.items ≡ plain_effect effect.now.items) }
{
    let mut copy = Vec::with_capacity(heap.room(), effect.len())?;
    for pair in effect {
        let content = Content::duplicate_option(heap, &pair.1)?;
        copy.push((pair.0, content))?;
    }
    Ok(copy)
}
