//! How a guardian for a slot is made.

ghost use Rattle.std.specs.Prelude.{IfOk, ◌≡◌};
ghost use Rattle.argus_embed.specs.Embedded.{empty_state};

use crate::embedded::Embedded;
use crate::slot::Slot;
use argus_values::{Heap, OutOfMemory};
use std::alloc::Global;

/// A guardian without objects, actions and entries: in the heap of the one in the other slot, or
/// otherwise in a heap of its own, whose word of 8 bytes is never freed.
pub fn opened_beside(alloc: Global, beside: &mut Slot) -> Result<Box<Embedded, Global>, OutOfMemory>
    ensures opened { IfOk result (λ guardian. guardian.value ≡ empty_state) }
    ensures beside { beside.new.held.store ≡ beside.old.held.store }
{
    let guardian = made_beside(alloc, beside)?;
    Ok(Box::new(alloc, guardian)?)
}

fn made_beside(alloc: Global, beside: &mut Slot) -> Result<Embedded, OutOfMemory>
    ensures made { IfOk result (λ guardian. guardian ≡ empty_state) }
    ensures beside { beside.new.held.store ≡ beside.old.held.store }
{
    let Some(other) = beside.take(alloc) else {
        return Ok(Embedded::new(Heap::new(alloc)?));
    };
    let guardian = other.beside();
    *beside = Slot::opened(other);
    Ok(guardian)
}
