//! How objects are declared.

ghost use Rattle.argus_entries.specs.Call.{declare};
ghost use Rattle.argus_core.specs.GuardianState.{IsAnswered, StateInvariant};

use crate::engine::atomic_object::AtomicObject;
use crate::engine::guardian_state::GuardianState;
use crate::engine::refusing::refuse;
use argus_contents::limits::MAX_OBJECTS;
use argus_contents::{ObjId, Shape};
use argus_entries::{Call, Entry, Refusal, Reply};
use argus_memory::OutOfMemory;
use argus_objects::Cell;

/// Declares an object of this shape, or records the refusal.
///
/// `OutOfMemory` may come in place of any reply: the journal is unchanged, and the shape is
/// consumed.
pub(crate) fn declare(state: &mut GuardianState, shape: Shape) -> Result<Reply, OutOfMemory>
    requires { StateInvariant state.old }
    ensures kept { StateInvariant state.new }
    ensures answered { IsAnswered state.old state.new (declare shape) result }
{
    if state.objects.len() >= MAX_OBJECTS as usize {
        return refuse(state, Call::Declare(shape), Refusal::TooMany);
    }
    let kept = shape.duplicate(state.heap)?;
    state.journal.reserve()?;
    state.objects.reserve(1)?;
    let o = ObjId(state.objects.len() as u32);
    state.objects.push_reserved(AtomicObject {
        shape: kept,
        cell: Cell::new(state.heap, None),
    });
    state.journal.push(Entry {
        call: Call::Declare(shape),
        reply: Reply::Object(o),
    });
    Ok(Reply::Object(o))
}
