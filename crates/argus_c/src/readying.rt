//! The exports for a commit in two steps: one makes it ready, others then make or cancel it.

ghost use Rattle.std.specs.{Option.option_map, Prelude.{None, length, pos, ◌<◌, ◌≡◌, ◌≢◌, ◌≤◌}};
ghost use Rattle.argus_c.specs.ReadySlots.{IsBack, IsCommitted, IsReadied, IsStatusOfCancel};
ghost use Rattle.argus_c.specs.ReadySlots.{IsStatusOfLine, IsStatusOfMake, IsStatusOfReady};
ghost use Rattle.argus_c.specs.Slots.{IsFront, IsPast};
ghost use Rattle.argus_embed.specs.ReadyEmbedded.{commit_line};

use crate::{DONE, NO_MEMORY, NOT_OPEN, TOO_SMALL};
use argus_embed::{ReadyGuardian, ReadySlot, Slot};
use std::alloc::Global;

// The slot that a guardian should go to has one already.
const OCCUPIED: u32 = 30;

/// Prepares the commit of an action. The guardian goes to the ready slot.
#[unsafe(no_mangle)]
pub extern "C" fn argus_c_ready_commit(
    alloc: Global,
    slot: &mut Slot,
    ready: &mut ReadySlot,
    action: u32,
) -> u32
    ensures done { result ≡ 0 → IsReadied slot.old.held.store action ready.new.held.store
        × (slot.new.held.store ≡ None) }
    ensures same { result ≢ 0 → (slot.new.held.store ≡ slot.old.held.store)
        × (ready.new.held.store ≡ ready.old.held.store) }
    ensures status { IsStatusOfReady slot.old.held.store ready.old.held.store result }
{
    let Some(guardian) = slot.take(alloc) else {
        return NOT_OPEN;
    };
    if let Some(other) = ready.take(alloc) {
        *ready = ReadySlot::filled(other);
        *slot = Slot::opened(guardian);
        return OCCUPIED;
    }
    match ReadyGuardian::boxed(alloc, guardian, action) {
        Ok(made) => {
            *ready = ReadySlot::filled(made);
            DONE
        }
        Err(guardian) => {
            *slot = Slot::opened(guardian);
            NO_MEMORY
        }
    }
}

/// Puts the journal's line that the commit will make at the front of the room, and says its size.
#[unsafe(no_mangle)]
pub extern "C" fn argus_c_ready_line(
    alloc: Global,
    ready: &mut ReadySlot,
    room: &mut [u8],
    size: &mut usize,
) -> u32
    ensures done { result ≡ 0
        → IsFront (option_map commit_line ready.new.held.store) size.new room.old room.new }
    ensures small { result ≡ 17
        → IsPast (option_map commit_line ready.new.held.store) size.new room.old
        × (room.new ≡ room.old) }
    ensures status { IsStatusOfLine ready.old.held.store result }
    ensures same { ready.new.held.store ≡ ready.old.held.store }
    ensures room { length room.new ≡ length room.old }
    ensures none { result ≢ 0 → result ≢ 17 → (size.new ≡ 0) × (room.new ≡ room.old) }
{
    *size = 0;
    let Some(commit) = ready.take(alloc) else {
        return NOT_OPEN;
    };
    let needed = commit.line(room);
    *ready = ReadySlot::filled(commit);
    match needed {
        Ok(needed) => {
            *size = needed;
            if needed <= room.len() {
                DONE
            } else {
                TOO_SMALL
            }
        }
        Err(_) => NO_MEMORY,
    }
}

/// Makes the commit that is ready. The guardian goes back to the slot.
#[unsafe(no_mangle)]
pub extern "C" fn argus_c_make_ready(
    alloc: Global,
    ready: &mut ReadySlot,
    slot: &mut Slot,
    number: &mut i64,
) -> u32
    ensures made { result < 10
        → IsCommitted ready.old.held.store slot.new.held.store (result, number.new)
        × (ready.new.held.store ≡ None) }
    ensures same { 10 ≤ result → (slot.new.held.store ≡ slot.old.held.store)
        × (ready.new.held.store ≡ ready.old.held.store) × (number.new ≡ pos 0) }
    ensures status { IsStatusOfMake ready.old.held.store slot.old.held.store result }
{
    *number = 0;
    let Some(commit) = ready.take(alloc) else {
        return NOT_OPEN;
    };
    if let Some(other) = slot.take(alloc) {
        *slot = Slot::opened(other);
        *ready = ReadySlot::filled(commit);
        return OCCUPIED;
    }
    let (guardian, outcome) = Box::into_inner(commit).make();
    let (status, value) = outcome.codes();
    *slot = Slot::opened(guardian);
    *number = value;
    status
}

/// Puts the guardian back into the slot unchanged, without the commit.
#[unsafe(no_mangle)]
pub extern "C" fn argus_c_cancel_ready(alloc: Global, ready: &mut ReadySlot, slot: &mut Slot) -> u32
    ensures done { result ≡ 0 → IsBack ready.old.held.store slot.new.held.store
        × (ready.new.held.store ≡ None) }
    ensures same { result ≢ 0 → (slot.new.held.store ≡ slot.old.held.store)
        × (ready.new.held.store ≡ ready.old.held.store) }
    ensures status { IsStatusOfCancel ready.old.held.store slot.old.held.store result }
{
    let Some(commit) = ready.take(alloc) else {
        return NOT_OPEN;
    };
    if let Some(other) = slot.take(alloc) {
        *slot = Slot::opened(other);
        *ready = ReadySlot::filled(commit);
        return OCCUPIED;
    }
    *slot = Slot::opened(Box::into_inner(commit).cancel());
    DONE
}
