//! `ReadySlot`: what a host keeps in its own memory, a guardian whose commit is ready, or none.

ghost use Rattle.std.specs.Prelude.{IfNone, IfSome, IsSome, None, Some, ◌≡◌};

use crate::held_ready::HeldReady;
use crate::raw_box::RawBox;
use crate::ready_guardian::ReadyGuardian;
use std::alloc::Global;
use std::mem::replace;

const READY: u32 = 1;

/// A guardian whose commit is ready if `mark` is 1; with any other number there is none. All bytes
/// zero is none. This is `argus_ready` of the C header. Contracts see what is ready, or `None`, as
/// `held.store`. It is `Slot` for another type, and a copy of it, as `HeldReady` is.
#[repr(C)]
pub struct ReadySlot {
    mark: u32,
    pub held: HeldReady,
    ghost there: { mark ≡ 1 → IsSome held.store },
    ghost none: { IsSome held.store → mark ≡ 1 },
}

impl ReadySlot {
    /// A slot without a guardian.
    pub fn empty(alloc: Global) -> ReadySlot
        ensures { result.held.store ≡ None }
    {
        ReadySlot {
            mark: 0,
            held: HeldReady::none(alloc),
        }
    }

    /// A slot with this guardian.
    pub fn filled(ready: Box<ReadyGuardian, Global>) -> ReadySlot
        ensures { result.held.store ≡ Some ready.value }
    {
        ReadySlot {
            mark: READY,
            held: HeldReady::of_raw_box(RawBox::of(ready)),
        }
    }

    pub(crate) fn into_box(self) -> Option<Box<ReadyGuardian, Global>>
        ensures some { IfSome result (λ ready. self.held.store ≡ Some ready.value) }
        ensures none { IfNone result (self.held.store ≡ None) }
    {
        let ReadySlot { mark, held } = self;
        if mark == READY {
            Some(held.into_raw_box().into_box())
        } else {
            None
        }
    }

    /// Takes the guardian out, and leaves the slot empty.
    pub fn take(&mut self, alloc: Global) -> Option<Box<ReadyGuardian, Global>>
        ensures some { IfSome result (λ ready. self.old.held.store ≡ Some ready.value) }
        ensures none { IfNone result (self.old.held.store ≡ None) }
        ensures empty { self.new.held.store ≡ None }
    {
        replace(self, ReadySlot::empty(alloc)).into_box()
    }
}

impl Drop for ReadySlot {
    fn drop(self) {
        let _ready = self.into_box();
    }
}
