//! `Slot`: what a host keeps in its own memory, a guardian or none.

ghost use Rattle.std.specs.Prelude.{IfNone, IfSome, IsSome, None, Some, ◌≡◌};

use crate::embedded::Embedded;
use crate::held::Held;
use crate::raw_box::RawBox;
use std::alloc::Global;
use std::mem::replace;

const OPEN: u32 = 1;

/// A guardian if `mark` is 1; with any other number the slot is closed. All bytes zero is a closed
/// one. This is `argus_guardian` of the C header. Contracts see the guardian, or `None`, as
/// `held.store`.
#[repr(C)]
pub struct Slot {
    mark: u32,
    pub held: Held,
    ghost there: { mark ≡ 1 → IsSome held.store },
    ghost none: { IsSome held.store → mark ≡ 1 },
}

impl Slot {
    /// A slot without a guardian.
    pub fn closed(alloc: Global) -> Slot
        ensures { result.held.store ≡ None }
    {
        Slot {
            mark: 0,
            held: Held::none(alloc),
        }
    }

    /// A slot with this guardian.
    pub fn opened(guardian: Box<Embedded, Global>) -> Slot
        ensures { result.held.store ≡ Some guardian.value }
    {
        Slot {
            mark: OPEN,
            held: Held::of_raw_box(RawBox::of(guardian)),
        }
    }

    pub(crate) fn into_box(self) -> Option<Box<Embedded, Global>>
        ensures some { IfSome result (λ guardian. self.held.store ≡ Some guardian.value) }
        ensures none { IfNone result (self.held.store ≡ None) }
    {
        let Slot { mark, held } = self;
        if mark == OPEN {
            Some(held.into_raw_box().into_box())
        } else {
            None
        }
    }

    /// Takes the guardian out, and leaves the slot closed.
    pub fn take(&mut self, alloc: Global) -> Option<Box<Embedded, Global>>
        ensures some { IfSome result (λ guardian. self.old.held.store ≡ Some guardian.value) }
        ensures none { IfNone result (self.old.held.store ≡ None) }
        ensures closed { self.new.held.store ≡ None }
    {
        replace(self, Slot::closed(alloc)).into_box()
    }
}

impl Drop for Slot {
    fn drop(self) {
        let _guardian = self.into_box();
    }
}
