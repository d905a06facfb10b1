//! `HeldReady`: the address of a guardian whose commit is ready, which a host keeps.

ghost use Rattle.std.specs.Prelude.{IsSome, None, Option, Some, ◌≡◌};
ghost use Rattle.argus_embed.specs.HeldReady.{held_ready_coded, held_ready_owns};
ghost use Rattle.argus_embed.specs.ReadyEmbedded.{ReadyState};

use crate::raw_box::RawBox;
use crate::ready_guardian::ReadyGuardian;
use std::alloc::Global;
use std::marker::Model;

/// The address of a guardian whose commit is ready, which is owned while `store` has one. C sees
/// an untyped pointer: no owner of Rattle's crosses to it.
///
/// It is `Held` for another type, and a copy of it: the signature of an export can't have a struct
/// with a type parameter (`unsupported-generic-in-c`), so a slot can't either.
#[repr(C)]
#[derive(Drop)]
pub struct HeldReady {
    at: *mut u8,
    alloc: Global,
    pub ghost store: { Option ReadyState } by { held_ready_coded },
}

impl Model for HeldReady {
    ghost also_owns = { λ h. held_ready_owns h.alloc h.at h.store };
}

impl HeldReady {
    pub(crate) fn none(alloc: Global) -> HeldReady
        ensures { result.store ≡ None }
    {
        HeldReady {
            at: std::ptr::null_mut(),
            alloc,
        }
    }

    pub(crate) fn of_raw_box(raw: RawBox<ReadyGuardian, Global>) -> HeldReady
        ensures { result.store ≡ Some raw.value }
    {
        let RawBox { ptr, alloc } = raw;
        HeldReady {
            at: ptr as *mut u8,
            alloc,
        }
    }

    pub(crate) fn into_raw_box(self) -> RawBox<ReadyGuardian, Global>
        requires { IsSome self.store }
        ensures { Some result.value ≡ self.store }
    {
        let HeldReady { at, alloc } = self;
        RawBox {
            ptr: at as *mut ReadyGuardian,
            alloc,
        }
    }
}

unsafe impl Send for HeldReady {}
