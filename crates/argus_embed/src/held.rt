//! `Held`: the address of a guardian that a host keeps.

ghost use Rattle.std.specs.Prelude.{IsSome, None, Option, Some, ◌≡◌};
ghost use Rattle.argus_embed.specs.Held.{held_coded, held_owns};
ghost use Rattle.argus_embed.specs.Embedded.{EmbeddedState};

use crate::embedded::Embedded;
use crate::raw_box::RawBox;
use std::alloc::Global;
use std::marker::Model;

/// The address of an embedded guardian, which is owned while `store` has one. C sees an untyped
/// pointer: no owner of Rattle's crosses to it.
#[repr(C)]
#[derive(Drop)]
pub struct Held {
    at: *mut u8,
    alloc: Global,
    pub ghost store: { Option EmbeddedState } by { held_coded },
}

impl Model for Held {
    ghost also_owns = { λ h. held_owns h.alloc h.at h.store };
}

impl Held {
    pub(crate) fn none(alloc: Global) -> Held
        ensures { result.store ≡ None }
    {
        Held {
            at: std::ptr::null_mut(),
            alloc,
        }
    }

    pub(crate) fn of_raw_box(raw: RawBox<Embedded, Global>) -> Held
        ensures { result.store ≡ Some raw.value }
    {
        let RawBox { ptr, alloc } = raw;
        Held {
            at: ptr as *mut u8,
            alloc,
        }
    }

    pub(crate) fn into_raw_box(self) -> RawBox<Embedded, Global>
        requires { IsSome self.store }
        ensures { Some result.value ≡ self.store }
    {
        let Held { at, alloc } = self;
        RawBox {
            ptr: at as *mut Embedded,
            alloc,
        }
    }
}

unsafe impl Send for Held {}
