//! `HeldParsed`: the address of a call that was read, which a host keeps.

ghost use Rattle.std.specs.Prelude.{IsSome, None, Option, Some, ◌≡◌};
ghost use Rattle.argus_embed.specs.HeldParsed.{held_parsed_coded, held_parsed_owns};
ghost use Rattle.argus_embed.specs.ParsedCall.{ParsedState};

use crate::parsed_call::ParsedCall;
use crate::raw_box::RawBox;
use std::alloc::Global;
use std::marker::Model;

/// The address of a call that was read, which is owned while `store` has one. C sees an untyped
/// pointer: no owner of Rattle's crosses to it. It is `Held` for another type, and a copy of it, as
/// `HeldReady` is.
#[repr(C)]
#[derive(Drop)]
pub struct HeldParsed {
    at: *mut u8,
    alloc: Global,
    pub ghost store: { Option ParsedState } by { held_parsed_coded },
}

impl Model for HeldParsed {
    ghost also_owns = { λ h. held_parsed_owns h.alloc h.at h.store };
}

impl HeldParsed {
    pub(crate) fn none(alloc: Global) -> HeldParsed
        ensures { result.store ≡ None }
    {
        HeldParsed {
            at: std::ptr::null_mut(),
            alloc,
        }
    }

    pub(crate) fn of_raw_box(raw: RawBox<ParsedCall, Global>) -> HeldParsed
        ensures { result.store ≡ Some raw.value }
    {
        let RawBox { ptr, alloc } = raw;
        HeldParsed {
            at: ptr as *mut u8,
            alloc,
        }
    }

    pub(crate) fn into_raw_box(self) -> RawBox<ParsedCall, Global>
        requires { IsSome self.store }
        ensures { Some result.value ≡ self.store }
    {
        let HeldParsed { at, alloc } = self;
        RawBox {
            ptr: at as *mut ParsedCall,
            alloc,
        }
    }
}

unsafe impl Send for HeldParsed {}
