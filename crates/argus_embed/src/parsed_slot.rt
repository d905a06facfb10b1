//! `ParsedSlot`: what a host keeps in its own memory, a call that was read, or none.

ghost use Rattle.std.specs.Prelude.{IfNone, IfSome, IsSome, None, Some, ◌≡◌};

use crate::held_parsed::HeldParsed;
use crate::parsed_call::ParsedCall;
use crate::raw_box::RawBox;
use std::alloc::Global;
use std::mem::replace;

const PARSED: u32 = 1;

/// A call that was read if `mark` is 1; with any other number there is none. All bytes zero is none.
/// This is `argus_parsed` of the C header. Contracts see the call, or `None`, as `held.store`. It is
/// `Slot` for another type, and a copy of it, as `HeldParsed` is.
#[repr(C)]
pub struct ParsedSlot {
    mark: u32,
    pub held: HeldParsed,
    ghost there: { mark ≡ 1 → IsSome held.store },
    ghost none: { IsSome held.store → mark ≡ 1 },
}

impl ParsedSlot {
    /// A slot without a call.
    pub fn empty(alloc: Global) -> ParsedSlot
        ensures { result.held.store ≡ None }
    {
        ParsedSlot {
            mark: 0,
            held: HeldParsed::none(alloc),
        }
    }

    /// A slot with this call.
    pub fn filled(parsed: Box<ParsedCall, Global>) -> ParsedSlot
        ensures { result.held.store ≡ Some parsed.value }
    {
        ParsedSlot {
            mark: PARSED,
            held: HeldParsed::of_raw_box(RawBox::of(parsed)),
        }
    }

    pub(crate) fn into_box(self) -> Option<Box<ParsedCall, Global>>
        ensures some { IfSome result (λ parsed. self.held.store ≡ Some parsed.value) }
        ensures none { IfNone result (self.held.store ≡ None) }
    {
        let ParsedSlot { mark, held } = self;
        if mark == PARSED {
            Some(held.into_raw_box().into_box())
        } else {
            None
        }
    }

    /// Takes the call out, and leaves the slot empty.
    pub fn take(&mut self, alloc: Global) -> Option<Box<ParsedCall, Global>>
        ensures some { IfSome result (λ parsed. self.old.held.store ≡ Some parsed.value) }
        ensures none { IfNone result (self.old.held.store ≡ None) }
        ensures empty { self.new.held.store ≡ None }
    {
        replace(self, ParsedSlot::empty(alloc)).into_box()
    }
}

impl Drop for ParsedSlot {
    fn drop(self) {
        let _parsed = self.into_box();
    }
}
