//! `RawBox`: a `Box` whose fields the modules beside it can see.

ghost use Rattle.std.specs.{Prelude.{◌≡◌}, Box.Ownership.box_owns};

use std::alloc::Allocator;
use std::marker::Model;

/// A box taken apart: its address and its allocator, which together own what the box owned.
pub(crate) struct RawBox<T, A: Allocator> {
    pub(crate) ptr: *mut T,
    pub(crate) alloc: A,
    pub(crate) ghost value: { T },
}

impl<T, A: Allocator> Model for RawBox<T, A> {
    ghost also_owns = { λ p. box_owns (A.dealloc_token p.alloc) T.row p.ptr p.value };
}

impl<T, A: Allocator> RawBox<T, A> {
    pub(crate) fn of(b: Box<T, A>) -> RawBox<T, A>
    where
        T: Drop,
        ensures { result.value ≡ b.value }
    {
        let (ptr, alloc) = Box::into_raw_with_allocator(b);
        RawBox { ptr, alloc }
    }

    pub(crate) fn into_box(self) -> Box<T, A>
        ensures { result.value ≡ self.value }
    {
        let RawBox { ptr, alloc } = self;
        unsafe { Box::from_raw(alloc, ptr) }
    }
}
