//! A box taken apart, with its parts in sight of the handles.
ghost use Rattle.std.specs.Prelude.{◌≡◌};
ghost use Rattle.std.specs.Box.Ownership.{box_owns};
ghost use Rattle.std.specs.contracts.impls.GlobalAllocator.TheImpl.{ghosts};

use std::alloc::Global;
use std::marker::Model;

/// The pointer of a box and its allocator's handle, with what the box owned.
pub struct Parts<T> {
    pub(crate) ptr: *mut T,
    pub(crate) alloc: Global,
    pub ghost value: { T },
}

impl<T> Model for Parts<T> {
    ghost also_owns = { λ p. box_owns (ghosts.dealloc_token p.alloc) T.row p.ptr p.value };
}

impl<T: Drop> Parts<T> {
    /// Takes a box apart.
    pub fn of(value: Box<T>) -> Parts<T>
        ensures value { result.value ≡ value.value }
    {
        let (ptr, alloc) = Box::into_raw_with_allocator(value);
        Parts { ptr, alloc }
    }
}
