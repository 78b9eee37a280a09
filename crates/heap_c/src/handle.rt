//! A handle in the memory of C: one pointer to what it owns, or null.
ghost use Rattle.std.specs.Prelude.{◌≡◌, MatchOption, None, Option, Some};
ghost use Rattle.heap_c.specs.Owning.{mine_coded, owns_mine};
ghost use Rattle.heap_c.specs.Holding.{Mutator};

use crate::mine::Mine;
use crate::parts::Parts;
use std::alloc::Global;
use std::marker::Model;
use std::{mem, ptr};

/// What a handle points to, as C sees it.
#[repr(C)]
pub struct Opaque {
    byte: u8,
}

/// A mutator's handle. Zero bytes are a handle of nothing.
#[repr(C)]
pub struct HeapMut {
    ptr: *mut Opaque,
    alloc: Global,
    pub ghost mine: { Option Mutator } by { mine_coded },
}

impl Model for HeapMut {
    ghost also_owns = { λ h. owns_mine h.alloc h.ptr h.mine };
}

unsafe impl Send for HeapMut {}

impl HeapMut {
    ghost use types.Logic.{sem};
    ghost use Rattle.heap_c.specs.Lending.{lends_mine};

    /// A handle of nothing.
    fn null(alloc: Global) -> HeapMut
        ensures { result.mine ≡ None }
    {
        HeapMut {
            ptr: ptr::null_mut(),
            alloc,
        }
    }

    /// The handle that owns what the parts do.
    fn of_parts(parts: Parts<Mine>) -> HeapMut
        ensures { result.mine ≡ Some parts.value }
    {
        let Parts { ptr, alloc } = parts;
        HeapMut {
            ptr: ptr as *mut Opaque,
            alloc,
        }
    }

    /// What it owns, as a box.
    fn into_box(self) -> Option<Box<Mine>>
        ensures { MatchOption result (self.mine ≡ None)
            (λ owned. self.mine ≡ Some owned.value) }
    {
        let HeapMut { ptr, alloc } = self;
        if ptr.is_null() {
            return None;
        }
        Some(unsafe { Box::from_raw(alloc, ptr as *mut Mine) })
    }

    /// What it owns.
    pub fn mine(&mut self) -> Option<&mut Mine>
        ensures* writes_back { sem 𝓛 (lends_mine self.entry result) }
        ensures value { MatchOption result (self.old.mine ≡ None)
            (λ r. self.old.mine ≡ Some r.now) }
    {
        if self.ptr.is_null() {
            return None;
        }
        Some(unsafe { &mut *(self.ptr as *mut Mine) })
    }

    /// From now on it owns this. What it owned before is freed.
    pub fn set(&mut self, value: Box<Mine>)
        ensures { self.new.mine ≡ Some value.value }
    {
        *self = HeapMut::of_parts(Parts::of(value));
    }

    /// Takes away what it owns.
    pub fn take(&mut self, alloc: Global) -> Option<Box<Mine>>
        ensures empty { self.new.mine ≡ None }
        ensures value { MatchOption result (self.old.mine ≡ None)
            (λ b. self.old.mine ≡ Some b.value) }
    {
        mem::replace(self, HeapMut::null(alloc)).into_box()
    }
}

impl Drop for HeapMut {
    fn drop(self) {
        drop(self.into_box());
    }
}
