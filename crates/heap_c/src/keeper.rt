//! A handle in the memory of C: one pointer to what it owns, or null.
ghost use Rattle.std.specs.Prelude.{◌≡◌, MatchOption, None, Option, Some};
ghost use Rattle.heap_c.specs.Owning.{collecting_coded, owns_collecting};
ghost use Rattle.heap_c.specs.Keeping.{Keeps};

use crate::collecting::Collecting;
use crate::handle::Opaque;
use crate::parts::Parts;
use std::alloc::Global;
use std::marker::Model;
use std::{mem, ptr};

/// The collector's handle. Zero bytes are a handle of nothing.
#[repr(C)]
pub struct HeapCol {
    ptr: *mut Opaque,
    alloc: Global,
    pub ghost collecting: { Option Keeps } by { collecting_coded },
}

impl Model for HeapCol {
    ghost also_owns = { λ h. owns_collecting h.alloc h.ptr h.collecting };
}

unsafe impl Send for HeapCol {}

impl HeapCol {
    ghost use types.Logic.{sem};
    ghost use Rattle.heap_c.specs.Lending.{lends_collecting};

    /// A handle of nothing.
    fn null(alloc: Global) -> HeapCol
        ensures { result.collecting ≡ None }
    {
        HeapCol {
            ptr: ptr::null_mut(),
            alloc,
        }
    }

    /// The handle that owns what the parts do.
    fn of_parts(parts: Parts<Collecting>) -> HeapCol
        ensures { result.collecting ≡ Some parts.value }
    {
        let Parts { ptr, alloc } = parts;
        HeapCol {
            ptr: ptr as *mut Opaque,
            alloc,
        }
    }

    /// What it owns, as a box.
    fn into_box(self) -> Option<Box<Collecting>>
        ensures { MatchOption result (self.collecting ≡ None)
            (λ owned. self.collecting ≡ Some owned.value) }
    {
        let HeapCol { ptr, alloc } = self;
        if ptr.is_null() {
            return None;
        }
        Some(unsafe { Box::from_raw(alloc, ptr as *mut Collecting) })
    }

    /// What it owns.
    pub fn collecting(&mut self) -> Option<&mut Collecting>
        ensures* writes_back { sem 𝓛 (lends_collecting self.entry result) }
        ensures value { MatchOption result (self.old.collecting ≡ None)
            (λ r. self.old.collecting ≡ Some r.now) }
    {
        if self.ptr.is_null() {
            return None;
        }
        Some(unsafe { &mut *(self.ptr as *mut Collecting) })
    }

    /// From now on it owns this. What it owned before is freed.
    pub fn set(&mut self, value: Box<Collecting>)
        ensures { self.new.collecting ≡ Some value.value }
    {
        *self = HeapCol::of_parts(Parts::of(value));
    }

    /// Takes away what it owns.
    pub fn take(&mut self, alloc: Global) -> Option<Box<Collecting>>
        ensures empty { self.new.collecting ≡ None }
        ensures value { MatchOption result (self.old.collecting ≡ None)
            (λ b. self.old.collecting ≡ Some b.value) }
    {
        mem::replace(self, HeapCol::null(alloc)).into_box()
    }
}

impl Drop for HeapCol {
    fn drop(self) {
        drop(self.into_box());
    }
}
