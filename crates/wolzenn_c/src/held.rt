//! An object on the heap, behind a pointer that C can keep.

ghost use Rattle.std.specs.Prelude.{◌≡◌, ◌≢◌, Option, Some, None};
ghost use Rattle.wolzenn_c.specs.Holding.{holdable};
ghost use Rattle.wolzenn_c.specs.declared.object.Object.{Object as Obj};

use crate::object::Object;
use std::alloc::Global;
use std::marker::{Model, Send};

/// An object on the heap, or nothing. Contracts see which, as `object`.
///
/// It can't be dropped: it ends by `into_box` or `end`, so that no object is leaked.
#[repr(C)]
pub struct Held {
    at: *mut u8,
    ghost object: { Option Obj } by { Prim.hlevel holdable },
}

impl Model for Held {
    ghost use Rattle.wolzenn_c.specs.Holding.{held_owns};
    ghost use Rattle.wolzenn_c.specs.contracts.object.Object.{the_row};

    ghost also_owns = { λ h. held_owns the_row h.at h.object };
}

// It may go to another thread: the block behind it is the heap's, and nothing in it belongs to a thread.
unsafe impl Send for Held {}

impl Held {
    /// A `Held` that holds nothing.
    pub fn empty() -> Held
        ensures { result.object ≡ None }
    {
        Held {
            at: std::ptr::null_mut(),
        }
    }

    /// A `Held` that keeps this object.
    pub fn of(object: Box<Object>) -> Held
        ensures { result.object ≡ Some object.value }
    {
        let at = Box::into_raw(object);
        Held { at: at as *mut u8 }
    }

    /// The object in its box again.
    pub fn into_box(self, alloc: Global) -> Box<Object>
        requires { self.object ≢ None }
        ensures { self.object ≡ Some result.value }
    {
        let Held { at } = self;
        unsafe { Box::from_raw(alloc, at as *mut Object) }
    }

    /// Ends a `Held` that holds nothing.
    pub fn end(self)
        requires { self.object ≡ None }
    {
        let Held { at: _ } = self;
    }
}
