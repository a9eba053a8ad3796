//! The handle of a C program.

ghost use Rattle.std.specs.Prelude.{◌≡◌, is_some, None, Some, MatchOption};

use crate::held::Held;
use crate::object::Object;
use std::alloc::Global;

/// The number of the library's version, the same as that of its header.
const VERSION: u32 = 8;

/// A handle, which holds an object or nothing. Zeros are a handle that holds nothing.
///
/// The right to free memory takes no room in it.
#[repr(C)]
pub struct WzHandle {
    full: bool,
    held: Held,
    alloc: Global,
    ghost shows: { is_some held.object ≡ full },
}

/// It frees what it holds.
impl Drop for WzHandle {
    fn drop(self) {
        self.into_box();
    }
}

impl WzHandle {
    /// A handle that holds nothing.
    fn empty(alloc: Global) -> WzHandle
        ensures { result.held.object ≡ None }
    {
        WzHandle {
            full: false,
            held: Held::empty(),
            alloc,
        }
    }

    /// A handle that holds this object.
    fn of(alloc: Global, object: Box<Object>) -> WzHandle
        ensures { result.held.object ≡ Some object.value }
    {
        WzHandle {
            full: true,
            held: Held::of(object),
            alloc,
        }
    }

    /// The object, if the handle holds one.
    fn into_box(self) -> Option<Box<Object>>
        ensures { MatchOption result (self.held.object ≡ None) (λ object. self.held.object ≡ Some object.value) }
    {
        let WzHandle { full, held, alloc } = self;
        if full {
            Some(held.into_box(alloc))
        } else {
            held.end();
            None
        }
    }

    /// Takes the object out, if it holds one.
    pub fn take(&mut self, alloc: Global) -> Option<Box<Object>>
        ensures empty { self.new.held.object ≡ None }
        ensures object { MatchOption result (self.old.held.object ≡ None)
            (λ object. self.old.held.object ≡ Some object.value) }
    {
        std::mem::replace(self, WzHandle::empty(alloc)).into_box()
    }

    /// Frees what it holds. It holds nothing then.
    pub fn clear(&mut self, alloc: Global)
        ensures { self.new.held.object ≡ None }
    {
        *self = WzHandle::empty(alloc);
    }

    /// Puts an object in. What it held before is freed.
    pub fn put(&mut self, alloc: Global, object: Box<Object>)
        ensures { self.new.held.object ≡ Some object.value }
    {
        *self = WzHandle::of(alloc, object);
    }
}

/// A handle may go to another thread: it is a law of its type.
pub fn handle_crosses(handle: WzHandle) -> WzHandle
    ensures { result ≡ handle }
{
    crossing(handle)
}

fn crossing<T: Send>(it: T) -> T
    ensures { result ≡ it }
{
    it
}

/// The library's version.
#[unsafe(no_mangle)]
pub extern "C" fn wz_version() -> u32
    ensures { result ≡ 8 }
{
    VERSION
}

/// Frees what the handle holds. It holds nothing then.
#[unsafe(no_mangle)]
pub extern "C" fn wz_close(alloc: Global, handle: &mut WzHandle)
    // That what it held is freed is in no clause: the handle's `Drop` frees it, and `tests/library` counts.
    ensures { handle.new.held.object ≡ None }
{
    handle.clear(alloc);
}
