//! A recovery in several handles.

ghost use Rattle.std.specs.Prelude.{◌≡◌, ◌≢◌, ◌⊎◌, Some, None, MatchOption};
ghost use Rattle.std.specs.Arc.{arc_value};
ghost use Rattle.wolzenn_c.specs.Objects.{as_recovered};

use crate::codes::{CLOSED, DONE, NO_MEMORY};
use crate::handle::WzHandle;
use crate::object::Object;
use log_in_memory::RecoveryPairs;
use std::alloc::Global;
use std::sync::Arc;

/// Puts the recovery that one handle holds into another one too. Each of them is used by one thread at a time, as ever,
/// so several threads look up pairs at once, each by its own. Nothing is copied: what was recovered is freed with the
/// last of these handles.
///
/// What the other handle held before is freed. `DONE`: it holds the recovery. `NO_MEMORY`. `CLOSED`: the first handle
/// holds no recovery. At any answer but `DONE` the other one holds nothing. The first one holds what it held.
#[unsafe(no_mangle)]
pub extern "C" fn wz_recovery_share(
    alloc: Global,
    handle: &mut WzHandle,
    other: &mut WzHandle,
) -> u32
    ensures same { handle.new.held.object ≡ handle.old.held.object }
    ensures shared { MatchOption (as_recovered handle.old.held.object) (result ≡ CLOSED)
        (λ held. ((result ≡ DONE) × (as_recovered other.new.held.object ≡ Some held)) ⊎ (result ≡ NO_MEMORY)) }
    ensures nothing { result ≢ DONE → other.new.held.object ≡ None }
{
    other.clear(alloc);
    let Some(object) = handle.take(alloc) else {
        return CLOSED;
    };
    let code = match &*object {
        Object::Recovery(recovery) => put_again(alloc, recovery, other),
        Object::Reader(_) | Object::Scan(_) | Object::Batch(_) => CLOSED,
    };
    handle.put(alloc, object);
    code
}

/// Puts a recovery into another handle, which holds nothing.
fn put_again(alloc: Global, recovery: &Arc<RecoveryPairs, Global>, other: &mut WzHandle) -> u32
    requires { other.old.held.object ≡ None }
    ensures shared { ((result ≡ DONE) × (as_recovered other.new.held.object ≡ Some (arc_value recovery.now)))
        ⊎ (result ≡ NO_MEMORY) }
    ensures nothing { result ≢ DONE → other.new.held.object ≡ None }
{
    let Ok(again) = Arc::try_clone(recovery) else {
        return NO_MEMORY;
    };
    let Ok(object) = Box::new(alloc, Object::Recovery(again)) else {
        return NO_MEMORY;
    };
    other.put(alloc, object);
    DONE
}
