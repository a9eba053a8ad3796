//! Recovery of a log.

ghost use Rattle.std.specs.Prelude.{◌≡◌, ◌≢◌, ◌∷◌, ℕ, [], Err, Some, None, IfOk, IfErr, IfSome, MatchOption};
ghost use Rattle.log_recovery.specs.declared.recovery.RecoverError.TheVariants.{Fault};
ghost use Rattle.log_recovery.specs.Modes.{TellsDamage};
ghost use Rattle.wolzenn_c.specs.Objects.{as_recovered, as_recovery};
ghost use Rattle.log_in_memory.specs.Readings.{number_of};
ghost use Rattle.wolzenn_c.specs.Recoveries.{mode_of as mode_with, damage_of, IsRecovery, Recovers};
ghost use Rattle.wolzenn_c.specs.SeveralLogs.{HoldsLogs, IsOfLogs, is_whole as whole_log};

use crate::codes::{DAMAGE, DONE, NO_MEMORY, RANGE, WzEnd, end_of};
use crate::handle::WzHandle;
use crate::object::Object;
use base_devices::SliceDisk;
use log_block::header_len;
use log_in_memory::{RecoveryPairs, log_number};
use log_recovery::{End, Mode, RecoverError, recover_mode};
use model_base::{Damage, EndReason};
use std::alloc::Global;
use std::sync::Arc;

/// What was recovered, in numbers: how many batches, how many pairs of key and value they leave, the last sequence and
/// the offset after the last batch that is kept (each is 0 where there is none), and where and why recovery ended.
#[repr(C)]
#[derive(Clone, Copy, Debug, Drop)]
pub struct WzRecovered {
    pub groups: usize,
    pub pairs: usize,
    pub last: u64,
    pub kept: u64,
    pub end: WzEnd,
}

/// Recovers the log that these bytes are, which are the caller's. The log has this number, or none where it is 0. The
/// modes are 0 for point-in-time recovery, 1 for logs that are whole or whose last write was cut off, and 2 for whole
/// logs only.
///
/// What the handle held before is freed. `DONE`: `summary` says what was recovered, and the handle holds the pairs.
/// `DAMAGE`: the mode doesn't accept the end; `summary.end` says where and why, and the rest of `summary` is 0.
/// `RANGE`: there is no such mode. `NO_MEMORY`. At any answer but `DONE` the handle holds nothing. At `RANGE` and
/// `NO_MEMORY` `summary` stays as it was.
#[unsafe(no_mangle)]
pub extern "C" fn wz_recover(
    alloc: Global,
    handle: &mut WzHandle,
    number: u32,
    mode: u32,
    log: &[u8],
    summary: &mut WzRecovered,
) -> u32
    // The pairs and the summary are those of the one recovery of these bytes, and the mode accepts its end; or the
    // summary has the end that the mode doesn't accept.
    ensures recovers { MatchOption (mode_with mode) (result ≡ RANGE) (λ m.
        Recovers (number_of number) m log.now result (as_recovery handle.new.held.object) summary.new) }
    // A later log may go on from it (`wz_recover_more`).
    ensures logs { result ≡ DONE
        → HoldsLogs ((number_of number, log.now) ∷ []) (as_recovered handle.new.held.object) }
    ensures nothing { result ≢ DONE → handle.new.held.object ≡ None }
    ensures untold { result ≢ DONE → result ≢ DAMAGE → summary.new ≡ summary.old }
{
    handle.clear(alloc);
    let Some(mode) = mode_of(mode) else {
        return RANGE;
    };
    match recovered(alloc, log_number(number), mode, log) {
        Ok((pairs, told)) => {
            let Some(object) = object_of(alloc, pairs) else {
                return NO_MEMORY;
            };
            handle.put(alloc, object);
            *summary = told;
            DONE
        }
        Err(RecoverError::Damage { log: _, at, why }) => {
            *summary = damage_at(at, why);
            DAMAGE
        }
        Err(RecoverError::NoMemory) => NO_MEMORY,
        Err(RecoverError::Fault { .. }) => unreachable!(),
    }
}

/// An end that the mode doesn't accept, in numbers.
pub fn damage_at(at: u64, why: EndReason) -> WzRecovered
    ensures { result ≡ damage_of at why }
{
    WzRecovered {
        groups: 0,
        pairs: 0,
        last: 0,
        kept: 0,
        end: end_of(at, why),
    }
}

/// A recovery as an object, if there is memory for it.
pub fn object_of(alloc: Global, pairs: RecoveryPairs) -> Option<Box<Object>>
    ensures all { IfSome result (λ object. as_recovered (Some object.value) ≡ Some pairs) }
    ensures pairs { IfSome result (λ object. as_recovery (Some object.value) ≡ Some pairs.pairs.items) }
{
    let shared = Arc::new(alloc, pairs).ok()?;
    Box::new(alloc, Object::Recovery(shared)).ok()
}

/// The mode with this number, if there is one.
pub fn mode_of(mode: u32) -> Option<Mode>
    ensures { result ≡ mode_with mode }
{
    match mode {
        0 => Some(Mode::Point),
        1 => Some(Mode::Tail),
        2 => Some(Mode::Absolute),
        _ => None,
    }
}

/// Whether a log with this number, if it has one, is whole that is kept up to an offset, and whose recovery ends like
/// this: then recovery goes on in a later one.
pub fn is_whole(number: Option<u32>, kept: u64, end: End) -> bool
    ensures { result ≡ whole_log number kept end.at end.why }
{
    match (end.why, number) {
        (EndReason::Clean, _) => true,
        (EndReason::Broken(Damage::OldLog(other)), Some(own)) => {
            other < own && end.at.saturating_sub(kept) < header_len(number) as u64
        }
        _ => false,
    }
}

/// The pairs that are recovered from a log, and the summary of its recovery.
fn recovered(
    alloc: Global,
    number: Option<u32>,
    mode: Mode,
    log: &[u8],
) -> Result<(RecoveryPairs, WzRecovered), RecoverError>
    ensures ok { IfOk result (λ r. IsRecovery number mode log.now r.0.pairs.items r.1) }
    ensures logs { IfOk result (λ r. IsOfLogs ((number, log.now) ∷ []) r.0) }
    ensures err { IfErr result (TellsDamage number mode log.now) }
    ensures no_fault { (count : ℕ) → result ≢ Err (Fault count) }
{
    let mut disk = SliceDisk::new(log);
    let recovered = recover_mode(alloc, &mut disk, number, mode)?;
    let whole = is_whole(number, recovered.kept, recovered.end);
    let pairs = RecoveryPairs::of(alloc, &recovered.map, recovered.last, whole)?;
    let summary = WzRecovered {
        groups: recovered.groups.len(),
        pairs: pairs.pairs.len(),
        last: recovered.last,
        kept: recovered.kept,
        end: end_of(recovered.end.at, recovered.end.why),
    };
    Ok((pairs, summary))
}
