//! Recovery of logs that were written one after another.

ghost use Rattle.std.specs.Prelude.{◌≡◌, ◌≢◌, ◌⊎◌, ◌∷◌, ◌++◌, ℕ, Bool, List, [], map, Err, None, IfOk, IfErr, MatchOption};
ghost use Rattle.log_recovery.specs.declared.recovery.RecoverError.TheVariants.{Fault};
ghost use Rattle.log_recovery.specs.RecoveringMore.{TellsDamageAfter};
ghost use Rattle.log_in_memory.specs.Readings.{number_of};
ghost use Rattle.wolzenn_c.specs.MoreLogs.{IsOneMore, RecoversMore};
ghost use Rattle.wolzenn_c.specs.Objects.{as_recovered};
ghost use Rattle.wolzenn_c.specs.Recoveries.{mode_of as mode_with};
ghost use Rattle.model_base.specs.Log.{plain_log};
ghost use Rattle.model_base.specs.RecoveredLogs.{RecoveredLogs, AreRecoveredAfter};
ghost use Rattle.wolzenn_c.specs.SeveralLogs.{AreRecoveredInTurn, HoldsLogs, Numbered};

use crate::codes::{CLOSED, DAMAGE, DONE, END, NO_MEMORY, RANGE, end_of};
use crate::handle::WzHandle;
use crate::recovery::{WzRecovered, damage_at, is_whole, mode_of, object_of};
use base_devices::SliceDisk;
use log_in_memory::{RecoveryPairs, log_number};
use log_recovery::{Mode, RecoverError, recover_more};
use std::alloc::Global;

/// Recovers one more log into the recovery that a handle holds. These bytes, which are the caller's, are the log that
/// was written right after those: the runs of its batches must rise above their last sequence, and its batches change
/// their pairs. The log has this number, or none where it is 0. The modes are those of `wz_recover`.
///
/// `DONE`: the handle holds the pairs of all these logs. `summary` says of this one how many batches are kept, up to
/// which offset, and where and why its recovery ended; and how many pairs all logs leave, and their last sequence.
/// `END`: recovery ended in an earlier log, which isn't whole, and no later one is recovered. `DAMAGE`: the mode
/// doesn't accept the end; `summary.end` says where and why, and the rest of `summary` is 0. `RANGE`: there is no such
/// mode. `NO_MEMORY`. `CLOSED`: the handle holds no recovery. At any answer except `DONE` the handle holds what it
/// held, and at any except `DONE` and `DAMAGE` `summary` stays as it was. Other handles with this recovery keep it as
/// it was.
///
/// A log is whole where its recovery ended clean, or, in a log with a number, at an older log's fragment that comes
/// right after the last record that is kept. An older log has a lower number.
#[unsafe(no_mangle)]
pub extern "C" fn wz_recover_more(
    alloc: Global,
    handle: &mut WzHandle,
    number: u32,
    mode: u32,
    log: &[u8],
    summary: &mut WzRecovered,
) -> u32
    ensures recovers { MatchOption (as_recovered handle.old.held.object) (result ≡ CLOSED)
        (λ before. MatchOption (mode_with mode) (result ≡ RANGE)
        (λ m. RecoversMore (number_of number) m log.now before result
        (as_recovered handle.new.held.object) summary.new)) }
    // So of several logs the handle holds what they recover one after another, by the definition for several logs. That
    // is so too where recovery ended in an earlier one.
    ensures logs { (logs : List Numbered) → (result ≡ DONE) ⊎ (result ≡ END)
        → HoldsLogs logs (as_recovered handle.old.held.object)
        → HoldsLogs (logs ++ (number_of number, log.now) ∷ []) (as_recovered handle.new.held.object) }
    ensures same { result ≢ DONE → handle.new.held.object ≡ handle.old.held.object }
    ensures untold { result ≢ DONE → result ≢ DAMAGE → summary.new ≡ summary.old }
{
    let Some(object) = handle.take(alloc) else {
        return CLOSED;
    };
    let code = match object.recovery() {
        Some(before) => put_more(alloc, handle, before, number, mode, log, summary),
        None => CLOSED,
    };
    if code != DONE {
        handle.put(alloc, object);
    }
    code
}

/// Puts the recovery with one more log into a handle, which holds nothing.
fn put_more(
    alloc: Global,
    handle: &mut WzHandle,
    before: &RecoveryPairs,
    number: u32,
    mode: u32,
    log: &[u8],
    summary: &mut WzRecovered,
) -> u32
    requires { handle.old.held.object ≡ None }
    ensures recovers { MatchOption (mode_with mode) (result ≡ RANGE)
        (λ m. RecoversMore (number_of number) m log.now before.now result
        (as_recovered handle.new.held.object) summary.new) }
    ensures open { result ≢ CLOSED }
    ensures untold { result ≢ DONE → result ≢ DAMAGE → summary.new ≡ summary.old }
{
    let Some(mode) = mode_of(mode) else {
        return RANGE;
    };
    if !before.goes_on {
        return END;
    }
    match with_more(alloc, before, log_number(number), mode, log) {
        Ok((pairs, told)) => {
            let Some(object) = object_of(alloc, pairs) else {
                return NO_MEMORY;
            };
            handle.put(alloc, object);
            *summary = told;
            DONE
        }
        Err(RecoverError::Damage { log: _, at, why }) => {
            *summary = damage_at(at, why);
            DAMAGE
        }
        Err(RecoverError::NoMemory) => NO_MEMORY,
        Err(RecoverError::Fault { .. }) => unreachable!(),
    }
}

/// The recovery with one more log, and the summary.
fn with_more(
    alloc: Global,
    before: &RecoveryPairs,
    number: Option<u32>,
    mode: Mode,
    log: &[u8],
) -> Result<(RecoveryPairs, WzRecovered), RecoverError>
    ensures ok { IfOk result (λ r. IsOneMore number mode log.now before.now r.0 r.1) }
    ensures err { IfErr result (TellsDamageAfter before.now.last number mode log.now) }
    ensures no_fault { (count : ℕ) → result ≢ Err (Fault count) }
{
    let map = before.to_map(alloc)?;
    let mut disk = SliceDisk::new(log);
    let more = recover_more(alloc, &mut disk, number, mode, map, before.last)?;
    let whole = is_whole(number, more.kept, more.end);
    let pairs = RecoveryPairs::of(alloc, &more.map, more.last, whole)?;
    let summary = WzRecovered {
        groups: more.groups.len(),
        pairs: pairs.pairs.len(),
        last: more.last,
        kept: more.kept,
        end: end_of(more.end.at, more.end.why),
    };
    Ok((pairs, summary))
}

/// What several logs without numbers recover is what the definition for such logs says, which the program's `recover`
/// is proved by.
pub fn logs_without_numbers()
    ensures { (last : ℕ) (files : List (List ℕ)) (s : RecoveredLogs) (whole : Bool)
        → AreRecoveredInTurn last (map (λ file. (plain_log, file)) files) s whole
        → AreRecoveredAfter plain_log last files s }
{}
