//! Recovery of one more log, after what was recovered of the logs before it.

ghost use Rattle.std.specs.Prelude.{◌≡◌, IfOk, IfErr, IfSome, OnOk};
ghost use Rattle.log_recovery.specs.declared.modes.Mode.TheVariants.{Point};
ghost use Rattle.log_recovery.specs.Modes.{Accepts};
ghost use Rattle.log_recovery.specs.Recovering.{IsNumbered, IsOfFirstLog, IsRecoverError};
ghost use Rattle.log_recovery.specs.RecoveringMore.{HasRecoveredMore, TellsDamageAfter};

use crate::kept::Kept;
use crate::modes::{Mode, accepts};
use crate::recovery::{End, RecoverError, Recovered, answer_of, keep_log};
use base_devices::ReadAt;
use base_maps::FamilyMap;
use std::alloc::Global;

/// Recovers one more log of those that were written one after another. `pairs` is the map that the logs before it left,
/// and `last` their last sequence: the log's runs must rise above it. So logs are recovered one by one, each with its
/// own number, as long as the one before it is whole, which the caller decides.
///
/// The answer's map and last sequence are those of all logs, and the rest is about this one. It is read as by
/// `recover_mode`, with the same errors; at an error the map is gone. `Damage` says that it is the first log, since
/// only one is looked at.
pub fn recover_more<R: ReadAt>(
    alloc: Global,
    disk: &mut R,
    number: Option<u32>,
    mode: Mode,
    pairs: FamilyMap,
    last: u64,
) -> Result<Recovered, RecoverError>
    ensures recovered { IfSome (R.held disk.old) (λ file. IfOk result (HasRecoveredMore number file pairs last)) }
    ensures accepted { IfSome (R.held disk.old) (λ file. IfOk result
        (λ r. Accepts number mode file r.end.at r.end.why)) }
    // A refusal is true too: recovery does end at this place for this reason, and the mode doesn't accept that.
    ensures damage { IfSome (R.held disk.old) (λ file. IfErr result (TellsDamageAfter last number mode file)) }
    ensures log { IfErr result IsOfFirstLog }
    ensures numbered { IsNumbered pairs last → IfOk result (λ r. IsNumbered r.map r.last) }
    ensures worked { OnOk result (R.failures disk.new ≡ R.failures disk.old) }
    ensures error { IfErr result (IsRecoverError mode (R.failures disk.old) (R.failures disk.new)) }
    ensures disk { R.only_reads disk.old disk.new }
{
    let more = after_all(alloc, disk, number, pairs, last)?;
    let End { at, why } = more.end;
    match accepts(disk, number, mode, more.end) {
        Ok(true) => Ok(more),
        Ok(false) => Err(RecoverError::Damage { log: 1, at, why }),
        Err(count) => Err(RecoverError::Fault { count }),
    }
}

/// What the log recovers after those before it. Any end is accepted.
fn after_all<R: ReadAt>(
    alloc: Global,
    disk: &mut R,
    number: Option<u32>,
    pairs: FamilyMap,
    last: u64,
) -> Result<Recovered, RecoverError>
    ensures recovered { IfSome (R.held disk.old) (λ file. IfOk result (HasRecoveredMore number file pairs last)) }
    ensures numbered { IsNumbered pairs last → IfOk result (λ r. IsNumbered r.map r.last) }
    ensures worked { OnOk result (R.failures disk.new ≡ R.failures disk.old) }
    ensures error { IfErr result (IsRecoverError Point (R.failures disk.old) (R.failures disk.new)) }
    ensures disk { R.only_reads disk.old disk.new }
{
    let mut kept = Kept {
        groups: Vec::new(alloc),
        map: pairs,
        last,
        end: 0,
    };
    let end = keep_log(alloc, disk, number, &mut kept)?;
    Ok(answer_of(kept, end))
}
