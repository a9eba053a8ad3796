//! Recovery, record by record.

ghost use Rattle.std.specs.Prelude.{◌≡◌, IfOk, IfErr, IfSome, None, OnOk};
ghost use Rattle.log_recovery.specs.declared.modes.Mode.TheVariants.{Point};
ghost use Rattle.log_recovery.specs.Modes.{Accepts, TellsDamage};
ghost use Rattle.log_recovery.specs.Recovering.{HasKept, HasRecovered, IsNumbered, IsOfFirstLog, IsRecoverError};
ghost use Rattle.log_recovery.specs.Reading.{KeepsAllRead};

use crate::kept::{GroupNote, Kept};
use crate::modes::{Mode, accepts};
use base_devices::ReadAt;
use base_maps::FamilyMap;
use log_reader::{LogReader, Next};
use model_base::{EndReason, NoMemory};
use std::alloc::Global;

/// Where recovery ended, and why.
#[derive(Clone, Copy, Debug, PartialEq, Eq)]
pub struct End {
    pub at: u64,
    pub why: EndReason,
}

/// What is recovered from a log: the groups that are kept, the map and the last sequence of all their records, the
/// offset after them, and the end of recovery.
#[derive(Drop)]
pub struct Recovered {
    pub groups: Vec<GroupNote>,
    pub map: FamilyMap,
    pub last: u64,
    pub kept: u64,
    pub end: End,
}

/// Why a log was not recovered.
#[derive(Clone, Copy, Debug, PartialEq, Eq)]
pub enum RecoverError {
    /// The disk failed, and this is its count of faults.
    Fault { count: u64 },
    NoMemory,
    /// Recovery ends in this log, counted from 1 where there are several, at this offset for this reason, which the
    /// mode doesn't accept.
    Damage { log: u64, at: u64, why: EndReason },
}

impl From<NoMemory> for RecoverError {
    ghost use Rattle.log_recovery.specs.declared.recovery.RecoverError.TheVariants.{NoMemory};

    ghost from_gives = { λ _ e. e ≡ NoMemory };

    fn from(_: NoMemory) -> RecoverError {
        RecoverError::NoMemory
    }
}

/// Recovers the log that a disk holds and that has this number, if it has one. There is an answer for any bytes, and
/// the disk is only read.
///
/// It reads from the start on and never asks the disk for its length, so that a disk on which nothing can be read is a
/// fault and not an empty log. No read that failed is tried again.
///
/// The error is `Fault` where a read failed, and `NoMemory` where there was no memory for a block, a record, a note, a
/// key or a value. This call accepts any end, as [`Mode::Point`] does, so the error is never `Damage`.
pub fn recover<R: ReadAt>(
    alloc: Global,
    disk: &mut R,
    number: Option<u32>,
) -> Result<Recovered, RecoverError>
    // It is said of any bytes: they needn't be a log that a program wrote.
    ensures recovered { IfSome (R.held disk.old) (λ file. IfOk result (HasRecovered number file)) }
    // A log writer and a table may go on from it. It is said also where the disk tells nothing.
    ensures numbered { IfOk result (λ r. IsNumbered r.map r.last) }
    // So no fault is swallowed.
    ensures worked { OnOk result (R.failures disk.new ≡ R.failures disk.old) }
    // An error has a cause: the disk's count of faults rose, and the error has the count that the disk then has; or
    // there was no memory.
    ensures error { IfErr result (IsRecoverError Point (R.failures disk.old) (R.failures disk.new)) }
    // The disk is only read.
    ensures disk { R.only_reads disk.old disk.new }
{
    let mut kept = Kept::new(alloc);
    let end = keep_log(alloc, disk, number, &mut kept)?;
    Ok(answer_of(kept, end))
}

/// Keeps what the log recovers that a disk holds, after what was kept before, and answers where recovery of it ends.
/// Where this fails, what is kept is of no use.
pub(crate) fn keep_log<R: ReadAt>(
    alloc: Global,
    disk: &mut R,
    number: Option<u32>,
    kept: &mut Kept,
) -> Result<End, RecoverError>
    ensures recovered { IfSome (R.held disk.old) (λ file. IfOk result (HasKept number file kept.old kept.new)) }
    ensures numbered { OnOk result (IsNumbered kept.old.map kept.old.last → IsNumbered kept.new.map kept.new.last) }
    ensures worked { OnOk result (R.failures disk.new ≡ R.failures disk.old) }
    ensures error { IfErr result (IsRecoverError Point (R.failures disk.old) (R.failures disk.new)) }
    ensures disk { R.only_reads disk.old disk.new }
{
    let log = LogReader::open(alloc, number)?;
    kept.end = 0;
    keep_records(log, disk, kept)
}

/// Keeps the records that this reader reads of the log that a disk holds, after what was kept before, and answers where
/// recovery of the log ends. Where this fails, what is kept is of no use.
pub(crate) fn keep_records<R: ReadAt>(
    mut log: LogReader,
    disk: &mut R,
    kept: &mut Kept,
) -> Result<End, RecoverError>
    requires going { log.stopped ≡ None }
    ensures recovered { IfSome (R.held disk.old) (λ file. IfOk result (KeepsAllRead file kept.old log kept.new)) }
    ensures numbered { OnOk result (IsNumbered kept.old.map kept.old.last → IsNumbered kept.new.map kept.new.last) }
    ensures worked { OnOk result (R.failures disk.new ≡ R.failures disk.old) }
    ensures error { IfErr result (IsRecoverError Point (R.failures disk.old) (R.failures disk.new)) }
    ensures disk { R.only_reads disk.old disk.new }
{
    // All records before the reader's place are kept, and their runs rise.
    loop {
        match log.next(disk) {
            Next::Record { start, end } => {
                if let Some(why) = kept.keep(log.record(), end)? {
                    return Ok(End { at: start, why });
                }
            }
            Next::End { at, why } => return Ok(End { at, why }),
            Next::Fault { count } => return Err(RecoverError::Fault { count }),
            Next::NoMemory => return Err(RecoverError::NoMemory),
        }
    }
}

/// Recovers the log as `recover` does, and accepts only an end that the mode accepts. Any other is `Damage`, with the
/// place where recovery ends and its reason.
///
/// The disk is read further where the mode asks for it: from the place where recovery ends, at most up to the file's
/// end.
pub fn recover_mode<R: ReadAt>(
    alloc: Global,
    disk: &mut R,
    number: Option<u32>,
    mode: Mode,
) -> Result<Recovered, RecoverError>
    ensures recovered { IfSome (R.held disk.old) (λ file. IfOk result (HasRecovered number file)) }
    // Of what `recover` answers only what has an end that the mode accepts.
    ensures accepted { IfSome (R.held disk.old) (λ file. IfOk result
        (λ r. Accepts number mode file r.end.at r.end.why)) }
    // A refusal is true too: recovery does end at this place for this reason, and the mode doesn't accept that. No
    // clause says which ends a crash leaves.
    ensures damage { IfSome (R.held disk.old) (λ file. IfErr result (TellsDamage number mode file)) }
    ensures log { IfErr result IsOfFirstLog }
    ensures numbered { IfOk result (λ r. IsNumbered r.map r.last) }
    ensures worked { OnOk result (R.failures disk.new ≡ R.failures disk.old) }
    // `Damage` comes only with no fault counted, and never in the mode `Point`. The other errors are those of
    // `recover`.
    ensures error { IfErr result (IsRecoverError mode (R.failures disk.old) (R.failures disk.new)) }
    ensures disk { R.only_reads disk.old disk.new }
{
    let recovered = recover(alloc, disk, number)?;
    let End { at, why } = recovered.end;
    match accepts(disk, number, mode, recovered.end) {
        Ok(true) => Ok(recovered),
        Ok(false) => Err(RecoverError::Damage { log: 1, at, why }),
        Err(count) => Err(RecoverError::Fault { count }),
    }
}

/// The answer, from what is kept and from the end of recovery.
pub(crate) fn answer_of(kept: Kept, end: End) -> Recovered
    ensures { result ≡ record { groups = kept.groups; map = kept.map; last = kept.last; kept = kept.end; end = end } }
{
    Recovered {
        groups: kept.groups,
        map: kept.map,
        last: kept.last,
        kept: kept.end,
        end,
    }
}
