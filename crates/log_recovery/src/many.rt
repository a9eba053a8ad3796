//! Recovery of several logs that were written one after another, also while a run goes on with them.

ghost use Rattle.std.specs.Prelude.{◌≡◌, ◌+◌, ◌<◌, ◌≤◌, ◌^◌, ℕ, List, [], ◌∷◌, length, true, false, None, IfOk, IfErr, IfSome, OnOk};
ghost use Rattle.std.specs.List.{AllZip};
ghost use Rattle.base_devices.specs.OnlyReads.{OnlyReads, content_of};
ghost use Rattle.model_base.specs.declared.log.EndReason.TheVariants.{Clean};
ghost use Rattle.model_base.specs.Log.{plain_log};
ghost use Rattle.log_recovery.specs.declared.many.Onward.TheVariants.{Nowhere, Begun, NoneBegun};
ghost use Rattle.log_recovery.specs.declared.modes.Mode.TheVariants.{Point};
ghost use Rattle.log_recovery.specs.Recovering.{HasKept, StillHasKept, IsNumbered, IsRecoverError};
ghost use Rattle.log_recovery.specs.RecoveringLogs.{AcceptFrom, AreAsked, AreEmpty, AreReadInTurn, AreRecoveredFrom, CountNone, HaveRecovered, Holds};
ghost use Rattle.log_recovery.specs.RecoveringLogs.{IsErrorFrom, IsErrorOfLogs, TellDamage, TellDamageFrom, with_count};

use crate::following::reader_from;
use crate::kept::{GroupNote, Kept};
use crate::modes::{Mode, accepts};
use crate::recovery::{End, RecoverError, keep_log, keep_records};
use base_devices::{Disk, count_faults};
use base_maps::FamilyMap;
use model_base::EndReason;
use std::alloc::Global;

/// What is recovered from several logs: the groups that are kept, the map and the last sequence of all their records.
/// Then in which log recovery ended, counted from 1, the offset in that log after what is kept, and the end of
/// recovery.
#[derive(Drop)]
pub struct RecoveredMany {
    pub groups: Vec<GroupNote>,
    pub map: FamilyMap,
    pub last: u64,
    pub log: u64,
    pub kept: u64,
    pub end: End,
}

/// Recovers the plain logs that these disks hold, which were written one after another: each is read only where the one
/// before it ended clean, and the sequences and the map go on from log to log. The mode is asked about the end of the
/// log in which reading ended.
///
/// A log after the first is asked for its length, and isn't read if that is 0: a file that isn't there has no bytes,
/// and can't be read. The count of a `Fault` is that of all disks.
///
/// A run may write the logs meanwhile. As RocksDB does, it closes a log before it begins the next one. So once a later
/// log has bytes, the log that was read last is asked for its length again, and what was added to it is read first.
/// Otherwise the records between would be missing, and the rest would be a history that never was.
pub fn recover_many<D: Disk>(
    alloc: Global,
    disks: &mut [D],
    mode: Mode,
) -> Result<RecoveredMany, RecoverError>
    requires some { 0 < length disks.old }
    requires few { length disks.old ≤ 16 }
    // It is said of any bytes: they needn't be logs that a program wrote.
    ensures recovered { (files : List (List ℕ)) → AllZip (Holds ⟦<D as Disk>⟧) disks.old files
        → IfOk result (HaveRecovered files) }
    // It is the log in which reading ended whose end the mode accepts.
    ensures accepted { (files : List (List ℕ)) → AllZip (Holds ⟦<D as Disk>⟧) disks.old files
        → IfOk result (λ r. AcceptFrom 1 mode files r.log r.end.at r.end.why) }
    // A refusal is true too: reading does end in this log, at this place, for this reason, and the mode doesn't accept
    // that.
    ensures damage { (files : List (List ℕ)) → AllZip (Holds ⟦<D as Disk>⟧) disks.old files
        → IfErr result (TellDamage mode files) }
    // Whatever is answered, nothing is read behind a log that didn't end clean.
    ensures in_turn { (files : List (List ℕ)) → AllZip (Holds ⟦<D as Disk>⟧) disks.old files
        → AreReadInTurn 0 files disks.old disks.new }
    // It is said also where the disks tell nothing.
    ensures numbered { IfOk result (λ r. IsNumbered r.map r.last) }
    // So no fault is swallowed, on any disk.
    ensures worked { OnOk result (CountNone D.faults disks.old disks.new) }
    ensures error { IfErr result (IsErrorOfLogs mode D.faults disks.old disks.new) }
    // Each disk tells what it told before, its count of faults doesn't fall, and its time goes on.
    ensures disks { AllZip (OnlyReads ⟦<D as Disk>⟧) disks.old disks.new }
{
    match recover_from(alloc, disks, 0, 1, mode, Kept::new(alloc)) {
        Ok(recovered) => Ok(recovered),
        Err(error) => Err(count_all(error, count_faults(disks))),
    }
}

/// The error, where the count of a fault is that of all disks.
fn count_all(error: RecoverError, all: u64) -> RecoverError
    ensures { result ≡ with_count all error }
{
    match error {
        RecoverError::Fault { count: _ } => RecoverError::Fault { count: all },
        RecoverError::NoMemory => RecoverError::NoMemory,
        RecoverError::Damage { log, at, why } => RecoverError::Damage { log, at, why },
    }
}

/// Recovers the logs from this one on, after what was kept before. `before` is how many of them come before the first
/// one that is known to have bytes; the first log of all counts as known. The count of a fault is that of one disk.
fn recover_from<D: Disk>(
    alloc: Global,
    disks: &mut [D],
    before: usize,
    log: u64,
    mode: Mode,
    mut kept: Kept,
) -> Result<RecoveredMany, RecoverError>
    requires before { before < length disks.old }
    requires few { log + length disks.old ≤ 2 ^ 32 }
    ensures recovered { (files : List (List ℕ)) → AllZip (Holds ⟦<D as Disk>⟧) disks.old files
        → IfOk result (AreRecoveredFrom files log kept) }
    ensures accepted { (files : List (List ℕ)) → AllZip (Holds ⟦<D as Disk>⟧) disks.old files
        → IfOk result (λ r. AcceptFrom log mode files r.log r.end.at r.end.why) }
    ensures damage { (files : List (List ℕ)) → AllZip (Holds ⟦<D as Disk>⟧) disks.old files
        → IfErr result (TellDamageFrom log kept mode files) }
    ensures in_turn { (files : List (List ℕ)) → AllZip (Holds ⟦<D as Disk>⟧) disks.old files
        → AreReadInTurn kept.last files disks.old disks.new }
    ensures numbered { IsNumbered kept.map kept.last → IfOk result (λ r. IsNumbered r.map r.last) }
    ensures worked { OnOk result (CountNone D.faults disks.old disks.new) }
    ensures error { IfErr result (IsErrorFrom mode D.faults disks.old disks.new) }
    ensures disks { AllZip (OnlyReads ⟦<D as Disk>⟧) disks.old disks.new }
{
    let Some((disk, rest)) = disks.split_first_mut() else {
        unreachable!()
    };
    let (end, onward) = keep_whole(alloc, disk, rest, before, &mut kept)?;
    let End { at, why } = end;
    match onward {
        Onward::Begun(next) => recover_from(alloc, rest, next, log + 1, mode, kept),
        Onward::NoneBegun => Ok(in_last(kept, log + rest.len() as u64)),
        Onward::Nowhere => match accepts(disk, None, mode, end) {
            Ok(true) => Ok(many_of(kept, log, end)),
            Ok(false) => Err(RecoverError::Damage { log, at, why }),
            Err(count) => Err(RecoverError::Fault { count }),
        },
    }
}

/// Where recovery goes on after a log.
#[derive(Clone, Copy)]
enum Onward {
    /// Nowhere: it ends in this log.
    Nowhere,
    /// In the next log. This many logs come before the first later one that is known to have bytes.
    Begun(usize),
    /// In the later logs, and none of them has bytes.
    NoneBegun,
}

/// Keeps what a log recovers, after what was kept before, and finds out where recovery goes on; `rest` are the later
/// logs. Where this fails, what is kept is of no use.
///
/// A log that is known to have bytes may be the one that a run appends to. So the later logs are asked for their
/// lengths. Once one of them has bytes, this log is closed, and what was added to it since it was read is kept too.
fn keep_whole<D: Disk>(
    alloc: Global,
    disk: &mut D,
    rest: &mut [D],
    before: usize,
    kept: &mut Kept,
) -> Result<(End, Onward), RecoverError>
    requires before { before ≤ length rest.old }
    requires few { length rest.old ≤ 2 ^ 32 }
    ensures recovered { IfSome (content_of (D.told disk.old))
        (λ file. IfOk result (λ found. HasKept plain_log file kept.old kept.new found.0)) }
    ensures stops { IfOk result (λ found. found.1 ≡ Nowhere → found.0.why ≡ Clean → rest.old ≡ []) }
    ensures begun { IfOk result (λ found. (n : ℕ) → found.1 ≡ Begun n
        → (found.0.why ≡ Clean) × (n < length rest.old)) }
    ensures none_begun { IfOk result (λ found. found.1 ≡ NoneBegun
        → (found.0.why ≡ Clean) × (0 < length rest.old)) }
    ensures empty { (files : List (List ℕ)) → AllZip (Holds ⟦<D as Disk>⟧) rest.old files
        → IfOk result (λ found. found.1 ≡ NoneBegun → AreEmpty files) }
    ensures asked { (files : List (List ℕ)) → AllZip (Holds ⟦<D as Disk>⟧) rest.old files
        → AreAsked files rest.old rest.new }
    ensures in_turn { (files : List (List ℕ)) → AllZip (Holds ⟦<D as Disk>⟧) (disk.old ∷ rest.old) files
        → AreReadInTurn kept.old.last files (disk.old ∷ rest.old) (disk.new ∷ rest.new) }
    ensures numbered { OnOk result (IsNumbered kept.old.map kept.old.last → IsNumbered kept.new.map kept.new.last) }
    ensures worked { OnOk result (CountNone D.faults (disk.old ∷ rest.old) (disk.new ∷ rest.new)) }
    ensures error { IfErr result (IsErrorFrom Point D.faults (disk.old ∷ rest.old) (disk.new ∷ rest.new)) }
    ensures disks { AllZip (OnlyReads ⟦<D as Disk>⟧) (disk.old ∷ rest.old) (disk.new ∷ rest.new) }
{
    let end = keep_one(alloc, disk, before, kept)?;
    if !goes_on(rest, end.why) {
        return Ok((end, Onward::Nowhere));
    }
    if before > 0 {
        return Ok((end, Onward::Begun(before - 1)));
    }
    let begun = first_begun(rest)?;
    let Some(next) = begun else {
        return Ok((end, Onward::NoneBegun));
    };
    let later = read_on(alloc, disk, end, kept)?;
    match later.why {
        EndReason::Clean => Ok((later, Onward::Begun(next))),
        _ => Ok((later, Onward::Nowhere)),
    }
}

/// Keeps what a log recovers, after what was kept before. `before` is how many logs from this one on come before the
/// first one that is known to have bytes. Where there are any, this log had no bytes when it was asked. It is closed by
/// now, since a later one was begun; so it is asked again. Where this fails, what is kept is of no use.
fn keep_one<D: Disk>(
    alloc: Global,
    disk: &mut D,
    before: usize,
    kept: &mut Kept,
) -> Result<End, RecoverError>
    ensures recovered { IfSome (content_of (D.told disk.old))
        (λ file. IfOk result (HasKept plain_log file kept.old kept.new)) }
    ensures numbered { OnOk result (IsNumbered kept.old.map kept.old.last → IsNumbered kept.new.map kept.new.last) }
    ensures worked { OnOk result (D.faults disk.new ≡ D.faults disk.old) }
    ensures error { IfErr result (IsRecoverError Point (D.faults disk.old) (D.faults disk.new)) }
    ensures disk { OnlyReads ⟦<D as Disk>⟧ disk.old disk.new }
{
    if before == 0 {
        return keep_log(alloc, disk, None, kept);
    }
    let len = len_of(disk)?;
    if len == 0 {
        kept.end = 0;
        return Ok(End {
            at: 0,
            why: EndReason::Clean,
        });
    }
    keep_log(alloc, disk, None, kept)
}

/// Keeps what was added to a log since reading of it ended clean, and answers where recovery of the log ends. Where
/// this fails, what is kept is of no use.
fn read_on<D: Disk>(
    alloc: Global,
    disk: &mut D,
    end: End,
    kept: &mut Kept,
) -> Result<End, RecoverError>
    requires clean { end.why ≡ Clean }
    // Nothing is added to a disk that tells its content.
    ensures recovered { IfSome (content_of (D.told disk.old))
        (λ file. IfOk result (StillHasKept plain_log file kept.old end kept.new)) }
    ensures numbered { OnOk result (IsNumbered kept.old.map kept.old.last → IsNumbered kept.new.map kept.new.last) }
    ensures worked { OnOk result (D.faults disk.new ≡ D.faults disk.old) }
    ensures error { IfErr result (IsRecoverError Point (D.faults disk.old) (D.faults disk.new)) }
    ensures disk { OnlyReads ⟦<D as Disk>⟧ disk.old disk.new }
{
    let len = len_of(disk)?;
    if len <= end.at {
        return Ok(end);
    }
    let log = reader_from(alloc, None, end.at, disk)?;
    keep_records(log, disk, kept)
}

/// Asks these logs for their lengths, in order, until one has bytes. The answer is how many come before that one, or
/// nothing if none has bytes.
fn first_begun<D: Disk>(disks: &mut [D]) -> Result<Option<usize>, RecoverError>
    requires some { 0 < length disks.old }
    requires few { length disks.old ≤ 2 ^ 32 }
    ensures found { IfOk result (λ found. IfSome found (λ n. n < length disks.old)) }
    ensures empty { (files : List (List ℕ)) → AllZip (Holds ⟦<D as Disk>⟧) disks.old files
        → IfOk result (λ found. found ≡ None → AreEmpty files) }
    ensures asked { (files : List (List ℕ)) → AllZip (Holds ⟦<D as Disk>⟧) disks.old files
        → AreAsked files disks.old disks.new }
    ensures worked { OnOk result (CountNone D.faults disks.old disks.new) }
    ensures error { IfErr result (IsErrorFrom Point D.faults disks.old disks.new) }
    ensures disks { AllZip (OnlyReads ⟦<D as Disk>⟧) disks.old disks.new }
{
    let Some((disk, rest)) = disks.split_first_mut() else {
        unreachable!()
    };
    let len = len_of(disk)?;
    if len > 0 {
        return Ok(Some(0));
    }
    if rest.is_empty() {
        return Ok(None);
    }
    let found = first_begun(rest)?;
    match found {
        Some(next) => Ok(Some(next + 1)),
        None => Ok(None),
    }
}

/// How many bytes the log has by now.
fn len_of<D: Disk>(disk: &mut D) -> Result<u64, RecoverError>
    ensures len { IfSome (content_of (D.told disk.old)) (λ file. IfOk result (λ n. n ≡ length file)) }
    ensures small { IfOk result (λ n. n < 2 ^ 63) }
    ensures worked { OnOk result (D.faults disk.new ≡ D.faults disk.old) }
    ensures error { IfErr result (IsRecoverError Point (D.faults disk.old) (D.faults disk.new)) }
    ensures disk { OnlyReads ⟦<D as Disk>⟧ disk.old disk.new }
{
    match disk.len() {
        Ok(len) => Ok(len),
        Err(_) => Err(RecoverError::Fault {
            count: disk.faults(),
        }),
    }
}

/// Whether recovery goes on in another log, after one that ended for this reason.
fn goes_on<D>(rest: &[D], why: EndReason) -> bool
    ensures clean { result ≡ true → why ≡ Clean }
    ensures some { result ≡ true → 0 < length rest.now }
    ensures stops { result ≡ false → why ≡ Clean → rest.now ≡ [] }
{
    match why {
        EndReason::Clean => !rest.is_empty(),
        _ => false,
    }
}

/// The answer, from what is kept, and from the log in which recovery ends.
fn many_of(kept: Kept, log: u64, end: End) -> RecoveredMany
    ensures { result ≡ record {
      groups = kept.groups;
      map = kept.map;
      last = kept.last;
      log = log;
      kept = kept.end;
      end = end;
    } }
{
    RecoveredMany {
        groups: kept.groups,
        map: kept.map,
        last: kept.last,
        log,
        kept: kept.end,
        end,
    }
}

/// The answer where recovery ends in this log, which has no bytes, and is the last one.
fn in_last(kept: Kept, log: u64) -> RecoveredMany
    ensures { result ≡ record {
      groups = kept.groups;
      map = kept.map;
      last = kept.last;
      log = log;
      kept = 0;
      end = record { at = 0; why = Clean };
    } }
{
    RecoveredMany {
        groups: kept.groups,
        map: kept.map,
        last: kept.last,
        log,
        kept: 0,
        end: End {
            at: 0,
            why: EndReason::Clean,
        },
    }
}
