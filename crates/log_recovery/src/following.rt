//! Following a log that grows: its records from a place on, which the caller knows. Of these a caller asks for those
//! from a sequence on, as by `GetUpdatesSince` of RocksDB's include/rocksdb/db.h.

ghost use Rattle.std.specs.Prelude.{◌≡◌, ◌^◌, ◌<◌, ◌≤◌, ℕ, List, [], ◌++◌, length, IfOk, IfErr, IfSome, OnOk, Option, None};
ghost use Rattle.model_base.specs.History.{max_sequence};
ghost use Rattle.model_base.specs.Recovery.{Logged};
ghost use Rattle.log_reader.specs.Reader.{Follows};
ghost use Rattle.log_recovery.specs.declared.modes.Mode.TheVariants.{Point};
ghost use Rattle.log_recovery.specs.declared.following.Place.{Place as At};
ghost use Rattle.log_recovery.specs.Following.{StandsAt, HasMore, RisesTo, end_of_stop};
ghost use Rattle.log_recovery.specs.Recovering.{IsRecoverError};

use crate::picked::{Picked, Stop};
use crate::recovery::{End, RecoverError};
use base_bytes::Bytes;
use base_devices::ReadAt;
use log_reader::{LogReader, Next, OpenError};
use std::alloc::Global;

/// A place in a log: the end of a record, or the log's start; and the last sequence up to there.
#[derive(Clone, Copy, Debug, PartialEq, Eq)]
pub struct Place {
    pub at: u64,
    pub last: u64,
}

/// More records of a log: those that are asked for, of the records from a place on; and the place after the last one
/// that was read. Then where and why reading ended, or nothing, if it stopped at a record that goes past the sequence
/// up to which records are read.
#[derive(Drop)]
pub struct MoreUpdates {
    pub records: Vec<Bytes>,
    pub place: Place,
    pub end: Option<End>,
}

/// Of the records that `recover` would keep of this log, those from a place on that take sequences, the last of them
/// `since` or a later one and not above `upto`, in order. Reading stops at the first record that goes past `upto`:
/// no later one can be asked for. So who follows a log that grows reads each record once: the next call begins at the
/// place where this one stopped.
///
/// If the place isn't the end of a record of this log, nothing is said of the records. The error is `Fault` where a
/// read failed, and `NoMemory` where there was no memory for a block or a record. It is never `Damage`.
pub fn updates_from<R: ReadAt>(
    alloc: Global,
    disk: &mut R,
    number: Option<u32>,
    from: Place,
    since: u64,
    upto: u64,
) -> Result<MoreUpdates, RecoverError>
    requires small { from.at < 2 ^ 63 }
    // The place is known by the batches before it, of this log and, where there are several, of those before it, which
    // end with the sequence `start`.
    ensures more { IfSome (R.held disk.old) (λ file. (start : ℕ) (before : List Logged)
        → StandsAt start number file from before → IfOk result (HasMore start number file since upto before)) }
    ensures small { IfOk result (λ more. more.place.at < 2 ^ 63) }
    // Whatever is read, the place's last sequence doesn't fall, and no record above `upto` raises it.
    ensures last { IfOk result (λ more. RisesTo upto from.last more.place.last) }
    // From any place it stops without an end only at a record that goes past `upto`, and no record goes past the
    // greatest sequence. So a caller that asks for all records up to that one always learns where reading ended.
    ensures stops { IfOk result (λ more. more.end ≡ None → upto < max_sequence) }
    ensures worked { OnOk result (R.failures disk.new ≡ R.failures disk.old) }
    ensures error { IfErr result (IsRecoverError Point (R.failures disk.old) (R.failures disk.new)) }
    ensures disk { R.only_reads disk.old disk.new }
{
    let mut log = reader_from(alloc, number, from.at, disk)?;
    let mut picked = Picked::from_place(alloc, from);
    // All records between the place and the reader's would be kept, none goes past `upto`, and those of them that are
    // asked for are picked.
    loop {
        match log.next(disk) {
            Next::Record { start, end } => {
                if let Some(stop) = picked.pick(alloc, since, upto, log.record(), end)? {
                    return Ok(more_of(picked, end_at(start, stop)));
                }
            }
            Next::End { at, why } => return Ok(more_of(picked, Some(End { at, why }))),
            Next::Fault { count } => return Err(RecoverError::Fault { count }),
            Next::NoMemory => return Err(RecoverError::NoMemory),
        }
    }
}

/// A reader that begins at this place.
pub(crate) fn reader_from<R: ReadAt>(
    alloc: Global,
    number: Option<u32>,
    at: u64,
    disk: &mut R,
) -> Result<LogReader, RecoverError>
    requires small { at < 2 ^ 63 }
    ensures number { IfOk result (λ log. log.number ≡ number) }
    ensures going { IfOk result (λ log. log.stopped ≡ None) }
    ensures there { IfSome (R.held disk.old) (λ file. at ≤ length file
        → IfOk result (λ log. (log.place ≡ at) × Follows file log)) }
    ensures worked { OnOk result (R.failures disk.new ≡ R.failures disk.old) }
    ensures error { IfErr result (IsRecoverError Point (R.failures disk.old) (R.failures disk.new)) }
    ensures disk { R.only_reads disk.old disk.new }
{
    match LogReader::open_at(alloc, number, at, disk) {
        Ok(log) => Ok(log),
        Err(OpenError::Fault { count }) => Err(RecoverError::Fault { count }),
        Err(OpenError::NoMemory) => Err(RecoverError::NoMemory),
    }
}

/// Where and why reading ends, at a record that begins at this offset.
fn end_at(start: u64, stop: Stop) -> Option<End>
    ensures { result ≡ end_of_stop start stop }
{
    match stop {
        Stop::Past => None,
        Stop::Refused(why) => Some(End { at: start, why }),
    }
}

/// The answer, from what is picked and from the end of reading.
fn more_of(picked: Picked, end: Option<End>) -> MoreUpdates
    ensures { result ≡ record {
      records = picked.records;
      place = record { at = picked.end; last = picked.last };
      end = end;
    } }
{
    MoreUpdates {
        records: picked.records,
        place: Place {
            at: picked.end,
            last: picked.last,
        },
        end,
    }
}

/// Places of logs that grow.
pub fn places()
    ensures start { (number : Option ℕ) (file : List ℕ) (last : ℕ)
        → StandsAt last number file (record { at = 0; last = last }) [] }
    // A place of a log is one of the same log when it has more bytes.
    ensures grown { (start : ℕ) (number : Option ℕ) (file more : List ℕ) (place : At) (before : List Logged)
        → StandsAt start number file place before → StandsAt start number (file ++ more) place before }
{}
