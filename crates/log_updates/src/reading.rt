//! Reading a log that is open, in all the logs that it is made of.

ghost use Rattle.std.specs.Prelude.{◌≡◌, ◌^◌, ◌<◌, ◌++◌, ℕ, List, [], IfOk, IfErr, OnOk};
ghost use Rattle.model_base.specs.LogContents.{GroupCall};
ghost use Rattle.model_base.specs.Recovery.{Logged, AreInOrder};
ghost use Rattle.log_recovery.specs.declared.modes.Mode.TheVariants.{Point};
ghost use Rattle.log_recovery.specs.Recovering.{IsRecoverError};
ghost use Rattle.log_recovery.specs.Updating.{updates_in};
ghost use Rattle.log_writer.specs.ReadableLogs.{HoldInTurn, batches_by};
ghost use Rattle.log_updates.specs.Places.{IsFixed, StandsIn, HasAll, is_clean, further, goes_further};

use crate::places::LogPlace;
use base_bytes::Bytes;
use log_recovery::{End, Place, RecoverError, updates_from};
use log_writer::ReadableLog;
use model_base::{EndReason, NoMemory};
use std::alloc::Global;

/// The records of logs from a sequence on and up to another one, and the place after the last record that was read.
#[derive(Drop)]
pub struct LogUpdates {
    pub records: Vec<Bytes>,
    pub place: LogPlace,
}

/// Of the records of an open log, those that take sequences, the last of them `since` or a later one and not above
/// `upto`, in order. Nothing is read before the place `from`, which the caller knows: it is [`LogPlace::start`], or
/// what an earlier call answered. It reads on in the next log where one was read to its end, and stops at the first
/// record that goes past `upto`.
///
/// The place that is answered is the end of a record, or `from`, and all that was asked for is before it. It is never
/// in a log that has no bytes yet. So a call that begins there later misses nothing that was written meanwhile, in
/// whichever log.
///
/// The error is `Fault` where a read failed, with the count of all disks, and `NoMemory` where there was no memory for
/// a block or a record. It is never `Damage`. The log is left as it was, and can still be written.
pub fn updates_of_logs<Log: ReadableLog>(
    alloc: Global,
    log: &mut Log,
    from: LogPlace,
    since: u64,
    upto: u64,
) -> Result<LogUpdates, RecoverError>
    requires there { from.log < Log.many log.old }
    requires small { from.at < 2 ^ 63 }
    // It is known where the disks tell what they hold. No batch before the place may be asked for.
    ensures updates { (opened : Log) (kept : List Logged) (calls : List GroupCall) (files : List (List ℕ))
        (before : List Logged) → Log.keeps opened kept → Log.wrote opened calls log.old → Log.holds log.old files
        → AreInOrder 0 (kept ++ batches_by calls) → StandsIn (Log.number log.old) files from before
        → updates_in since upto before ≡ []
        → IfOk result (HasAll (Log.number log.old) files since upto (kept ++ batches_by calls)) }
    ensures place { IfOk result (λ r. (r.place.log < Log.many log.new) × (r.place.at < 2 ^ 63)) }
    ensures fixed { IsFixed from → IfOk result (λ r. IsFixed r.place) }
    ensures worked { OnOk result (Log.faults log.new ≡ Log.faults log.old) }
    ensures error { IfErr result (IsRecoverError Point (Log.faults log.old) (Log.faults log.new)) }
    ensures stays { Log.stays log.old log.new }
{
    let logs = log.logs();
    let number = log.number();
    read_on(alloc, log, logs, number, from, since, upto)
}

/// The same of a log that is made of `logs` logs with this number, if they have one, whose files are the text of these
/// batches.
fn read_on<Log: ReadableLog>(
    alloc: Global,
    log: &mut Log,
    logs: usize,
    number: Option<u32>,
    from: LogPlace,
    since: u64,
    upto: u64,
) -> Result<LogUpdates, RecoverError>
    requires many { logs ≡ Log.many log.old }
    requires there { from.log < logs }
    requires small { from.at < 2 ^ 63 }
    ensures updates { (files : List (List ℕ)) (batches before : List Logged) → Log.holds log.old files
        → HoldInTurn number files batches → AreInOrder 0 batches → StandsIn number files from before
        → updates_in since upto before ≡ [] → IfOk result (HasAll number files since upto batches) }
    ensures place { IfOk result (λ r. (r.place.log < logs) × (r.place.at < 2 ^ 63)) }
    ensures fixed { IsFixed from → IfOk result (λ r. IsFixed r.place) }
    ensures worked { OnOk result (Log.faults log.new ≡ Log.faults log.old) }
    ensures error { IfErr result (IsRecoverError Point (Log.faults log.old) (Log.faults log.new)) }
    ensures stays { Log.stays log.old log.new }
{
    let mut records = Vec::new(alloc);
    let mut place = from;
    let mut reached = from;
    // Of the batches before the place, the records are there that are asked for, and they are all before the end of the
    // last record that was read.
    loop {
        log.turn_to(place.log);
        let more = updates_from(alloc, log, number, place_of(place), since, upto)?;
        add_all(&mut records, more.records)?;
        reached = reached_in(reached, place, more.place);
        if !goes_on(more.end, place.log, logs) {
            return Ok(LogUpdates {
                records,
                place: reached,
            });
        }
        place = start_of(place.log + 1, more.place.last);
    }
}

/// The end of the last record that was read, once the log of the place `from` was read up to `more`; before that it was
/// `reached`.
fn reached_in(reached: LogPlace, from: LogPlace, more: Place) -> LogPlace
    ensures { result ≡ further reached from more }
{
    if from.at < more.at {
        place_in(from.log, more)
    } else {
        reached
    }
}

/// The place in the log itself.
fn place_of(place: LogPlace) -> Place
    ensures { result ≡ record { at = place.at; last = place.last } }
{
    Place {
        at: place.at,
        last: place.last,
    }
}

/// A place in this log.
fn place_in(log: usize, place: Place) -> LogPlace
    ensures { result ≡ record { log = log; at = place.at; last = place.last } }
{
    LogPlace {
        log,
        at: place.at,
        last: place.last,
    }
}

/// The start of this log; the logs before it end with this sequence.
fn start_of(log: usize, last: u64) -> LogPlace
    ensures { result ≡ record { log = log; at = 0; last = last } }
{
    LogPlace { log, at: 0, last }
}

/// Moves the records to the end of the others.
fn add_all(records: &mut Vec<Bytes>, mut more: Vec<Bytes>) -> Result<(), NoMemory>
    ensures { OnOk result (records.new.items ≡ records.old.items ++ more.items) }
{
    records.append(&mut more)?;
    Ok(())
}

/// Whether reading goes on in another log, after it ended like this in the log `which`. It doesn't if it stopped at a
/// record.
fn goes_on(end: Option<End>, which: usize, logs: usize) -> bool
    requires { which < logs }
    ensures { result ≡ goes_further end which logs }
{
    match end {
        Some(end) => ends_clean(end.why) && which + 1 < logs,
        None => false,
    }
}

/// Whether reading ended where the log does.
fn ends_clean(why: EndReason) -> bool
    ensures { result ≡ is_clean why }
{
    matches!(why, EndReason::Clean)
}
