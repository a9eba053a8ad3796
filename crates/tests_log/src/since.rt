//! What logs have since a sequence: whole ones, those that are read from a place on, and those that are open, of which
//! a read may fail.

use crate::checks::check;
use crate::log_sets::opened_set;
use crate::logs::LOG;
use crate::writing::{add, add_three, opened, put, three_puts};
use base_devices::MemDisk;
use log_batch::Batch;
use log_recovery::{End, Place, RecoverError, updates_from};
use log_updates::{LogPlace, LogUpdates, updates_of_logs};
use log_writer::{LogWriter, ReadableLog};
use model_base::EndReason;
use std::alloc::Global;
use std::test::Fail;

// The end of `LOG`.
const WHOLE: End = End {
    at: 48,
    why: EndReason::Clean,
};

// A place of `LOG`, in numbers: an offset, and the last sequence before it.
type Numbers = (u64, u64);

// From which place of `LOG` on it is read, from which sequence on and up to which one; how many records that gives, to
// which place it comes, and whether it ends there. It stops before a record that goes past the last sequence.
const FROM: [(Numbers, u64, u64, usize, Numbers, bool); 13] = [
    ((0, 0), 1, 1, 1, (24, 1), false),
    ((0, 0), 1, 2, 2, (48, 2), true),
    ((0, 0), 2, 2, 1, (48, 2), true),
    ((0, 0), 2, 1, 0, (24, 1), false),
    ((0, 0), 3, 9, 0, (48, 2), true),
    ((0, 0), 0, 9, 2, (48, 2), true),
    ((0, 0), 1, 9, 2, (48, 2), true),
    ((24, 1), 2, 9, 1, (48, 2), true),
    ((24, 1), 2, 1, 0, (24, 1), false),
    ((24, 1), 3, 9, 0, (48, 2), true),
    ((48, 2), 3, 9, 0, (48, 2), true),
    // The log ends before the place.
    ((60, 2), 3, 9, 0, (60, 2), true),
    // The last sequence before the place is above the one up to which records are read.
    ((48, 7), 3, 5, 0, (48, 7), true),
];

// How many records are read of `LOG` from this place on, to which place that comes, and where it ends, if it does.
fn read_from(
    alloc: Global,
    (at, last): Numbers,
    since: u64,
    upto: u64,
) -> Result<(usize, Numbers, Option<End>), Fail> {
    let mut disk = MemDisk::new(alloc, LOG.len(), &LOG, &[])?;
    let from = Place { at: at % 64, last };
    let more = updates_from(alloc, &mut disk, None, from, since, upto)?;
    let Place { at, last } = more.place;
    Ok((more.records.len(), (at, last), more.end))
}

#[test]
fn reads_from_a_place_on(rt: HostRuntime) -> Result<(), Fail> {
    for (row, (from, since, upto, many, to, ends)) in FROM.iter().enumerate() {
        let found = read_from(rt.alloc(), *from, *since, *upto)?;
        let end = if *ends { Some(WHOLE) } else { None };
        check(&rt, row, &found, &(*many, *to, end));
    }
    Ok(())
}

// How many records an open log has from one sequence on and up to another; and the place after what was read: which
// log that is in, counted from 0, the offset, and the last sequence.
fn read_all<Log: ReadableLog>(
    alloc: Global,
    log: &mut Log,
    since: u64,
    upto: u64,
) -> Result<InLogs, RecoverError> {
    let found = updates_of_logs(alloc, log, LogPlace::start(), since, upto)?;
    Ok(numbers_of(&found))
}

type InLogs = (usize, usize, u64, u64);

// The same of what was read.
fn numbers_of(found: &LogUpdates) -> InLogs {
    let LogPlace { log, at, last } = found.place;
    (found.records.len(), log, at, last)
}

// The batches `put a 1` and `put b 2`.
fn two_puts(alloc: Global) -> Result<(Batch, Batch), Fail> {
    Ok((put(alloc, b"a", b"1")?, put(alloc, b"b", b"2")?))
}

// The same of one log, from a place of it on.
fn read_after(
    alloc: Global,
    log: &mut LogWriter<MemDisk>,
    (at, last): Numbers,
    since: u64,
) -> Result<InLogs, RecoverError> {
    let place = LogPlace {
        log: 0,
        at: at % 64,
        last,
    };
    let found = updates_of_logs(alloc, log, place, since, 9)?;
    Ok(numbers_of(&found))
}

#[test]
fn reads_a_log_that_is_open(rt: HostRuntime) -> Result<(), Fail> {
    let (one, two) = two_puts(rt.alloc())?;
    let mut log = opened(rt.alloc(), 48, &[])?;
    let found = read_all(rt.alloc(), &mut log, 0, 9);
    check(&rt, 0, &found, &Ok((0, 0, 0, 0)));
    check(&rt, 1, &add(&mut log, 1, one, false), &Ok(()));
    let found = read_all(rt.alloc(), &mut log, 1, 9);
    check(&rt, 2, &found, &Ok((1, 0, 24, 1)));
    check(&rt, 3, &add(&mut log, 2, two, false), &Ok(()));
    // It goes on where another call has stopped.
    let found = read_after(rt.alloc(), &mut log, (24, 1), 2);
    check(&rt, 4, &found, &Ok((1, 0, 48, 2)));
    let _ = log.into_disk();
    Ok(())
}

// The calls of the disk are a look at the length, an append, and a read.
#[test]
fn a_read_that_fails_leaves_the_log(rt: HostRuntime) -> Result<(), Fail> {
    let (one, two) = two_puts(rt.alloc())?;
    let mut log = opened(rt.alloc(), 48, &[3])?;
    check(&rt, 0, &add(&mut log, 1, one, false), &Ok(()));
    let fault = RecoverError::Fault { count: 1 };
    let found = read_all(rt.alloc(), &mut log, 1, 9);
    check(&rt, 1, &found, &Err(fault));
    check(&rt, 2, &add(&mut log, 2, two, false), &Ok(()));
    let found = read_all(rt.alloc(), &mut log, 1, 9);
    check(&rt, 3, &found, &Ok((2, 0, 48, 2)));
    let _ = log.into_disk();
    Ok(())
}

// Of a set of two logs, of which the first has one record and the second two: from which sequence on and up to which
// one records are asked for, how many these are, and the place after what was read.
const IN_SET: [(u64, u64, InLogs); 4] = [
    (1, 9, (3, 1, 48, 3)),
    (1, 1, (1, 0, 24, 1)),
    (2, 2, (1, 1, 24, 2)),
    (4, 9, (0, 1, 48, 3)),
];

#[test]
fn reads_all_logs_of_a_set(rt: HostRuntime) -> Result<(), Fail> {
    let batches = three_puts(rt.alloc())?;
    let mut set = opened_set(rt.alloc(), (&[], &[]))?;
    let _ = add_three(&mut set, batches, [false; 3]);
    for (row, (since, upto, wanted)) in IN_SET.iter().enumerate() {
        let found = read_all(rt.alloc(), &mut set, *since, *upto);
        check(&rt, row, &found, &Ok(*wanted));
    }
    let _ = set.into_disks();
    Ok(())
}
