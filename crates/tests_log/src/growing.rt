//! Logs that are read while they are written: each read begins at the place that the one before it answered, and gives
//! the records that are new. And where the reads of clients begin.

ghost use Rattle.std.specs.Prelude.{◌<◌, ◌^◌};

use crate::checks::check;
use crate::writing::{add, opened, put, put_zeros};
use base_devices::MemDisk;
use log_batch::Batch;
use log_recovery::RecoverError;
use log_updates::{LogPlace, LogUpdates, ReadPlaces, updates_of_logs};
use log_writer::{LogSet, ReadableLog};
use std::alloc::Global;
use std::process::Abort;
use std::test::Fail;

// Three logs on empty disks, of which the first two are full from 24 bytes on.
fn three_logs(alloc: Global, fails: &[u64]) -> Result<LogSet<MemDisk>, Fail> {
    let one = MemDisk::new(alloc, 24, b"", fails)?;
    let two = MemDisk::new(alloc, 24, b"", &[])?;
    let three = MemDisk::new(alloc, 48, b"", &[])?;
    let disks = vec![in alloc; one, two, three]?;
    Ok(LogSet::open(alloc, disks, 24).map_err(|(_, error)| error)?)
}

type FourBatches = (Batch, Batch, Batch, Batch);

// The batches `put a 1`, `put b 2`, `put c 3` and `put d 4`. Each has a record of 24 bytes.
fn four_puts(alloc: Global) -> Result<FourBatches, Fail> {
    Ok((
        put(alloc, b"a", b"1")?,
        put(alloc, b"b", b"2")?,
        put(alloc, b"c", b"3")?,
        put(alloc, b"d", b"4")?,
    ))
}

// How many records were read, and the first byte of the last one, which is its sequence; and the place that was
// answered: which log it is in, counted from 0, the offset, and the last sequence.
type Read = (usize, u8, (usize, u64, u64));

fn read_of(found: &LogUpdates) -> Read {
    let byte = match found.records.last() {
        Some(record) => record.as_slice().first().copied().unwrap_or(0),
        None => 0,
    };
    let LogPlace { log, at, last } = found.place;
    (found.records.len(), byte, (log, at, last))
}

// Reads an open log on from a place, and moves it to the place that is answered.
fn read_on<Log: ReadableLog>(
    rt: &impl Abort,
    alloc: Global,
    log: &mut Log,
    place: &mut LogPlace,
) -> Result<Read, RecoverError> {
    assert!(rt; place.log < log.logs() && place.at < 100_000 && place.last < 9);
    let found = updates_of_logs(alloc, log, *place, place.last + 1, 9)?;
    *place = found.place;
    Ok(read_of(&found))
}

// Adds a batch as a group of its own first.
fn add_and_read<Log: ReadableLog>(
    rt: &impl Abort,
    alloc: Global,
    log: &mut Log,
    place: &mut LogPlace,
    first: u64,
    batch: Batch,
) -> Result<Read, RecoverError>
    requires { first < 2 ^ 32 }
{
    check(rt, 0, &add(log, first, batch, false), &Ok(()));
    read_on(rt, alloc, log, place)
}

// The first reads come when the other logs have not begun.
#[test]
fn each_read_gives_what_is_new(rt: HostRuntime) -> Result<(), Fail> {
    let (one, two, three, four) = four_puts(rt.alloc())?;
    let mut set = three_logs(rt.alloc(), &[])?;
    let mut place = LogPlace::start();
    let found = read_on(&rt, rt.alloc(), &mut set, &mut place);
    check(&rt, 0, &found, &Ok((0, 0, (0, 0, 0))));
    let found = add_and_read(&rt, rt.alloc(), &mut set, &mut place, 1, one);
    check(&rt, 1, &found, &Ok((1, 1, (0, 24, 1))));
    let found = read_on(&rt, rt.alloc(), &mut set, &mut place);
    check(&rt, 2, &found, &Ok((0, 0, (0, 24, 1))));
    let found = add_and_read(&rt, rt.alloc(), &mut set, &mut place, 2, two);
    check(&rt, 3, &found, &Ok((1, 2, (1, 24, 2))));
    let found = add_and_read(&rt, rt.alloc(), &mut set, &mut place, 3, three);
    check(&rt, 4, &found, &Ok((1, 3, (2, 24, 3))));
    let found = add_and_read(&rt, rt.alloc(), &mut set, &mut place, 4, four);
    check(&rt, 5, &found, &Ok((1, 4, (2, 48, 4))));
    let _ = set.into_disks();
    Ok(())
}

// After the first read all other logs begin before the next one.
#[test]
fn a_read_gives_the_logs_that_have_begun(rt: HostRuntime) -> Result<(), Fail> {
    let (one, two, three, four) = four_puts(rt.alloc())?;
    let mut set = three_logs(rt.alloc(), &[])?;
    let mut place = LogPlace::start();
    let found = add_and_read(&rt, rt.alloc(), &mut set, &mut place, 1, one);
    check(&rt, 0, &found, &Ok((1, 1, (0, 24, 1))));
    check(&rt, 1, &add(&mut set, 2, two, false), &Ok(()));
    check(&rt, 2, &add(&mut set, 3, three, false), &Ok(()));
    let found = add_and_read(&rt, rt.alloc(), &mut set, &mut place, 4, four);
    check(&rt, 3, &found, &Ok((3, 4, (2, 48, 4))));
    let _ = set.into_disks();
    Ok(())
}

const FAULT: Result<Read, RecoverError> = Err(RecoverError::Fault { count: 1 });

// The calls of the first disk are a look at the length, an append and a read, the sync before the second log is begun,
// and another read, from the end of its record on. Its sixth call would fail: it comes where all is read again.
#[test]
fn a_read_touches_no_earlier_log(rt: HostRuntime) -> Result<(), Fail> {
    let (one, two, three, four) = four_puts(rt.alloc())?;
    let mut set = three_logs(rt.alloc(), &[6])?;
    let mut place = LogPlace::start();
    let found = add_and_read(&rt, rt.alloc(), &mut set, &mut place, 1, one);
    check(&rt, 0, &found, &Ok((1, 1, (0, 24, 1))));
    let found = add_and_read(&rt, rt.alloc(), &mut set, &mut place, 2, two);
    check(&rt, 1, &found, &Ok((1, 2, (1, 24, 2))));
    let found = add_and_read(&rt, rt.alloc(), &mut set, &mut place, 3, three);
    check(&rt, 2, &found, &Ok((1, 3, (2, 24, 3))));
    let found = add_and_read(&rt, rt.alloc(), &mut set, &mut place, 4, four);
    check(&rt, 3, &found, &Ok((1, 4, (2, 48, 4))));
    let found = read_on(&rt, rt.alloc(), &mut set, &mut LogPlace::start());
    check(&rt, 4, &found, &FAULT);
    let _ = set.into_disks();
    Ok(())
}

// The calls of the disk are a look at the length, an append for each of the three blocks that the first record touches,
// a read of each of these, an append, and a read of the last block alone. The next read would be its tenth call.
#[test]
fn a_read_touches_no_earlier_block(rt: HostRuntime) -> Result<(), Fail> {
    let long = put_zeros(rt.alloc(), 70_000)?;
    let short = put_zeros(rt.alloc(), 1)?;
    let mut log = opened(rt.alloc(), 70_063, &[10])?;
    let mut place = LogPlace::start();
    let found = add_and_read(&rt, rt.alloc(), &mut log, &mut place, 1, long);
    check(&rt, 0, &found, &Ok((1, 1, (0, 70_039, 1))));
    let found = add_and_read(&rt, rt.alloc(), &mut log, &mut place, 2, short);
    check(&rt, 1, &found, &Ok((1, 2, (0, 70_063, 2))));
    let found = read_on(&rt, rt.alloc(), &mut log, &mut place);
    check(&rt, 2, &found, &FAULT);
    let _ = log.into_disk();
    Ok(())
}

// A place up to which a client has read.
const EARLY: LogPlace = LogPlace {
    log: 0,
    at: 24,
    last: 1,
};

const LATE: LogPlace = LogPlace {
    log: 1,
    at: 48,
    last: 7,
};

// From which sequence on a client asks for what is new, and the offset where that read begins.
const NEAREST: [(u64, u64); 6] = [(0, 0), (1, 0), (2, 24), (7, 24), (8, 48), (9, 48)];

// No client has the numbers 0 and 3.
#[test]
fn reads_begin_at_the_nearest_place(rt: HostRuntime) -> Result<(), Fail> {
    let mut places = ReadPlaces::for_clients(rt.alloc(), 2)?;
    check(&rt, 0, &places.nearest(9), &LogPlace::start());
    places.reach(0, LATE);
    places.reach(3, LATE);
    check(&rt, 1, &places.nearest(9), &LogPlace::start());
    places.reach(1, LATE);
    places.reach(2, EARLY);
    for (row, (since, at)) in NEAREST.iter().enumerate() {
        check(&rt, row, &places.nearest(*since).at, at);
    }
    // A client's place takes the place of its last one.
    places.reach(1, EARLY);
    check(&rt, 2, &places.nearest(9), &EARLY);
    Ok(())
}
