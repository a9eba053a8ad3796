//! A log's records one after another, and what ends the reading.

use crate::changes::cut_at;
use crate::checks::check;
use crate::logs::{put_fragment, put_record};
use base_devices::MemDisk;
use log_block::{FIRST, FULL, LAST, MIDDLE};
use log_reader::{LogReader, Next};
use model_base::{Damage, EndReason, NoMemory};
use std::alloc::{AllocError, Global};
use std::process::Abort;
use std::test::Fail;

const FIRST_RECORD: Next = Next::Record {
    start: 0,
    end: 1007,
};

const SECOND_RECORD: Next = Next::Record {
    start: 1007,
    end: 98298,
};

const THIRD_RECORD: Next = Next::Record {
    start: 98304,
    end: 106_311,
};

// The records of a log that ends in its fourth block: the byte that a record consists of, how many of them it has, and
// what is read.
const RECORDS: [(u8, usize, Next); 3] = [
    (b'a', 1000, FIRST_RECORD),
    (b'b', 97270, SECOND_RECORD),
    (b'c', 8000, THIRD_RECORD),
];

// Adds a record of `len` equal bytes at the end of a log.
fn put_equal(alloc: Global, log: &mut Vec<u8>, byte: u8, len: usize) -> Result<(), AllocError> {
    put_record(log, &vec![in alloc; byte; len]?)
}

fn three_records(alloc: Global) -> Result<Vec<u8>, AllocError> {
    let mut log = Vec::new(alloc);
    for (byte, len, _) in &RECORDS {
        put_equal(alloc, &mut log, *byte, *len)?;
    }
    Ok(log)
}

// The first four answers of the reader, where the disk's call with the number `fails` fails.
fn answers(alloc: Global, content: &[u8], fails: u64) -> Result<[Next; 4], Fail> {
    let mut disk = MemDisk::new(alloc, content.len(), content, &[fails])?;
    let mut reader = LogReader::open(alloc, None)?;
    Ok([
        reader.next(&mut disk),
        reader.next(&mut disk),
        reader.next(&mut disk),
        reader.next(&mut disk),
    ])
}

// The first `records` records, at most two, and then the answer `then` each time.
fn answers_after(records: usize, then: Next) -> [Next; 4] {
    match records {
        0 => [then; 4],
        1 => [FIRST_RECORD, then, then, then],
        _ => [FIRST_RECORD, SECOND_RECORD, then, then],
    }
}

fn three_on_disk(alloc: Global) -> Result<MemDisk, NoMemory> {
    let log = three_records(alloc)?;
    MemDisk::new(alloc, log.len(), &log, &[])
}

// Compares what is read next, and the record that the reader has then.
fn check_next(
    rt: &impl Abort,
    reader: &mut LogReader,
    disk: &mut MemDisk,
    record: &[u8],
    wanted: Next,
) {
    let answer = reader.next(disk);
    check(rt, 0, &(answer, reader.record()), &(wanted, record));
}

#[test]
fn reads_the_records_of_several_blocks(rt: HostRuntime) -> Result<(), Fail> {
    let mut disk = three_on_disk(rt.alloc())?;
    let mut reader = LogReader::open(rt.alloc(), None)?;
    for (byte, len, wanted) in &RECORDS {
        let record = vec![in rt.alloc(); *byte; *len]?;
        check_next(&rt, &mut reader, &mut disk, &record, *wanted);
    }
    let ended = [reader.next(&mut disk), reader.next(&mut disk)];
    let wanted = Next::End {
        at: 106_311,
        why: EndReason::Clean,
    };
    check(&rt, 1, &ended, &[wanted; 2]);
    Ok(())
}

// Where a log is cut, how many records are read, where reading ends, and why.
const CUT: [(usize, usize, u64, EndReason); 4] = [
    (0, 0, 0, EndReason::Clean),
    (32768, 1, 1007, EndReason::Unfinished),
    (32769, 1, 32768, EndReason::Broken(Damage::ShortHeader)),
    (98300, 2, 98300, EndReason::Clean),
];

fn check_cut(rt: &impl Abort, alloc: Global, log: &[u8]) -> Result<(), Fail> {
    for (row, (len, records, at, why)) in CUT.iter().enumerate() {
        let end = Next::End { at: *at, why: *why };
        let found = answers(alloc, cut_at(log, *len)?, 0)?;
        check(rt, row, &found, &answers_after(*records, end));
    }
    Ok(())
}

#[test]
fn reads_what_is_left_of_a_log(rt: HostRuntime) -> Result<(), Fail> {
    check_cut(&rt, rt.alloc(), &three_records(rt.alloc())?)
}

// Each of the five reads fails in turn: which one, and how many records are read before it.
const FAILED: [(u64, usize); 5] = [(1, 0), (2, 1), (3, 1), (4, 2), (5, 2)];

#[test]
fn stops_where_the_disk_fails(rt: HostRuntime) -> Result<(), Fail> {
    let log = three_records(rt.alloc())?;
    for (row, (call, records)) in FAILED.iter().enumerate() {
        let wanted = answers_after(*records, Next::Fault { count: 1 });
        check(&rt, row, &answers(rt.alloc(), &log, *call)?, &wanted);
    }
    Ok(())
}

// A log of two fragments of these types.
fn two_fragments(alloc: Global, first: u8, second: u8) -> Result<Vec<u8>, AllocError> {
    let mut log = Vec::new(alloc);
    put_fragment(&mut log, first, b"a")?;
    put_fragment(&mut log, second, b"b")?;
    Ok(log)
}

// The types of two fragments, and the place of the one that may not be there.
const MISPLACED: [(u8, u8, u64); 4] = [
    (LAST, FULL, 0),
    (MIDDLE, LAST, 0),
    (FIRST, FULL, 8),
    (FIRST, FIRST, 8),
];

#[test]
fn ends_at_a_fragment_in_a_wrong_place(rt: HostRuntime) -> Result<(), Fail> {
    for (row, (first, second, at)) in MISPLACED.iter().enumerate() {
        let log = two_fragments(rt.alloc(), *first, *second)?;
        let wanted = Next::End {
            at: *at,
            why: EndReason::BadOrder,
        };
        check(&rt, row, &answers(rt.alloc(), &log, 0)?, &[wanted; 4]);
    }
    Ok(())
}
