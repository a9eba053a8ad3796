//! Logs with a number: what is read and recovered from them, also where one was written over an older log.

use crate::changes::cut_at;
use crate::checks::check;
use crate::logs::{
    LOG, PUT, Summary, batch_bytes, check_map, put_fragment_in, put_record_in, recovered_as,
};
use base_devices::MemDisk;
use log_reader::{LogReader, Next};
use log_recovery::{GroupNote, recover};
use model_base::{Damage, EndReason};
use std::alloc::{AllocError, Global};
use std::process::Abort;
use std::test::Fail;

/// The log with the number 7 of `put a 1` and `put b 2`, each in a record of its own. The checksums were computed by
/// another program.
pub(crate) const LOG_7: [u8; 56] = [
    0x32, 0x33, 0x0f, 0x45, 0x11, 0x00, 0x05, // the header of the first
    0x07, 0x00, 0x00, 0x00, // number 7
    0x01, 0x00, 0x00, 0x00, 0x00, 0x00, 0x00, 0x00, // sequence 1
    0x01, 0x00, 0x00, 0x00, // count 1
    0x01, 0x01, b'a', 0x01, b'1', // put a 1
    0xd4, 0x65, 0xc3, 0xae, 0x11, 0x00, 0x05, // the header of the second
    0x07, 0x00, 0x00, 0x00, // number 7
    0x02, 0x00, 0x00, 0x00, 0x00, 0x00, 0x00, 0x00, // sequence 2
    0x01, 0x00, 0x00, 0x00, // count 1
    0x01, 0x01, b'b', 0x01, b'2', // put b 2
];

// Where the second record of `LOG_7` begins. The first has the bytes before it.
const SECOND_AT: usize = 28;

// The first record of a log with the number 8, which puts `3` at `c`.
const FIRST_OF_8: [u8; 28] = [
    0x13, 0x6d, 0x32, 0x7d, 0x11, 0x00, 0x05, // the header
    0x08, 0x00, 0x00, 0x00, // number 8
    0x01, 0x00, 0x00, 0x00, 0x00, 0x00, 0x00, 0x00, // sequence 1
    0x01, 0x00, 0x00, 0x00, // count 1
    0x01, 0x01, b'c', 0x01, b'3', // put c 3
];

// `put b 2`.
const PUT_B: [u8; 5] = [1, 1, b'b', 1, b'2'];

// The log with this number, if it has one, of `put a 1` and `put b 2`.
fn two_puts(alloc: Global, number: Option<u32>) -> Result<Vec<u8>, AllocError> {
    let mut log = Vec::new(alloc);
    put_record_in(number, &mut log, &batch_bytes(alloc, 1, 1, &PUT)?)?;
    put_record_in(number, &mut log, &batch_bytes(alloc, 2, 1, &PUT_B)?)?;
    Ok(log)
}

/// Log 8 with its first record, over log 7.
pub(crate) fn written_over(alloc: Global) -> Result<Vec<u8>, AllocError> {
    let mut log = Vec::from_slice(alloc, &FIRST_OF_8)?;
    log.extend_from_slice(&LOG_7[SECOND_AT..])?;
    Ok(log)
}

#[test]
fn makes_logs_with_a_number(rt: HostRuntime) -> Result<(), Fail> {
    let numbered = two_puts(rt.alloc(), Some(7))?;
    check(&rt, 0, &numbered.as_slice(), &LOG_7.as_slice());
    let plain = two_puts(rt.alloc(), None)?;
    check(&rt, 1, &plain.as_slice(), &LOG.as_slice());
    Ok(())
}

const NUMBER_7: EndReason = EndReason::Broken(Damage::OldLog(7));

const NUMBER_8: EndReason = EndReason::Broken(Damage::OldLog(8));

const TYPE_1: EndReason = EndReason::Broken(Damage::BadType(1));

const TYPE_5: EndReason = EndReason::Broken(Damage::BadType(5));

/// The number that a log is read with, if any, and what is recovered then.
pub(crate) type Row = (Option<u32>, Summary);

/// What is recovered from log 7.
pub(crate) const OF_LOG_7: [Row; 3] = [
    (Some(7), (2, 2, 56, 56, EndReason::Clean)),
    (Some(8), (0, 0, 0, 0, NUMBER_7)),
    (None, (0, 0, 0, 0, TYPE_5)),
];

const OF_PLAIN: [Row; 2] = [
    (None, (2, 2, 48, 48, EndReason::Clean)),
    (Some(7), (0, 0, 0, 0, TYPE_1)),
];

/// What is recovered where log 8 with its first record was written over log 7.
pub(crate) const OF_WRITTEN_OVER: [Row; 3] = [
    (Some(8), (1, 1, 28, 28, NUMBER_7)),
    (Some(7), (0, 0, 0, 0, NUMBER_8)),
    (None, (0, 0, 0, 0, TYPE_5)),
];

/// Compares what a log recovers when it is read with each row's number.
pub(crate) fn check_rows(rt: &impl Abort, alloc: Global, log: &[u8], rows: &[Row]) {
    // All rows so far were as wanted.
    for (row, (number, wanted)) in rows.iter().enumerate() {
        let found = recovered_as(*number, alloc, log);
        check(rt, row, &found, &Ok(*wanted));
    }
}

#[test]
fn recovers_a_log_with_its_number(rt: HostRuntime) -> Result<(), Fail> {
    check_rows(&rt, rt.alloc(), &LOG_7, &OF_LOG_7);
    check_rows(&rt, rt.alloc(), &LOG, &OF_PLAIN);
    check_rows(
        &rt,
        rt.alloc(),
        &written_over(rt.alloc())?,
        &OF_WRITTEN_OVER,
    );
    Ok(())
}

const NOTE_OF_8: GroupNote = GroupNote {
    first: 1,
    count: 1,
    size: 17,
};

#[test]
fn recovers_what_was_written_over_another_log(rt: HostRuntime) -> Result<(), Fail> {
    let log = written_over(rt.alloc())?;
    let mut disk = MemDisk::new(rt.alloc(), log.len(), &log, &[])?;
    let Ok(found) = recover(rt.alloc(), &mut disk, Some(8)) else {
        return Err(Fail::from("the log is not recovered"));
    };
    check(&rt, 0, &found.groups.as_slice(), &[NOTE_OF_8].as_slice());
    check_map(&rt, &found.map, &[(0, b"c", b"3")]);
    Ok(())
}

// Why the first `len` bytes of log 7 end.
fn why_cut(len: usize) -> EndReason {
    match len % 28 {
        0 => EndReason::Clean,
        1..=10 => EndReason::Broken(Damage::ShortHeader),
        _ => EndReason::Broken(Damage::BadLength),
    }
}

// What is recovered from these bytes. Both records have 28 bytes.
fn left_of(len: usize) -> Summary {
    let why = why_cut(len);
    match len {
        0..=27 => (0, 0, 0, 0, why),
        28..=55 => (1, 1, 28, 28, why),
        _ => (2, 2, 56, 56, why),
    }
}

#[test]
fn stops_where_a_log_with_a_number_is_cut(rt: HostRuntime) -> Result<(), Fail> {
    // Each shorter cut recovered what was wanted.
    for len in 0..57 {
        let found = recovered_as(Some(7), rt.alloc(), cut_at(&LOG_7, len)?);
        check(&rt, len, &found, &Ok(left_of(len)));
    }
    Ok(())
}

// The records of a log with a number that ends in its fourth block, with ten zeros at the end of the third: the byte
// that a record consists of, how many of them it has, and what is read.
const RECORDS: [(u8, usize, Next); 3] = [
    (
        b'a',
        1000,
        Next::Record {
            start: 0,
            end: 1011,
        },
    ),
    (
        b'b',
        97250,
        Next::Record {
            start: 1011,
            end: 98294,
        },
    ),
    (
        b'c',
        8000,
        Next::Record {
            start: 98304,
            end: 106_315,
        },
    ),
];

fn three_on_disk(alloc: Global) -> Result<MemDisk, Fail> {
    let mut log = Vec::new(alloc);
    // The records so far are in the log.
    for (byte, len, _) in &RECORDS {
        put_record_in(Some(7), &mut log, &vec![in alloc; *byte; *len]?)?;
    }
    Ok(MemDisk::new(alloc, log.len(), &log, &[])?)
}

#[test]
fn reads_several_blocks_with_a_number(rt: HostRuntime) -> Result<(), Fail> {
    let mut disk = three_on_disk(rt.alloc())?;
    let mut reader = LogReader::open(rt.alloc(), Some(7))?;
    // The records so far were read as wanted.
    for (row, (byte, len, wanted)) in RECORDS.iter().enumerate() {
        let record = vec![in rt.alloc(); *byte; *len]?;
        let answer = reader.next(&mut disk);
        check(
            &rt,
            row,
            &(answer, reader.record()),
            &(*wanted, record.as_slice()),
        );
    }
    let wanted = Next::End {
        at: 106_315,
        why: EndReason::Clean,
    };
    check(&rt, 3, &reader.next(&mut disk), &wanted);
    Ok(())
}

// The types of fragments in a log with a number.
const FULL: u8 = 5;

const FIRST: u8 = 6;

const MIDDLE: u8 = 7;

const LAST: u8 = 8;

// What the first read answers where the log has two fragments of these types, the second with this number, in a log
// with the number 8.
fn read_first(alloc: Global, first: u8, second: u8, number: u32) -> Result<Next, Fail> {
    let mut log = Vec::new(alloc);
    put_fragment_in(Some(8), &mut log, first, b"a")?;
    put_fragment_in(Some(number), &mut log, second, b"b")?;
    let mut disk = MemDisk::new(alloc, log.len(), &log, &[])?;
    Ok(LogReader::open(alloc, Some(8))?.next(&mut disk))
}

// The types of two fragments, each of twelve bytes, the number of the second, where reading ends without a record, and
// why.
const STOPPED: [(u8, u8, u32, u64, EndReason); 5] = [
    (FIRST, LAST, 7, 12, NUMBER_7),
    (FIRST, FULL, 7, 12, NUMBER_7),
    (FIRST, FULL, 8, 12, EndReason::BadOrder),
    (MIDDLE, LAST, 8, 0, EndReason::BadOrder),
    (1, LAST, 8, 0, TYPE_1),
];

#[test]
fn stops_at_a_fragment_of_another_log(rt: HostRuntime) -> Result<(), Fail> {
    // All rows so far were as wanted.
    for (row, (first, second, number, at, why)) in STOPPED.iter().enumerate() {
        let found = read_first(rt.alloc(), *first, *second, *number)?;
        check(&rt, row, &found, &Next::End { at: *at, why: *why });
    }
    Ok(())
}
