//! What each mode accepts of logs that were cut or changed, or that have more after their records.

use crate::changes::{cut_at, fill_block, put_zeros, set_byte};
use crate::checks::check;
use crate::logs::{EMPTY, LOG, SECOND_AT, Summary, put_fragment};
use crate::numbered_logs::written_over;
use base_devices::MemDisk;
use log_block::{FIRST, max_part_len};
use log_recovery::{End, Mode, RecoverError, recover_mode};
use model_base::{Damage, EndReason};
use std::alloc::{AllocError, Global};
use std::process::Abort;
use std::test::Fail;

const SHORT_HEADER: EndReason = EndReason::Broken(Damage::ShortHeader);

const BAD_LENGTH: EndReason = EndReason::Broken(Damage::BadLength);

const BAD_CHECKSUM: EndReason = EndReason::Broken(Damage::BadChecksum);

const ZEROS: EndReason = EndReason::Broken(Damage::Zeros);

const OLD_LOG: EndReason = EndReason::Broken(Damage::OldLog(7));

/// The modes that accept an end.
#[derive(Clone, Copy, PartialEq, Eq)]
pub(crate) enum Accepting {
    Each,
    PointAndTail,
    PointAlone,
}

/// Whether the mode is one of these.
pub(crate) fn is_among(mode: Mode, modes: Accepting) -> bool {
    match mode {
        Mode::Point => true,
        Mode::Tail => modes != Accepting::PointAlone,
        Mode::Absolute => modes == Accepting::Each,
    }
}

/// What a log recovers by point-in-time recovery, and which modes accept its end.
type Row = (Summary, Accepting);

// What is recovered from these bytes by this mode, read as a log with this number, if it has one.
fn recovered_by(
    mode: Mode,
    number: Option<u32>,
    alloc: Global,
    bytes: &[u8],
    faults: &[u64],
) -> Result<Summary, RecoverError> {
    let mut disk = MemDisk::new(alloc, bytes.len(), bytes, faults)?;
    let log = recover_mode(alloc, &mut disk, number, mode)?;
    let End { at, why } = log.end;
    Ok((log.groups.len(), log.last, log.kept, at, why))
}

// What recovery by this mode should answer.
fn wanted_by(mode: Mode, (found, modes): Row) -> Result<Summary, RecoverError> {
    let (_, _, _, at, why) = found;
    if is_among(mode, modes) {
        Ok(found)
    } else {
        Err(RecoverError::Damage { log: 1, at, why })
    }
}

// Compares what each mode answers for a log.
fn check_modes(
    rt: &impl Abort,
    alloc: Global,
    row: usize,
    number: Option<u32>,
    log: &[u8],
    wanted: Row,
) {
    // All modes so far were as wanted.
    for mode in [Mode::Point, Mode::Tail, Mode::Absolute] {
        let found = recovered_by(mode, number, alloc, log, &[]);
        check(rt, row, &found, &wanted_by(mode, wanted));
    }
}

// How many bytes are left of the log of two batches, and what they recover.
const CUT: [(usize, Row); 5] = [
    (0, ((0, 0, 0, 0, EndReason::Clean), Accepting::Each)),
    (24, ((1, 1, 24, 24, EndReason::Clean), Accepting::Each)),
    (30, ((1, 1, 24, 24, SHORT_HEADER), Accepting::PointAndTail)),
    (31, ((1, 1, 24, 24, BAD_LENGTH), Accepting::PointAndTail)),
    (48, ((2, 2, 48, 48, EndReason::Clean), Accepting::Each)),
];

#[test]
fn a_cut_log_by_mode(rt: HostRuntime) -> Result<(), Fail> {
    // All rows so far were as wanted.
    for (row, (len, wanted)) in CUT.iter().enumerate() {
        let log = cut_at(&LOG, *len)?;
        check_modes(&rt, rt.alloc(), row, None, log, *wanted);
    }
    Ok(())
}

// A place of the log of two batches, the byte that is put there, and what is recovered then. The second record's
// length is at 28 and 29: with `0x1011` the part would end within the block, with `0x8011` after it.
const CHANGED: [(usize, u8, Row); 4] = [
    (
        47,
        b'3',
        ((1, 1, 24, 24, BAD_CHECKSUM), Accepting::PointAlone),
    ),
    (
        29,
        0x10,
        ((1, 1, 24, 24, BAD_LENGTH), Accepting::PointAndTail),
    ),
    (
        29,
        0x80,
        ((1, 1, 24, 24, BAD_LENGTH), Accepting::PointAlone),
    ),
    (
        30,
        9,
        (
            (1, 1, 24, 24, EndReason::Broken(Damage::BadType(9))),
            Accepting::PointAlone,
        ),
    ),
];

#[test]
fn a_changed_log_by_mode(rt: HostRuntime) -> Result<(), Fail> {
    // All rows so far were as wanted.
    for (row, (at, byte, wanted)) in CHANGED.iter().enumerate() {
        let mut log = LOG;
        set_byte(&mut log, *at, *byte)?;
        check_modes(&rt, rt.alloc(), row, None, &log, *wanted);
    }
    Ok(())
}

// The first `len` bytes of the log of two batches, `zeros` zeros after them, and one more byte, if any.
fn with_zeros(alloc: Global, len: usize, zeros: usize, last: Option<u8>) -> Result<Vec<u8>, Fail> {
    let mut log = Vec::from_slice(alloc, cut_at(&LOG, len)?)?;
    put_zeros(&mut log, zeros)?;
    if let Some(byte) = last {
        log.push(byte)?;
    }
    Ok(log)
}

const WITH_ZEROS: [(usize, usize, Option<u8>, Row); 5] = [
    (
        48,
        7,
        None,
        ((2, 2, 48, 48, ZEROS), Accepting::PointAndTail),
    ),
    (
        24,
        7,
        None,
        ((1, 1, 24, 24, ZEROS), Accepting::PointAndTail),
    ),
    (
        24,
        7,
        Some(1),
        ((1, 1, 24, 24, ZEROS), Accepting::PointAlone),
    ),
    (
        24,
        40_000,
        None,
        ((1, 1, 24, 24, ZEROS), Accepting::PointAndTail),
    ),
    (
        24,
        40_000,
        Some(1),
        ((1, 1, 24, 24, ZEROS), Accepting::PointAlone),
    ),
];

#[test]
fn zeros_by_mode(rt: HostRuntime) -> Result<(), Fail> {
    // All rows so far were as wanted.
    for (row, (len, zeros, last, wanted)) in WITH_ZEROS.iter().enumerate() {
        let log = with_zeros(rt.alloc(), *len, *zeros, *last)?;
        check_modes(&rt, rt.alloc(), row, None, &log, *wanted);
    }
    Ok(())
}

// The first fragment of a record, which fills its block.
fn begun_record(alloc: Global) -> Result<Vec<u8>, AllocError> {
    let mut log = Vec::new(alloc);
    put_fragment(&mut log, FIRST, &vec![in alloc; 0u8; max_part_len(None)]?)?;
    fill_block(&mut log)?;
    Ok(log)
}

#[test]
fn other_ends_by_mode(rt: HostRuntime) -> Result<(), Fail> {
    let begun = begun_record(rt.alloc())?;
    let unfinished = ((0, 0, 0, 0, EndReason::Unfinished), Accepting::PointAndTail);
    check_modes(&rt, rt.alloc(), 0, None, &begun, unfinished);
    let short = ((0, 0, 0, 0, EndReason::Short), Accepting::PointAlone);
    check_modes(&rt, rt.alloc(), 1, None, &EMPTY, short);
    let over = written_over(rt.alloc())?;
    let old_log = ((1, 1, 28, 28, OLD_LOG), Accepting::Each);
    check_modes(&rt, rt.alloc(), 2, Some(8), &over, old_log);
    Ok(())
}

// The log of one batch and seven zeros is read by two calls of the disk. A third call looks at the zeros.
const FAULTS: [(Mode, Result<Summary, RecoverError>); 3] = [
    (Mode::Point, Ok((1, 1, 24, 24, ZEROS))),
    (Mode::Tail, Err(RecoverError::Fault { count: 1 })),
    (
        Mode::Absolute,
        Err(RecoverError::Damage {
            log: 1,
            at: 24,
            why: ZEROS,
        }),
    ),
];

#[test]
fn a_fault_behind_the_records_by_mode(rt: HostRuntime) -> Result<(), Fail> {
    let log = with_zeros(rt.alloc(), SECOND_AT, 7, None)?;
    // All rows so far were as wanted.
    for (row, (mode, wanted)) in FAULTS.iter().enumerate() {
        let found = recovered_by(*mode, None, rt.alloc(), &log, &[3]);
        check(&rt, row, &found, wanted);
    }
    Ok(())
}
