//! What several logs recover, one after another: whole ones, and those of which one was cut or changed, is empty or
//! begins its sequences anew; what each mode accepts of them; and disks that fail.

ghost use Rattle.std.specs.Prelude.{◌<◌, ◌≤◌, length};

use crate::changes::{cut_at, set_byte};
use crate::checks::check;
use crate::logs::{LOG, SECOND_AT};
use crate::modes::{Accepting, is_among};
use base_devices::{Disk, MemDisk};
use log_recovery::{End, Mode, RecoverError, RecoveredMany, recover_many};
use model_base::{Damage, EndReason, NoMemory};
use std::alloc::Global;
use std::process::Abort;
use std::test::Fail;

/// The log that comes after the first record of `LOG`: `put b 2` and `put c 3`, each in a record of its own. The
/// checksums were computed by another program.
pub(crate) const NEXT: [u8; 48] = [
    0x8f, 0x72, 0xbc, 0x7a, 0x11, 0x00, 0x01, // the header of the first
    0x02, 0x00, 0x00, 0x00, 0x00, 0x00, 0x00, 0x00, // sequence 2
    0x01, 0x00, 0x00, 0x00, // count 1
    0x01, 0x01, b'b', 0x01, b'2', // put b 2
    0x02, 0x81, 0x00, 0xe5, 0x11, 0x00, 0x01, // the header of the second
    0x03, 0x00, 0x00, 0x00, 0x00, 0x00, 0x00, 0x00, // sequence 3
    0x01, 0x00, 0x00, 0x00, // count 1
    0x01, 0x01, b'c', 0x01, b'3', // put c 3
];

/// What logs recover: how many groups, the last sequence, the log in which recovery ends, how many bytes of it are
/// kept, where recovery ends, and why.
pub(crate) type Summary = (usize, u64, u64, u64, u64, EndReason);

/// The end of a whole log.
pub(crate) const CLEAN: EndReason = EndReason::Clean;

const SHORT_HEADER: EndReason = EndReason::Broken(Damage::ShortHeader);

const BAD_LENGTH: EndReason = EndReason::Broken(Damage::BadLength);

const BAD_CHECKSUM: EndReason = EndReason::Broken(Damage::BadChecksum);

/// What was recovered, in numbers.
pub(crate) fn summary_of(found: &RecoveredMany) -> Summary {
    let End { at, why } = found.end;
    (
        found.groups.len(),
        found.last,
        found.log,
        found.kept,
        at,
        why,
    )
}

// What these disks recover by this mode.
fn recovered(alloc: Global, disks: &mut [MemDisk], mode: Mode) -> Result<Summary, RecoverError>
    requires some { 0 < length disks.old }
    requires few { length disks.old ≤ 16 }
{
    Ok(summary_of(&recover_many(alloc, disks, mode)?))
}

// A disk with this log.
fn disk_of(alloc: Global, log: &[u8]) -> Result<MemDisk, NoMemory> {
    MemDisk::new(alloc, log.len(), log, &[])
}

// What recovery by this mode should answer.
fn wanted_by(mode: Mode, wanted: Summary, modes: Accepting) -> Result<Summary, RecoverError> {
    let (_, _, log, _, at, why) = wanted;
    if is_among(mode, modes) {
        Ok(wanted)
    } else {
        Err(RecoverError::Damage { log, at, why })
    }
}

// Compares what two logs recover by each mode with what they should.
fn check_two(
    rt: &impl Abort,
    alloc: Global,
    row: usize,
    one: &[u8],
    two: &[u8],
    wanted: Summary,
    modes: Accepting,
) -> Result<(), Fail> {
    // All modes so far were as wanted.
    for mode in [Mode::Point, Mode::Tail, Mode::Absolute] {
        let mut disks = [disk_of(alloc, one)?, disk_of(alloc, two)?];
        let found = recovered(alloc, &mut disks, mode);
        check(rt, row, &found, &wanted_by(mode, wanted, modes));
    }
    Ok(())
}

// How many bytes are left of the first log, which has 24, and of the second, which has 48, and what they recover.
const CUT: [(usize, usize, Summary, Accepting); 7] = [
    (24, 48, (3, 3, 2, 48, 48, CLEAN), Accepting::Each),
    (23, 48, (0, 0, 1, 0, 0, BAD_LENGTH), Accepting::PointAndTail),
    (
        6,
        48,
        (0, 0, 1, 0, 0, SHORT_HEADER),
        Accepting::PointAndTail,
    ),
    (0, 48, (2, 3, 2, 48, 48, CLEAN), Accepting::Each),
    (24, 0, (1, 1, 2, 0, 0, CLEAN), Accepting::Each),
    (24, 23, (1, 1, 2, 0, 0, BAD_LENGTH), Accepting::PointAndTail),
    (
        24,
        30,
        (2, 2, 2, 24, 24, SHORT_HEADER),
        Accepting::PointAndTail,
    ),
];

#[test]
fn ends_in_the_log_that_is_cut(rt: HostRuntime) -> Result<(), Fail> {
    // All rows so far were as wanted.
    for (row, (first, second, wanted, modes)) in CUT.iter().enumerate() {
        let one = cut_at(&LOG[..SECOND_AT], *first)?;
        let two = cut_at(&NEXT, *second)?;
        check_two(&rt, rt.alloc(), row, one, two, *wanted, *modes)?;
    }
    Ok(())
}

#[test]
fn ends_at_damage_and_where_sequences_come_again(rt: HostRuntime) -> Result<(), Fail> {
    let mut changed = NEXT;
    set_byte(&mut changed, 23, b'4')?;
    let damaged = (1, 1, 2, 0, 0, BAD_CHECKSUM);
    let modes = Accepting::PointAlone;
    check_two(
        &rt,
        rt.alloc(),
        0,
        &LOG[..SECOND_AT],
        &changed,
        damaged,
        modes,
    )?;
    let order = EndReason::Order { first: 1, last: 2 };
    check_two(
        &rt,
        rt.alloc(),
        1,
        &LOG,
        &LOG,
        (2, 2, 2, 0, 0, order),
        modes,
    )
}

// The second of three logs is empty.
#[test]
fn goes_on_after_an_empty_log(rt: HostRuntime) -> Result<(), Fail> {
    let mut disks = [
        disk_of(rt.alloc(), &LOG[..SECOND_AT])?,
        disk_of(rt.alloc(), &[])?,
        disk_of(rt.alloc(), &NEXT)?,
    ];
    let found = recovered(rt.alloc(), &mut disks, Mode::Absolute);
    check(&rt, 0, &found, &Ok((3, 3, 3, 48, 48, CLEAN)));
    Ok(())
}

// What two logs recover, and how many calls of the second disk have failed. Of the first log so many bytes are left;
// its disk is asked for the length once before. These calls of the two disks fail.
fn failing(
    alloc: Global,
    len: usize,
    first: &[u64],
    second: &[u64],
) -> Result<(Result<Summary, RecoverError>, u64), Fail> {
    let log = cut_at(&LOG, len)?;
    let mut one = MemDisk::new(alloc, log.len(), log, first)?;
    let _ = one.len();
    let two = MemDisk::new(alloc, NEXT.len(), &NEXT, second)?;
    let mut disks = [one, two];
    let found = recovered(alloc, &mut disks, Mode::Point);
    Ok((found, disks[1].faults()))
}

// A log of one record is read by two calls. In the first row recovery ends in the first log, and in the fifth one that
// log's disk fails: the second disk, whose first call would fail, isn't asked. In the last row the first disk fails as it
// is asked for its length again, once the second one has bytes: that one isn't read, though it would fail.
const FAILING: [(usize, &[u64], &[u64], Result<Summary, RecoverError>, u64); 6] = [
    (23, &[], &[1], Ok((0, 0, 1, 0, 0, BAD_LENGTH)), 0),
    (24, &[], &[1], Err(RecoverError::Fault { count: 1 }), 1),
    (24, &[], &[2], Err(RecoverError::Fault { count: 1 }), 1),
    (24, &[1], &[1], Err(RecoverError::Fault { count: 2 }), 1),
    (24, &[2], &[1], Err(RecoverError::Fault { count: 1 }), 0),
    (24, &[4], &[2], Err(RecoverError::Fault { count: 1 }), 0),
];

#[test]
fn a_fault_has_the_count_of_all_disks(rt: HostRuntime) -> Result<(), Fail> {
    // All rows so far were as wanted.
    for (row, (len, first, second, wanted, faults)) in FAILING.iter().enumerate() {
        let found = failing(rt.alloc(), *len, first, second)?;
        check(&rt, row, &found, &(*wanted, *faults));
    }
    Ok(())
}
