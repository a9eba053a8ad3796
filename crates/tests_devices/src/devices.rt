//! The devices in memory, and the clocks.

use crate::calls::{Call, Row, check_calls, made};
use crate::checks::check;
use base_devices::{
    Clock, Disk, Failed, MemDisk, MemSink, MemSource, ReadAt, RealClock, Sink, SliceDisk, Source,
    SteppedClock, write_all,
};
use model_base::NoMemory;
use std::alloc::Global;
use std::process::Abort;
use std::test::Fail;

const GIVEN: [Result<usize, Failed>; 5] = [Ok(2), Err(Failed), Ok(2), Ok(1), Ok(0)];

fn check_source<S: Source>(rt: &impl Abort, source: &mut S) {
    let mut buf = [0; 4];
    for (row, wanted) in GIVEN.iter().enumerate() {
        check(rt, row, &source.read(&mut buf), wanted);
    }
    check(rt, 0, &(buf, source.faults()), &(*b"ed\0\0", 1));
}

#[test]
fn source_gives_its_bytes(rt: HostRuntime) -> Result<(), Fail> {
    check_source(&rt, &mut MemSource::new(rt.alloc(), b"abcde", 2, &[2])?);
    Ok(())
}

// What a sink should take, after its first call took 3 bytes. The second call fails as listed, and the fifth because
// there is no room.
const TAKEN: [(&[u8], Result<(), Failed>); 3] = [
    (b"defg", Err(Failed)),
    (b"defg", Ok(())),
    (b"h", Err(Failed)),
];

fn check_sink<S: Sink>(rt: &impl Abort, sink: &mut S) {
    check(rt, 0, &sink.write(b"abcd"), &Ok(3));
    for (row, (piece, wanted)) in TAKEN.iter().enumerate() {
        check(rt, row, &write_all(sink, piece), wanted);
    }
    check(rt, 1, &(sink.write(b""), sink.faults()), &(Ok(0), 2));
}

#[test]
fn sink_takes_what_fits(rt: HostRuntime) -> Result<(), Fail> {
    let mut sink = MemSink::new(rt.alloc(), 7, 3, &[2])?;
    check_sink(&rt, &mut sink);
    check(&rt, 2, &sink.taken(), &b"abcdefg".as_slice());
    Ok(())
}

// Where the bytes `abcde` are read into a room of three, how many bytes each read should give, and the room after it.
const OF_SLICE: [(u64, usize, &[u8]); 4] = [
    (1, 3, b"bcd"),
    (4, 1, b"ecd"),
    (5, 0, b"ecd"),
    (u64::MAX, 0, b"ecd"),
];

#[test]
fn slice_is_read(rt: HostRuntime) {
    let mut file = SliceDisk::new(b"abcde");
    let mut room = [0; 3];
    for (row, (at, some, wanted)) in OF_SLICE.iter().enumerate() {
        let answer = file.read_at(*at, &mut room);
        check(&rt, row, &(answer, file.failure_count()), &(Ok(*some), 0));
        check(&rt, row, &room.as_slice(), wanted);
    }
}

// Calls of a disk, what each should answer, and how many bytes are safe then. The third call fails as listed, and the
// fourth because there is no room.
const CALLS: [(Call, Result<u64, Failed>, u64); 8] = [
    (Call::Len, Ok(2), 2),
    (Call::Append(b"cd"), Ok(0), 2),
    (Call::Append(b"ef"), Err(Failed), 2),
    (Call::Append(b"efg"), Err(Failed), 2),
    (Call::Sync, Ok(0), 4),
    (Call::Append(b"ef"), Ok(0), 4),
    (Call::Read(3), Ok(3), 4),
    (Call::Read(6), Ok(0), 4),
];

fn check_disk(rt: &impl Abort, disk: &mut MemDisk) {
    let mut buf = [0; 8];
    for (row, (call, wanted, safe)) in CALLS.iter().enumerate() {
        let answer = made(disk, *call, &mut buf);
        check(rt, row, &(answer, disk.synced()), &(*wanted, *safe));
    }
    check(rt, 0, &(buf, disk.faults()), &(*b"def\0\0\0\0\0", 2));
}

#[test]
fn disk_keeps_what_is_safe(rt: HostRuntime) -> Result<(), Fail> {
    let mut disk = MemDisk::new(rt.alloc(), 6, b"ab", &[3])?;
    check_disk(&rt, &mut disk);
    check(&rt, 1, &disk.content(), &b"abcdef".as_slice());
    Ok(())
}

// A call, what it should answer, and then how many bytes are safe, where the next append writes, how many calls have
// failed, and the content.
type Again = (Call, Result<u64, Failed>, u64, u64, u64, &'static [u8]);

// Calls of a disk with the six safe bytes "abcdef" and room for eight. A cut makes two calls: the first asks for the
// length. The first call and the thirteenth fail as listed, and the seventh because there is no room.
const AGAIN: [Again; 19] = [
    (Call::Rewind, Err(Failed), 6, 6, 1, b"abcdef"),
    (Call::Rewind, Ok(0), 6, 0, 1, b"abcdef"),
    (Call::Append(b"xy"), Ok(0), 0, 2, 1, b"xycdef"),
    (Call::Len, Ok(6), 0, 2, 1, b"xycdef"),
    (Call::Sync, Ok(0), 6, 2, 1, b"xycdef"),
    (Call::Append(b"z"), Ok(0), 2, 3, 1, b"xyzdef"),
    (Call::Append(b"123456"), Err(Failed), 2, 3, 2, b"xyzdef"),
    (Call::Append(b"12345"), Ok(0), 2, 8, 2, b"xyz12345"),
    (Call::Rewind, Ok(0), 2, 0, 2, b"xyz12345"),
    (Call::Append(b"ABCDEFGH"), Ok(0), 0, 8, 2, b"ABCDEFGH"),
    (Call::Cut(8), Ok(0), 0, 8, 2, b"ABCDEFGH"),
    (Call::Cut(6), Err(Failed), 0, 8, 3, b"ABCDEFGH"),
    (Call::Sync, Ok(0), 8, 8, 3, b"ABCDEFGH"),
    (Call::Cut(3), Ok(0), 3, 3, 3, b"ABC"),
    (Call::Append(b"z"), Ok(0), 3, 4, 3, b"ABCz"),
    (Call::Cut(0), Ok(0), 0, 0, 3, b""),
    (Call::Append(b"wv"), Ok(0), 0, 2, 3, b"wv"),
    (Call::Read(0), Ok(2), 0, 2, 3, b"wv"),
    (Call::Sync, Ok(0), 2, 2, 3, b"wv"),
];

fn check_again(rt: &impl Abort, disk: &mut MemDisk) {
    let mut buf = [0; 3];
    // All rows so far were as wanted.
    for (row, (call, wanted, safe, place, faults, content)) in AGAIN.iter().enumerate() {
        let answer = made(disk, *call, &mut buf);
        let found = (answer, disk.synced(), disk.place(), disk.faults());
        check(rt, row, &found, &(*wanted, *safe, *place, *faults));
        check(rt, row, &disk.content(), content);
    }
    check(rt, 0, &buf, b"wv\0");
}

#[test]
fn disk_is_written_again_and_cut(rt: HostRuntime) -> Result<(), Fail> {
    check_again(&rt, &mut MemDisk::new(rt.alloc(), 8, b"abcdef", &[1, 13])?);
    Ok(())
}

// Calls of all six kinds. They are numbered together, and the cut is the fifth and the sixth.
const KINDS: [Call; 6] = [
    Call::Rewind,
    Call::Append(b"xy"),
    Call::Len,
    Call::Read(1),
    Call::Cut(3),
    Call::Sync,
];

// The number of the call that fails, its kind (as an index into `KINDS`), and then the content, how much of it is
// safe, and where the next append writes.
const FAILED: [(u64, usize, &[u8], u64, u64); 7] = [
    (1, 0, b"abc", 3, 3),
    (2, 1, b"abc", 3, 3),
    (3, 2, b"xyc", 3, 3),
    (4, 3, b"xyc", 3, 3),
    (5, 4, b"xycd", 4, 2),
    (6, 4, b"xycd", 4, 2),
    (7, 5, b"xyc", 0, 3),
];

// Just the call of this kind fails.
fn check_kinds(rt: &impl Abort, disk: &mut MemDisk, failing: usize) {
    // Of the calls so far just the one that should fail has failed.
    for (row, call) in KINDS.iter().enumerate() {
        let failed = made(disk, *call, &mut [0; 2]).is_err();
        check(rt, row, &failed, &(row == failing));
    }
}

#[test]
fn disk_fails_at_each_kind_of_call(rt: HostRuntime) -> Result<(), Fail> {
    // All rows so far were as wanted.
    for (row, (call, failing, content, safe, place)) in FAILED.iter().enumerate() {
        let mut disk = MemDisk::new(rt.alloc(), 6, b"abcd", &[*call])?;
        check_kinds(&rt, &mut disk, *failing);
        check(&rt, row, &disk.content(), content);
        let found = (disk.synced(), disk.place(), disk.faults());
        check(&rt, row, &found, &(*safe, *place, 1));
    }
    Ok(())
}

const OVER: [Row; 2] = [(Call::Rewind, Ok(0)), (Call::Append(b"xy"), Ok(0))];

const OVER_AND_SYNCED: [Row; 3] = [
    (Call::Rewind, Ok(0)),
    (Call::Append(b"xy"), Ok(0)),
    (Call::Sync, Ok(0)),
];

const CUT: [Row; 2] = [(Call::Append(b"ef"), Ok(0)), (Call::Cut(5), Ok(0))];

const CUT_AND_SYNCED: [Row; 3] = [
    (Call::Append(b"ef"), Ok(0)),
    (Call::Cut(5), Ok(0)),
    (Call::Sync, Ok(0)),
];

const CUT_AND_ADDED: [Row; 2] = [(Call::Cut(2), Ok(0)), (Call::Append(b"z"), Ok(0))];

// Calls of a disk whose bytes "abcd" are safe, the length that a crash after them leaves, and what bytes it leaves:
// those of the content, or torn ones where they weren't safe. The first two bytes that the seed 2 draws are 0x8c and
// 0x21.
const LEFT: [(&[Row], u64, &[u8], &[u8]); 10] = [
    (&OVER, 0, b"", b""),
    (&OVER, 1, b"x", b"\x8c"),
    (&OVER, 2, b"xy", b"\x8c\x21"),
    (&OVER, 4, b"xycd", b"\x8c\x21\xff\x72"),
    (&OVER_AND_SYNCED, 4, b"xycd", b"xycd"),
    (&CUT, 4, b"abcd", b"abcd"),
    (&CUT, 5, b"abcde", b"abcd\x8c"),
    (&CUT_AND_SYNCED, 5, b"abcde", b"abcde"),
    (&CUT_AND_ADDED, 2, b"ab", b"ab"),
    (&CUT_AND_ADDED, 3, b"abz", b"ab\x8c"),
];

fn left(
    rt: &impl Abort,
    alloc: Global,
    calls: &[Row],
    len: u64,
    tears: bool,
) -> Result<MemDisk, NoMemory> {
    let mut disk = MemDisk::new(alloc, 6, b"abcd", &[])?;
    check_calls(rt, &mut disk, calls, &mut []);
    assert!(rt; disk.synced() <= len && len <= disk.content().len() as u64);
    if tears {
        Ok(disk.torn(len, 2))
    } else {
        Ok(disk.crashed(len))
    }
}

#[test]
fn crash_leaves_what_was_written_again_and_cut(rt: HostRuntime) -> Result<(), Fail> {
    // All rows so far were as wanted.
    for (row, (calls, len, crashed, torn)) in LEFT.iter().enumerate() {
        // All crashes so far left what was wanted.
        for (tears, wanted) in [(false, *crashed), (true, *torn)] {
            let left = left(&rt, rt.alloc(), calls, *len, tears)?;
            check(&rt, row, &left.content(), &wanted);
            check(&rt, row, &(left.synced(), left.place()), &(*len, *len));
        }
    }
    Ok(())
}

// What a crash leaves of a disk with four safe bytes and two others. The first of the two was changed.
fn crashed(rt: &impl Abort, alloc: Global) -> Result<MemDisk, NoMemory> {
    let mut disk = MemDisk::new(alloc, 6, b"abcd", &[])?;
    check(rt, 0, &disk.append(b"ef"), &Ok(()));
    assert!(rt; disk.content().len() == 6 && disk.synced() == 4);
    disk.set(4, b'x');
    Ok(disk.crashed(5))
}

#[test]
fn crash_leaves_what_it_may(rt: HostRuntime) -> Result<(), Fail> {
    let left = crashed(&rt, rt.alloc())?;
    check(&rt, 1, &(left.content(), left.synced()), &(b"abcdx", 5));
    Ok(())
}

// A disk with 48 safe bytes and 24 others.
fn partly_safe(rt: &impl Abort, alloc: Global) -> Result<MemDisk, NoMemory> {
    let mut disk = MemDisk::new(alloc, 72, &[b's'; 48], &[])?;
    check(rt, 0, &disk.append(&[b'n'; 24]), &Ok(()));
    Ok(disk)
}

// How many bytes are left, and the seed. Seeds that differ by 2^31 draw the same bytes.
const TORN: [(u64, u64); 4] = [(72, 2), (54, 2), (48, 2), (72, 2_147_483_650)];

// What seed 2 draws. The bytes were computed by another program.
const DRAWN: [u8; 24] = [
    0x8c, 0x21, 0xff, 0x72, 0xed, 0xd7, 0x18, 0xd9, 0x4e, 0x13, 0x95, 0x13, 0xdc, 0x1b, 0x63, 0xfc,
    0x93, 0x06, 0xf6, 0xbf, 0x9c, 0xe5, 0x06, 0xe0,
];

// All that is left is safe: first the bytes that were safe before, then those that were drawn.
fn check_torn(rt: &impl Abort, row: usize, left: &MemDisk, len: u64) {
    check(rt, row, &left.synced(), &len);
    let content = left.content();
    check(rt, row, &content.get(..48), &Some(&[b's'; 48]));
    let drawn = DRAWN.get(..len.saturating_sub(48) as usize);
    check(rt, row, &content.get(48..), &drawn);
}

#[test]
fn torn_writes_leave_drawn_bytes(rt: HostRuntime) -> Result<(), Fail> {
    // The disks of all rows so far were left as wanted.
    for (row, (len, seed)) in TORN.iter().enumerate() {
        let disk = partly_safe(&rt, rt.alloc())?;
        assert!(rt; disk.synced() <= *len && *len <= disk.content().len() as u64);
        check_torn(&rt, row, &disk.torn(*len, *seed), *len);
    }
    Ok(())
}

// A pause, the moment after it, and how much was paused so far.
const PAUSES: [(u64, u64, u64); 4] = [
    (0, 1000, 0),
    (500, 1500, 500),
    (u64::MAX, u64::MAX, u64::MAX),
    (1, u64::MAX, u64::MAX),
];

#[test]
fn clock_moves_by_pauses(rt: HostRuntime) {
    let mut clock = SteppedClock::new(1000);
    for (row, (micros, wanted, paused)) in PAUSES.iter().enumerate() {
        clock.pause(*micros);
        check(
            &rt,
            row,
            &(clock.now(), clock.paused()),
            &(*wanted, *paused),
        );
    }
}

#[test]
fn system_clock_goes_on(rt: HostRuntime) {
    let mut clock = RealClock::new(rt);
    let before = clock.now();
    clock.pause(1000);
    assert!(rt; clock.now() >= before);
}
