//! Appends that are held, and those that aren't.

use crate::calls::{Call, Row, check_calls};
use crate::checks::check;
use base_devices::{Disk, Failed, MemDisk};
use std::process::Abort;
use std::rt;
use std::sync::Wait;
use std::test::Fail;
use std::thread::{self, Threads};
use tests_held_disk::{AppendHold, HeldDisk};

/// Appends through the trait, as the code above the disk does.
fn append_all<D: Disk>(disk: &mut D, pieces: &[&[u8]]) -> Result<(), Failed> {
    for piece in pieces {
        disk.append(piece)?;
    }
    Ok(())
}

/// Arrives once the held append was begun, and answers whether the hold was open before.
fn arrive_after<R: Wait + rt::Clock>(rt: &R, hold: &AppendHold) -> bool {
    for _ in rt.forever() {
        if hold.is_entered() {
            break;
        }
        thread::yield_now();
    }
    let was_open = hold.is_open();
    hold.arrive();
    was_open
}

/// Appends twice, while another thread arrives. Answers what the appends answered, whether the hold was open before
/// the other thread arrived, and whether it is open after that.
fn append_held<R: Threads + Wait + rt::Clock + Sync>(
    rt: &R,
    disk: &mut HeldDisk<'_>,
    hold: &AppendHold,
) -> (Result<(), Failed>, bool, bool) {
    let (done, was_open) = thread::join(
        rt,
        || append_all(disk, &[b"b", b"c"]),
        || arrive_after(rt, hold),
    );
    (done, was_open, hold.is_open())
}

/// Appends pieces, and answers what the appends answered, how long the content is then, and what its sync answered.
fn append_ahead<D: Disk>(
    disk: &mut D,
    pieces: &[&[u8]],
) -> (Result<(), Failed>, Result<u64, Failed>, Result<(), Failed>) {
    (append_all(disk, pieces), disk.len(), disk.sync())
}

/// What is read at a place of a disk, how many bytes that is, and how many calls have failed.
fn read_at<D: Disk>(disk: &mut D, at: u64) -> ([u8; 8], Result<usize, Failed>, u64) {
    let mut buf = [0; 8];
    let read = disk.read(at, &mut buf);
    (buf, read, disk.faults())
}

/// Appends the pieces `before` to the disk and syncs it, so that all its `safe` bytes are safe. Then two more bytes
/// are appended, and the first of these appends is held.
fn check_held<R: Threads + Wait + rt::Clock + Abort + Sync>(
    rt: &R,
    inner: MemDisk,
    at: u64,
    before: &[&[u8]],
    safe: u64,
) -> MemDisk {
    let hold = AppendHold::new(1);
    let mut disk = HeldDisk::new(inner, &hold, at);
    let ahead = append_ahead(&mut disk, before);
    check(rt, 0, &ahead, &(Ok(()), Ok(safe), Ok(())));
    assert!(rt; !hold.is_entered() && !hold.is_open());
    let held = append_held(rt, &mut disk, &hold);
    check(rt, 1, &held, &(Ok(()), false, true));
    let read = read_at(&mut disk, safe.saturating_sub(1));
    check(rt, 2, &read, &(*b"abc\0\0\0\0\0", Ok(3), 0));
    disk.into_disk()
}

#[test]
fn an_append_waits_for_another_thread(rt: HostRuntime) -> Result<(), Fail> {
    let inner = MemDisk::new(rt.alloc(), 10, b"a", &[])?;
    let inner = check_held(&rt, inner, 1, &[], 1);
    check(&rt, 3, &(inner.content(), inner.synced()), &(b"abc", 1));
    Ok(())
}

#[test]
fn appends_before_and_after_are_not_held(rt: HostRuntime) -> Result<(), Fail> {
    let inner = MemDisk::new(rt.alloc(), 10, b"", &[])?;
    let inner = check_held(&rt, inner, 3, &[b"x", b"a"], 2);
    check(&rt, 3, &(inner.content(), inner.synced()), &(b"xabc", 2));
    Ok(())
}

/// How many have to arrive, which append is held, and whether it is begun.
const NOT_HELD: [(u64, u64, bool); 5] = [
    (0, 1, true),
    (0, 2, true),
    (0, 3, false),
    (1, 0, false),
    (1, 3, false),
];

/// What two appends answer, where the second one finds no room, whether the held one was begun, how many faults the
/// disk counts, and the disk.
fn append_two(
    inner: MemDisk,
    hold: &AppendHold,
    at: u64,
) -> ((Result<(), Failed>, bool, u64), MemDisk) {
    let mut disk = HeldDisk::new(inner, hold, at);
    let done = append_all(&mut disk, &[b"a", b"b"]);
    let seen = (done, hold.is_entered(), disk.faults());
    (seen, disk.into_disk())
}

#[test]
fn nobody_is_needed_or_no_append_is_held(rt: HostRuntime) -> Result<(), Fail> {
    for (row, (need, at, entered)) in NOT_HELD.iter().enumerate() {
        let inner = MemDisk::new(rt.alloc(), 1, b"", &[])?;
        let (seen, inner) = append_two(inner, &AppendHold::new(*need), *at);
        check(&rt, row, &seen, &(Err(Failed), *entered, 1));
        check(&rt, row, &inner.content(), &b"a".as_slice());
    }
    Ok(())
}

#[test]
fn an_append_over_old_bytes_waits_too(rt: HostRuntime) -> Result<(), Fail> {
    let hold = AppendHold::new(1);
    let inner = MemDisk::new(rt.alloc(), 4, b"wxyz", &[])?;
    let mut disk = HeldDisk::new(inner, &hold, 1);
    check(&rt, 0, &disk.rewind(), &Ok(()));
    let held = append_held(&rt, &mut disk, &hold);
    check(&rt, 1, &held, &(Ok(()), false, true));
    let inner = disk.into_disk();
    check(&rt, 2, &inner.content(), &b"bcyz".as_slice());
    check(&rt, 3, &(inner.synced(), inner.place()), &(0, 2));
    Ok(())
}

/// Calls of a disk that holds "abcd" at first. The seventh and the ninth call fail. A cut makes two calls.
const HANDED_ON: [Row; 9] = [
    (Call::Rewind, Ok(0)),
    (Call::Append(b"x"), Ok(0)),
    (Call::Cut(2), Ok(0)),
    (Call::Append(b"yz"), Ok(0)),
    (Call::Len, Ok(4)),
    (Call::Rewind, Err(Failed)),
    (Call::Cut(3), Err(Failed)),
    (Call::Sync, Ok(0)),
    (Call::Append(b"w"), Ok(0)),
];

#[test]
fn rewinds_and_cuts_are_handed_on(rt: HostRuntime) -> Result<(), Fail> {
    let hold = AppendHold::new(0);
    let inner = MemDisk::new(rt.alloc(), 5, b"abcd", &[7, 9])?;
    let mut disk = HeldDisk::new(inner, &hold, 2);
    check_calls(&rt, &mut disk, &HANDED_ON, &mut []);
    check(&rt, 0, &disk.faults(), &2);
    let inner = disk.into_disk();
    check(&rt, 1, &inner.content(), &b"xbyzw".as_slice());
    check(&rt, 2, &(inner.synced(), inner.place()), &(4, 5));
    Ok(())
}
