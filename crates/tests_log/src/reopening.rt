//! Logs that are written over old bytes, and logs that go on after what was recovered: their bytes and what they
//! recover, each call of the disk failing in turn, and what crashes leave.

ghost use Rattle.std.specs.Prelude.{◌<◌, ◌^◌};

use crate::changes::cut_at;
use crate::checks::check;
use crate::logs::{LOG, recovered_as};
use crate::numbered_logs::{LOG_7, OF_LOG_7, OF_WRITTEN_OVER, check_rows, written_over};
use crate::writing::{add, put, put_zeros};
use base_devices::{Disk, MemDisk};
use log_batch::Batch;
use log_recovery::{RecoverError, recover};
use log_writer::{Fault, LogWriter, OpenError};
use model_base::EndReason;
use std::alloc::Global;
use std::process::Abort;
use std::test::Fail;

/// A log with this number, written over what the disk has.
pub(crate) fn reused(
    alloc: Global,
    disk: MemDisk,
    number: u32,
) -> Result<LogWriter<MemDisk>, Fail> {
    Ok(LogWriter::reuse(alloc, disk, number).map_err(|(_, error)| error)?)
}

// A log that was begun, or the disk and why the log wasn't begun.
type Begun = Result<LogWriter<MemDisk>, (MemDisk, OpenError)>;

// Recovers a log, and resumes it after what is kept of it.
fn resumed(alloc: Global, mut disk: MemDisk, number: Option<u32>) -> Result<Begun, RecoverError> {
    let kept = recover(alloc, &mut disk, number)?.kept;
    Ok(LogWriter::resume(alloc, disk, kept, number))
}

// Resumes a log that has this number, if it has one, after what is recovered.
fn gone_on(alloc: Global, disk: MemDisk, number: Option<u32>) -> Result<LogWriter<MemDisk>, Fail> {
    Ok(resumed(alloc, disk, number)?.map_err(|(_, error)| error)?)
}

// Adds a batch as a group of its own, syncs it, and ends the log. Answers the disk, where the log ended before, what
// the call answered, and where the log ends now.
fn added(
    mut log: LogWriter<MemDisk>,
    first: u64,
    batch: Batch,
) -> (MemDisk, (u64, Result<(), Fault>, u64))
    requires { first < 2 ^ 32 }
{
    let before = log.len();
    let answer = add(&mut log, first, batch, true);
    let len = log.len();
    (log.into_disk(), (before, answer, len))
}

// The disk of log 7, which is written over an empty disk.
fn log_7(rt: &impl Abort, alloc: Global) -> Result<MemDisk, Fail> {
    let (one, two) = (put(alloc, b"a", b"1")?, put(alloc, b"b", b"2")?);
    let mut log = reused(alloc, MemDisk::new(alloc, 56, b"", &[])?, 7)?;
    let answers = (add(&mut log, 1, one, true), add(&mut log, 2, two, true));
    check(rt, 0, &answers, &(Ok(()), Ok(())));
    check(rt, 1, &(log.len(), log.number()), &(56, Some(7)));
    Ok(log.into_disk())
}

#[test]
fn writes_over_old_bytes(rt: HostRuntime) -> Result<(), Fail> {
    let disk = log_7(&rt, rt.alloc())?;
    check(&rt, 2, &disk.content(), &LOG_7.as_slice());
    let batch = put(rt.alloc(), b"c", b"3")?;
    let (disk, answer) = added(reused(rt.alloc(), disk, 8)?, 1, batch);
    check(&rt, 3, &answer, &(0, Ok(()), 28));
    let wanted = written_over(rt.alloc())?;
    check(&rt, 4, &disk.content(), &wanted.as_slice());
    check_rows(&rt, rt.alloc(), disk.content(), &OF_WRITTEN_OVER);
    Ok(())
}

// The disk of log 7, over which log 8 is begun, and why it isn't begun where this call of the disk fails.
fn begun_over(alloc: Global, call: u64) -> Result<(MemDisk, Option<OpenError>), Fail> {
    let disk = MemDisk::new(alloc, 56, &LOG_7, &[call])?;
    match LogWriter::reuse(alloc, disk, 8) {
        Ok(log) => Ok((log.into_disk(), None)),
        Err((disk, error)) => Ok((disk, Some(error))),
    }
}

// Which call of the disk fails, why the log isn't begun then, and the place of the disk.
const OVER: [(u64, Option<OpenError>, u64); 2] = [
    (1, Some(OpenError::Fault { count: 1 }), 56),
    (2, None, 0),
];

// Before the first append all old bytes are still there, also after a crash.
#[test]
fn begins_over_old_bytes(rt: HostRuntime) -> Result<(), Fail> {
    // All rows so far were as wanted.
    for (row, (call, wanted, place)) in OVER.iter().enumerate() {
        let (disk, error) = begun_over(rt.alloc(), *call)?;
        check(&rt, row, &(error, disk.place()), &(*wanted, *place));
        assert!(rt; disk.synced() == 56 && disk.content().len() == 56);
        check_rows(&rt, rt.alloc(), disk.crashed(56).content(), &OF_LOG_7);
    }
    Ok(())
}

// The disk of log 8, of one record that isn't synced, over log 7.
fn overwritten(rt: &impl Abort, alloc: Global) -> Result<MemDisk, Fail> {
    let batch = put(alloc, b"c", b"3")?;
    let mut log = reused(alloc, MemDisk::new(alloc, 56, &LOG_7, &[])?, 8)?;
    check(rt, 0, &add(&mut log, 1, batch, false), &Ok(()));
    Ok(log.into_disk())
}

// How many bytes a crash leaves, and how many records of log 8 are recovered then.
const OVERWRITTEN: [(u64, usize); 4] = [(0, 0), (27, 0), (28, 1), (56, 1)];

// Old records aren't safe any more once an append goes over the first of them.
#[test]
fn gives_up_old_bytes_as_it_writes(rt: HostRuntime) -> Result<(), Fail> {
    // All rows so far were as wanted.
    for (row, (len, wanted)) in OVERWRITTEN.iter().enumerate() {
        let disk = overwritten(&rt, rt.alloc())?;
        assert!(rt; disk.synced() == 0 && *len <= disk.content().len() as u64);
        let left = disk.crashed(*len);
        let found = recovered_as(Some(8), rt.alloc(), left.content())?;
        check(&rt, row, &found.0, wanted);
    }
    Ok(())
}

// What is resumed: a log's number, if it has one, a log that is cut, its length then, how many of these bytes are
// kept, a log, and a place of it. After `put b 2` is added the disk has the bytes of this last log from that place on.
type Going = (Option<u32>, &'static [u8], usize, u64, &'static [u8], usize);

// The last two rows keep nothing of the disk.
const GOING: [Going; 6] = [
    (None, &LOG, 40, 24, &LOG, 0),
    (None, &LOG, 24, 24, &LOG, 0),
    (Some(7), &LOG_7, 40, 28, &LOG_7, 0),
    (Some(7), &LOG_7, 28, 28, &LOG_7, 0),
    (Some(7), &LOG, 48, 0, &LOG_7, 28),
    (None, b"abc", 3, 0, &LOG, 24),
];

#[test]
fn goes_on_behind_what_is_kept(rt: HostRuntime) -> Result<(), Fail> {
    // All rows so far were as wanted.
    for (row, (number, before, cut, kept, after, from)) in GOING.iter().enumerate() {
        let content = cut_at(before, *cut)?;
        let disk = MemDisk::new(rt.alloc(), content.len().max(56), content, &[])?;
        let batch = put(rt.alloc(), b"b", b"2")?;
        let (disk, answer) = added(gone_on(rt.alloc(), disk, *number)?, 2, batch);
        let wanted = after.get(*from..).unwrap_or(b"");
        check(&rt, row, &answer, &(*kept, Ok(()), wanted.len() as u64));
        check(&rt, row, &disk.content(), &wanted);
        let (_, last, _, end, why) = recovered_as(*number, rt.alloc(), disk.content())?;
        check(
            &rt,
            row,
            &(last, end, why),
            &(2, wanted.len() as u64, EndReason::Clean),
        );
    }
    Ok(())
}

// A log's number, if it has one, how many zeros its first record puts, where that record ends, and where a record of
// 17 bytes after it ends.
const BEHIND: [(Option<u32>, usize, u64, u64); 7] = [
    (None, 40_000, 40_032, 40_056),
    (None, 32_736, 32_761, 32_792),
    (None, 32_740, 32_765, 32_792),
    (None, 32_743, 32_768, 32_792),
    (Some(7), 40_000, 40_040, 40_068),
    (Some(7), 32_736, 32_765, 32_796),
    (Some(7), 32_739, 32_768, 32_796),
];

// The disk of a log of one record that puts `zeros` zeros, with two more zeros after it.
fn large_log(alloc: Global, number: Option<u32>, zeros: usize) -> Result<MemDisk, Fail> {
    let batch = put_zeros(alloc, zeros)?;
    let disk = MemDisk::new(alloc, 40_068, b"", &[])?;
    let (mut disk, _) = added(gone_on(alloc, disk, number)?, 1, batch);
    disk.append(&[0; 2])?;
    Ok(disk)
}

// The first record ends in the middle of a block, or where the block has room for no more than a header, or for less,
// or at the end of the block.
#[test]
fn goes_on_at_the_end_of_a_block(rt: HostRuntime) -> Result<(), Fail> {
    // All rows so far were as wanted.
    for (row, (number, zeros, kept, end)) in BEHIND.iter().enumerate() {
        let disk = large_log(rt.alloc(), *number, *zeros)?;
        let batch = put(rt.alloc(), b"b", b"2")?;
        let (disk, answer) = added(gone_on(rt.alloc(), disk, *number)?, 2, batch);
        check(&rt, row, &answer, &(*kept, Ok(()), *end));
        let found = recovered_as(*number, rt.alloc(), disk.content())?;
        check(&rt, row, &found, &(2, 2, *end, *end, EndReason::Clean));
    }
    Ok(())
}

// A disk with the first `len` bytes of `LOG`, of which the first `safe` are safe. Its first call adds the others. The
// call with the number `call` fails.
fn partly_safe(alloc: Global, safe: usize, len: usize, call: u64) -> Result<MemDisk, Fail> {
    let content = cut_at(&LOG, safe)?;
    let mut disk = MemDisk::new(alloc, content.len().max(48), content, &[call])?;
    disk.append(cut_at(&LOG, len)?.get(safe..).unwrap_or(b""))?;
    Ok(disk)
}

// The disk on which a log should be resumed, and why it isn't.
fn begun_behind(alloc: Global, disk: MemDisk) -> Result<(MemDisk, Option<OpenError>), Fail> {
    match resumed(alloc, disk, None)? {
        Ok(log) => Ok((log.into_disk(), None)),
        Err((disk, error)) => Ok((disk, Some(error))),
    }
}

// How many bytes are safe, how many there are, and which call fails: the fourth is the cut, and the fifth the sync.
// Then why the log isn't resumed, how long the content is, and how many bytes of it are safe. What isn't kept is cut
// off.
type Cutting = (usize, usize, u64, Option<OpenError>, usize, u64);

const FAULT: Option<OpenError> = Some(OpenError::Fault { count: 1 });

const CUTTING: [Cutting; 9] = [
    (40, 40, 4, FAULT, 40, 40),
    (40, 40, 5, FAULT, 24, 24),
    (40, 40, 6, None, 24, 24),
    (0, 40, 4, FAULT, 40, 0),
    (0, 40, 5, FAULT, 24, 0),
    (0, 40, 6, None, 24, 24),
    (24, 48, 4, FAULT, 48, 24),
    (24, 48, 5, FAULT, 48, 24),
    (24, 48, 6, None, 48, 48),
];

// The disk's place is always the content's end. A crash then leaves just what is safe, or torn bytes after it: either
// way all records that were safe are recovered.
fn check_cutting(
    rt: &impl Abort,
    alloc: Global,
    row: usize,
    cutting: &Cutting,
    tears: bool,
) -> Result<(), Fail> {
    let (safe, len, call, wanted, left, kept) = *cutting;
    let (disk, error) = begun_behind(alloc, partly_safe(alloc, safe, len, call)?)?;
    let found = (error, disk.content(), disk.synced(), disk.place());
    check(
        rt,
        row,
        &found,
        &(wanted, cut_at(&LOG, left)?, kept, left as u64),
    );
    let len = disk.content().len() as u64;
    assert!(rt; disk.synced() <= kept && kept <= len);
    let image = if tears {
        disk.torn(len, 2)
    } else {
        disk.crashed(kept)
    };
    let found = recovered_as(None, alloc, image.content())?;
    check(rt, row, &found.0, &((kept / 24) as usize));
    Ok(())
}

#[test]
fn keeps_what_is_safe_where_it_goes_on(rt: HostRuntime) -> Result<(), Fail> {
    // All rows so far were as wanted.
    for (row, cutting) in CUTTING.iter().enumerate() {
        check_cutting(&rt, rt.alloc(), row, cutting, false)?;
        check_cutting(&rt, rt.alloc(), row, cutting, true)?;
    }
    Ok(())
}
