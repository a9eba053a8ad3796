//! Groups on a disk in memory: the bytes of a small group and the sizes of large ones, each call of the disk failing
//! in turn, and what crashes leave.

ghost use Rattle.std.specs.Prelude.{◌<◌, ◌^◌};

use crate::checks::check;
use crate::logs::{Summary, recovered};
use base_devices::MemDisk;
use log_batch::Batch;
use log_writer::{Fault, GroupLog, LogWriter, OpenError};
use model_base::{Damage, EndReason};
use std::alloc::Global;
use std::process::Abort;
use std::test::Fail;

/// The log of `put a 1` and `put b 2` as one group from sequence 1 on. The checksum was computed by another program.
pub(crate) const GROUP: [u8; 29] = [
    0x40, 0x41, 0x89, 0x60, 0x16, 0x00, 0x01, // the fragment's header
    0x01, 0x00, 0x00, 0x00, 0x00, 0x00, 0x00, 0x00, // sequence 1
    0x02, 0x00, 0x00, 0x00, // count 2
    0x01, 0x01, b'a', 0x01, b'1', // put a 1
    0x01, 0x01, b'b', 0x01, b'2', // put b 2
];

/// A batch that puts this value at this key.
pub(crate) fn put(alloc: Global, key: &[u8], value: &[u8]) -> Result<Batch, Fail> {
    let mut batch = Batch::new(alloc)?;
    batch.put(key, value)?;
    Ok(batch)
}

/// A batch that puts `len` zeros at a key. Its record has 16 bytes more, or 17 where `len` is at least 128, or 18
/// where it is at least 16384.
pub(crate) fn put_zeros(alloc: Global, len: usize) -> Result<Batch, Fail> {
    let value = vec![in alloc; 0u8; len]?;
    put(alloc, b"k", &value)
}

/// Batches that put these numbers of zeros.
pub(crate) fn three_batches(alloc: Global, zeros: [usize; 3]) -> Result<[Batch; 3], Fail> {
    let [one, two, three] = zeros;
    Ok([
        put_zeros(alloc, one)?,
        put_zeros(alloc, two)?,
        put_zeros(alloc, three)?,
    ])
}

/// The batches `put a 1`, `put b 2` and `put c 3`. Each has a record of 24 bytes.
pub(crate) fn three_puts(alloc: Global) -> Result<[Batch; 3], Fail> {
    Ok([
        put(alloc, b"a", b"1")?,
        put(alloc, b"b", b"2")?,
        put(alloc, b"c", b"3")?,
    ])
}

/// A log on an empty disk that has room for `capacity` bytes.
pub(crate) fn opened(
    alloc: Global,
    capacity: usize,
    fails: &[u64],
) -> Result<LogWriter<MemDisk>, Fail> {
    let disk = MemDisk::new(alloc, capacity, b"", fails)?;
    Ok(LogWriter::open(alloc, disk).map_err(|(_, error)| error)?)
}

/// Adds a batch as a group of its own.
pub(crate) fn add<Log: GroupLog>(
    log: &mut Log,
    first: u64,
    batch: Batch,
    sync: bool,
) -> Result<(), Fault>
    requires { first < 2 ^ 32 }
{
    let _ = (batch.count(), batch.size());
    log.add_group(first, &[batch], sync)
}

/// What the calls of three groups answered, and the log's length after them.
pub(crate) type Answers = ([Result<(), Fault>; 3], u64);

/// Writes each of the batches as a group of its own, and syncs where that is asked.
pub(crate) fn add_three<Log: GroupLog>(
    log: &mut Log,
    batches: [Batch; 3],
    syncs: [bool; 3],
) -> Answers {
    let [one, two, three] = batches;
    let answers = [
        add(log, 1, one, syncs[0]),
        add(log, 2, two, syncs[1]),
        add(log, 3, three, syncs[2]),
    ];
    (answers, log.len())
}

// Adds two batches, each of one small put, as one group, and syncs it.
fn add_two(
    rt: &impl Abort,
    log: &mut LogWriter<MemDisk>,
    one: Batch,
    two: Batch,
) -> Result<(), Fault> {
    assert!(rt; one.count() == 1 && two.count() == 1);
    assert!(rt; one.size() == 17 && two.size() == 17);
    log.add_group(1, &[one, two], true)
}

// The disk of a group of two batches, what the call answered, the log's length, and its fault.
type Written = (MemDisk, (Result<(), Fault>, u64, Option<u64>));

fn small_group(rt: &impl Abort, alloc: Global) -> Result<Written, Fail> {
    let one = put(alloc, b"a", b"1")?;
    let two = put(alloc, b"b", b"2")?;
    let mut log = opened(alloc, 29, &[])?;
    let answer = (add_two(rt, &mut log, one, two), log.len(), log.fault());
    Ok((log.into_disk(), answer))
}

#[test]
fn writes_a_group(rt: HostRuntime) -> Result<(), Fail> {
    let (disk, answer) = small_group(&rt, rt.alloc())?;
    check(&rt, 0, &answer, &(Ok(()), 29, None));
    check(&rt, 1, &(disk.content(), disk.synced()), &(&GROUP, 29));
    Ok(())
}

// Why a log wasn't opened on this disk, and the disk.
fn refused(alloc: Global, disk: MemDisk) -> (Option<OpenError>, MemDisk) {
    match LogWriter::open(alloc, disk) {
        Ok(log) => (None, log.into_disk()),
        Err((disk, error)) => (Some(error), disk),
    }
}

// The disk's first call fails, or its second one, which isn't made.
#[test]
fn opens_an_empty_disk(rt: HostRuntime) -> Result<(), Fail> {
    for (call, want) in [
        (1, OpenError::Fault { count: 1 }),
        (2, OpenError::NotEmpty { len: 2 }),
    ] {
        let disk = MemDisk::new(rt.alloc(), 2, b"ab", &[call])?;
        let (error, disk) = refused(rt.alloc(), disk);
        check(&rt, 0, &(error, disk.content()), &(Some(want), b"ab"));
    }
    Ok(())
}

// What the groups are answered where this call of the disk fails. The calls are a look at the length, an append and a
// sync, then an append for each of three blocks and a sync, and then the zeros that end the third block, an append and
// a sync.
fn answers_at(call: u64) -> Answers {
    let done = Ok(());
    let fault = Err(Fault { count: 1 });
    match call {
        2 | 3 => ([fault; 3], 0),
        4..=7 => ([done, fault, fault], 1007),
        8..=10 => ([done, done, fault], 98_298),
        _ => ([done; 3], 106_311),
    }
}

// The disk and the answers where this call of the disk fails. The records have 1000, 97270 and 8000 bytes.
fn large_groups(alloc: Global, call: u64) -> Result<(MemDisk, Answers), Fail> {
    let batches = three_batches(alloc, [983, 97252, 7983])?;
    let mut log = opened(alloc, 106_311, &[call])?;
    let answers = add_three(&mut log, batches, [true; 3]);
    Ok((log.into_disk(), answers))
}

// A failed call may leave bytes on the disk after the log's end.
#[test]
fn ends_at_the_first_fault(rt: HostRuntime) -> Result<(), Fail> {
    for call in 2..12 {
        let (disk, answers) = large_groups(rt.alloc(), call)?;
        check(&rt, call as usize, &answers, &answers_at(call));
        assert!(rt; disk.content().len() as u64 >= answers.1);
    }
    Ok(())
}

// The disk of three records, each of 24 bytes. The first is safe.
fn small_groups(rt: &impl Abort, alloc: Global) -> Result<MemDisk, Fail> {
    let batches = three_batches(alloc, [1, 1, 1])?;
    let mut log = opened(alloc, 72, &[])?;
    let answers = add_three(&mut log, batches, [true, false, false]);
    check(rt, 0, &answers, &([Ok(()); 3], 72));
    Ok(log.into_disk())
}

// Of the other two records those are recovered that a crash leaves whole.
#[test]
fn a_crash_leaves_a_prefix(rt: HostRuntime) -> Result<(), Fail> {
    for len in 24..73 {
        let disk = small_groups(&rt, rt.alloc())?;
        assert!(rt; disk.synced() == 24 && disk.content().len() == 72);
        let left = disk.crashed(len);
        let (groups, ..) = recovered(rt.alloc(), left.content())?;
        check(&rt, 1, &groups, &((len / 24) as usize));
    }
    Ok(())
}

// The disk of `put a 1`, `put b 2` and `put c 3`, each in a record of its own. The second was synced.
fn two_safe_groups(rt: &impl Abort, alloc: Global) -> Result<MemDisk, Fail> {
    let batches = three_puts(alloc)?;
    let mut log = opened(alloc, 72, &[])?;
    let answers = add_three(&mut log, batches, [false, true, false]);
    check(rt, 0, &answers, &([Ok(()); 3], 72));
    Ok(log.into_disk())
}

// How many bytes are left by a crash that tears what wasn't safe, with the seed 2, and what is recovered.
const TORN: [(u64, Summary); 3] = [
    (48, (2, 2, 48, 48, EndReason::Clean)),
    (54, (2, 2, 48, 48, EndReason::Broken(Damage::ShortHeader))),
    (72, (2, 2, 48, 48, EndReason::Broken(Damage::BadLength))),
];

#[test]
fn torn_writes_leave_what_was_safe(rt: HostRuntime) -> Result<(), Fail> {
    // All rows so far were recovered as wanted.
    for (row, (len, wanted)) in TORN.iter().enumerate() {
        let disk = two_safe_groups(&rt, rt.alloc())?;
        assert!(rt; disk.synced() == 48 && disk.content().len() == 72 && (48..73).contains(len));
        let left = disk.torn(*len, 2);
        let found = recovered(rt.alloc(), left.content())?;
        check(&rt, row, &found, wanted);
    }
    Ok(())
}
