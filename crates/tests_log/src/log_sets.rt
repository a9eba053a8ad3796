//! Groups that are written to a set of two logs: what the set tells of them, what its disks hold and recover then, each
//! call of the disks failing in turn, and what crashes leave.

ghost use Rattle.std.specs.Prelude.{◌≡◌, ◌<◌, ◌≤◌, length, IfOk};

use crate::checks::check;
use crate::logs::{LOG, SECOND_AT, check_map};
use crate::several_logs::{CLEAN, NEXT, summary_of};
use crate::writing::{Answers, add_three, three_puts};
use base_devices::{Disk, MemDisk};
use log_recovery::{Mode, recover_many};
use log_writer::{Fault, LogSet, OpenError};
use std::alloc::Global;
use std::process::Abort;
use std::test::Fail;

/// The numbers of the calls that fail of each of two disks.
pub(crate) type Fails = (&'static [u64], &'static [u64]);

/// Two logs on empty disks, of which the first is full from 24 bytes on. The second disk was asked for its length once
/// before.
pub(crate) fn opened_set(alloc: Global, (first, second): Fails) -> Result<LogSet<MemDisk>, Fail> {
    let one = MemDisk::new(alloc, 24, b"", first)?;
    let mut two = MemDisk::new(alloc, 48, b"", second)?;
    let _ = two.len();
    let disks = vec![in alloc; one, two]?;
    Ok(LogSet::open(alloc, disks, 24).map_err(|(_, error)| error)?)
}

// What three groups are answered, and the set's length after them; and its fault.
type Told = (Answers, Option<u64>);

// Writes `put a 1`, `put b 2` and `put c 3` to such a set, each as a group of its own, none of which asks for a sync.
// Compares what the set tells then, and the lengths of the logs that have begun, and answers its disks.
fn written(
    rt: &impl Abort,
    alloc: Global,
    row: usize,
    fails: Fails,
    told: &Told,
    lens: &[u64],
) -> Result<Vec<MemDisk>, Fail> {
    let batches = three_puts(alloc)?;
    let mut set = opened_set(alloc, fails)?;
    let answers = add_three(&mut set, batches, [false; 3]);
    check(rt, row, &(answers, set.fault()), told);
    assert_eq!(rt; set.lens(), lens, "row {row}");
    Ok(set.into_disks())
}

const DONE: Result<(), Fault> = Ok(());

// What is told where no call fails.
const ALL_WRITTEN: Told = (([DONE; 3], 72), None);

const PAIRS: [(u32, &[u8], &[u8]); 3] = [(0, b"a", b"1"), (0, b"b", b"2"), (0, b"c", b"3")];

// The first log was synced before the second one was begun.
#[test]
fn writes_logs_one_after_another(rt: HostRuntime) -> Result<(), Fail> {
    let mut disks = written(&rt, rt.alloc(), 0, (&[], &[]), &ALL_WRITTEN, &[24, 48])?;
    assert!(rt; disks.len() == 2);
    let one = (disks[0].content(), disks[0].synced());
    check(&rt, 1, &one, &(&LOG[..SECOND_AT], 24));
    let two = (disks[1].content(), disks[1].synced());
    check(&rt, 2, &two, &(&NEXT, 0));
    let found = recover_many(rt.alloc(), &mut disks, Mode::Absolute)?;
    check(&rt, 3, &summary_of(&found), &(3, 3, 2, 48, 48, CLEAN));
    check_map(&rt, &found.map, &PAIRS);
    Ok(())
}

const FAULT: Result<(), Fault> = Err(Fault { count: 1 });

const SECOND: Result<(), Fault> = Err(Fault { count: 2 });

// The calls of the first disk are a look at the length, an append, and the sync before the second log is begun. Those
// of the second one are two looks at the length, and an append for each group. A fault has the count of both disks.
const STOPPED: [(Fails, Told, &[u64]); 5] = [
    ((&[2], &[]), (([FAULT; 3], 0), Some(1)), &[0]),
    ((&[3], &[]), (([DONE, FAULT, FAULT], 24), Some(1)), &[24]),
    ((&[3], &[1]), (([DONE, SECOND, SECOND], 24), Some(2)), &[24]),
    ((&[], &[3]), (([DONE, FAULT, FAULT], 24), Some(1)), &[24, 0]),
    (
        (&[], &[1, 4]),
        (([DONE, DONE, SECOND], 48), Some(2)),
        &[24, 24],
    ),
];

#[test]
fn a_fault_ends_the_set(rt: HostRuntime) -> Result<(), Fail> {
    // All rows so far were as wanted.
    for (row, (fails, told, lens)) in STOPPED.iter().enumerate() {
        let mut disks = written(&rt, rt.alloc(), row, *fails, told, lens)?;
        assert!(rt; disks.len() == 2);
        let found = recover_many(rt.alloc(), &mut disks, Mode::Point)?;
        let ((answers, _), _) = told;
        let done = answers.iter().filter(|answer| answer.is_ok()).count();
        check(&rt, row, &found.groups.len(), &done);
    }
    Ok(())
}

// Two disks that hold these bytes, where these calls fail.
fn two_disks(alloc: Global, contents: [&[u8]; 2], fails: Fails) -> Result<Vec<MemDisk>, Fail>
    ensures { IfOk result (λ disks. length disks.items ≡ 2) }
{
    let ([one, two], (first, second)) = (contents, fails);
    let one = MemDisk::new(alloc, one.len(), one, first)?;
    let two = MemDisk::new(alloc, two.len(), two, second)?;
    Ok(vec![in alloc; one, two]?)
}

// Why no set is opened on these disks, if none is, and how many calls of each have failed.
fn refused(alloc: Global, disks: Vec<MemDisk>) -> (Option<OpenError>, Vec<MemDisk>)
    requires some { 0 < length disks.items }
    requires few { length disks.items ≤ 16 }
{
    match LogSet::open(alloc, disks, 24) {
        Ok(set) => (None, set.into_disks()),
        Err((disks, error)) => (Some(error), disks),
    }
}

// What two disks hold, which of their calls fail, and why no set is opened on them. After the first that refuses no
// other one is asked.
const REFUSED: [([&[u8]; 2], Fails, OpenError); 4] = [
    ([b"", b""], (&[1], &[1]), OpenError::Fault { count: 1 }),
    ([b"", b""], (&[], &[1]), OpenError::Fault { count: 1 }),
    ([b"ab", b"c"], (&[], &[1]), OpenError::NotEmpty { len: 2 }),
    ([b"", b"c"], (&[], &[]), OpenError::NotEmpty { len: 1 }),
];

#[test]
fn opens_empty_disks(rt: HostRuntime) -> Result<(), Fail> {
    // All rows so far were as wanted.
    for (row, (contents, fails, wanted)) in REFUSED.iter().enumerate() {
        let (error, disks) = refused(rt.alloc(), two_disks(rt.alloc(), *contents, *fails)?);
        check(&rt, row, &(error, disks.len()), &(Some(*wanted), 2));
    }
    Ok(())
}

// The disks of three groups where a crash leaves so many bytes of the second log. The first one is safe.
fn crashed(rt: &impl Abort, alloc: Global, len: u64) -> Result<Vec<MemDisk>, Fail> {
    let mut disks = written(rt, alloc, 0, (&[], &[]), &ALL_WRITTEN, &[24, 48])?;
    let two = disks.pop().ok_or("no second disk")?;
    assert!(rt; two.synced() <= len && len <= two.content().len() as u64);
    disks.push(two.crashed(len))?;
    Ok(disks)
}

// Of the second log those records are recovered that a crash leaves whole.
#[test]
fn a_crash_leaves_a_front_of_both(rt: HostRuntime) -> Result<(), Fail> {
    for len in 0..49 {
        let mut disks = crashed(&rt, rt.alloc(), len)?;
        assert!(rt; disks.len() == 2);
        let found = recover_many(rt.alloc(), &mut disks, Mode::Tail)?;
        check(
            &rt,
            len as usize,
            &found.groups.len(),
            &(1 + (len / 24) as usize),
        );
    }
    Ok(())
}
