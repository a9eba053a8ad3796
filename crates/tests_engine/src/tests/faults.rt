//! Clients that write at once, while a call of the disk fails.

use super::{PLAIN, ended, script};
use crate::script::{Step, StepAnswer};
use base_devices::MemDisk;
use log_recovery::recover;
use model_base::{Refusal, WriteOptions};
use std::alloc::Global;
use std::process::Abort;
use std::rt;
use std::rt::HostRuntime;
use std::sync::Wait;
use std::thread::Threads;

/// A client writes two keys with a sync, and then without.
const STEPS: [Step; 2] = [
    Step::Write {
        rows: &[(b"a", b"1"), (b"b", b"1")],
        options: WriteOptions {
            sync: true,
            ..PLAIN
        },
    },
    Step::Write {
        rows: &[(b"a", b"2"), (b"b", b"2")],
        options: PLAIN,
    },
];

// Each commit was answered with its run or with the log's fault. A synced one that has a run is recovered.
fn check_told(rt: &impl Abort, told: &[StepAnswer], fault: Option<u64>, recovered: u64) {
    assert_eq!(rt; told.len(), 2);
    for (i, note) in told.iter().enumerate() {
        let is_lawful = match *note {
            StepAnswer::Wrote { run, .. } => {
                run.last == run.first.wrapping_add(1) && (i == 1 || run.first < recovered)
            }
            StepAnswer::Refused(Refusal::LogFault { count }) => fault == Some(count),
            _ => false,
        };
        assert!(rt; is_lawful, "{i}");
    }
}

// The safe bytes of a disk, on a disk of their own. Where there were few groups, the old disk's call that should fail
// may not have been made yet.
fn safe_part(rt: &impl Abort, alloc: Global, disk: MemDisk) -> MemDisk {
    let safe = disk.synced();
    assert!(rt; safe <= disk.content().len() as u64);
    let left = disk.crashed(safe);
    let content = left.content();
    MemDisk::new(alloc, content.len(), content, &[]).expect(rt, "memory")
}

fn check_fault<R: Threads + Wait + rt::Clock + Abort + Sync>(
    rt: &R,
    alloc: Global,
    fails: u64,
    pipelined: bool,
) {
    let mut scripts = Vec::with_capacity(alloc, 4).expect(rt, "memory");
    for _ in 0..4 {
        scripts
            .push(script(rt, alloc, &STEPS, 1))
            .expect(rt, "memory");
    }
    let ended = ended(rt, alloc, &[fails], 0, 1, pipelined, &scripts);
    let mut disk = safe_part(rt, alloc, ended.disk);
    let Ok(found) = recover(alloc, &mut disk, None) else {
        panic!(rt; "not recovered")
    };
    for told in &ended.notes {
        check_told(rt, told, ended.fault, found.last);
    }
}

// Four clients write at once, first with a sync and then without, and a call of the disk fails.
#[test]
fn a_disk_call_fails_under_four(rt: HostRuntime) {
    for fails in 2..14u64 {
        check_fault(&rt, rt.alloc(), fails, false);
        check_fault(&rt, rt.alloc(), fails, true);
    }
}
