//! A client that follows the log: it asks again and again for what is new.
//!
//! How much is read shows in how many calls of the disk are made: one call more than should be made would fail.

use super::{PUT_A, ended, script};
use crate::script::{Step, StepAnswer};
use std::alloc::Global;
use std::process::Abort;
use std::rt;
use std::rt::HostRuntime;
use std::sync::Wait;
use std::thread::Threads;

/// So many records are written first: they are in two blocks of the log.
const BEFORE: u64 = 1400;

/// And after these so many more.
const MORE: u64 = 10;

/// The calls of the disk are a look at its length, an append for each record and a second one for the record that is in
/// both blocks, a read of each of the two blocks, a read of the second one for each of nine more records, and one for
/// what is newer.
const CALLS: u64 = 1 + BEFORE + MORE + 1 + 2 + 9 + 1;

// A client asks for what is new after each of the last records that it writes, then for what is newer still, and then
// for all.
fn steps(rt: &impl Abort, alloc: Global) -> Vec<Step> {
    let mut steps = script(rt, alloc, &[PUT_A], BEFORE as usize);
    let mut since = BEFORE;
    for _ in 0..MORE {
        since = since.wrapping_add(1);
        steps
            .extend_from_slice(&[PUT_A, Step::Updates { since }])
            .expect(rt, "memory");
    }
    let newer = Step::Updates {
        since: since.wrapping_add(1),
    };
    steps
        .extend_from_slice(&[newer, Step::Updates { since: 1 }])
        .expect(rt, "memory");
    steps
}

// Each new record is given once, and then there is none. To read all from the start again takes a call that fails.
fn check(rt: &impl Abort, told: &[StepAnswer]) {
    let mut gave = 0u64;
    let mut failed = 0u64;
    for note in told {
        match *note {
            StepAnswer::Wrote { run, .. } => assert_eq!(rt; run.first, run.last),
            StepAnswer::Gave { at, records } => {
                gave = gave.wrapping_add(1);
                let is_new = at == BEFORE.wrapping_add(gave) && records == 1;
                let is_end = gave > MORE && at == BEFORE + MORE && records == 0;
                assert!(rt; is_new || is_end, "{gave}");
            }
            StepAnswer::NotRead { count } => failed = failed.wrapping_add(count),
            _ => panic!(rt; "another answer"),
        }
    }
    assert_eq!(rt; (gave, failed), (MORE + 1, 1));
}

fn follow<R: Threads + Wait + rt::Clock + Abort + Sync>(rt: &R, alloc: Global, pipelined: bool) {
    let scripts = vec![in alloc; steps(rt, alloc)].expect(rt, "memory");
    let ended = ended(rt, alloc, &[CALLS + 1], 0, 1, pipelined, &scripts);
    check(rt, ended.notes.first().expect(rt, "notes"));
    assert_eq!(rt; (ended.last, ended.fault), (BEFORE + MORE, None));
}

#[test]
fn a_follower_reads_what_is_new(rt: HostRuntime) {
    let alloc = rt.alloc();
    follow(&rt, alloc, false);
    follow(&rt, alloc, true);
}
