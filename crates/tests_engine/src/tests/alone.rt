//! One client on its own, which writes one record. The clock is at 1000.

use super::{HASTY_PUT, PLAIN, PUT_A, PUT_B, READ_A, READ_B, ended, script};
use crate::script::{Step, StepAnswer};
use log_batch::{MAX_SEQUENCE, Run};
use log_recovery::recover;
use model_base::Refusal;
use std::alloc::Global;
use std::process::Abort;
use std::rt;
use std::rt::HostRuntime;
use std::sync::Wait;
use std::thread::Threads;

const AGAIN: Step = Step::Again { options: PLAIN };

const PUT_BOTH: Step = Step::Write {
    rows: &[(b"a", b"1"), (b"b", b"2")],
    options: PLAIN,
};

/// The first sequence of all.
const FIRST: StepAnswer = StepAnswer::Wrote {
    run: Run { first: 1, last: 1 },
    group_last: 1,
    sequence: 1,
};

/// The sequence 1 and the count 1, as the bytes of a batch begin with them.
const AT_FIRST: &[u8] = b"\x01\x00\x00\x00\x00\x00\x00\x00\x01\x00\x00\x00";

const AT_LAST: &[u8] = b"\xff\xff\xff\xff\xff\xff\xff\x00\x01\x00\x00\x00";

/// A client's calls, and their answers.
#[derive(Clone, Copy)]
struct Row {
    /// The sequence before the first batch.
    last: u64,
    /// Which calls of the disk fail.
    fails: &'static [u64],
    steps: &'static [Step],
    notes: &'static [StepAnswer],
    /// The count of the log's fault.
    fault: Option<u64>,
    /// The sequence and the count of the record that is written.
    start: &'static [u8],
}

const ROWS: [Row; 6] = [
    // The disk's third call, the second append, fails. The log keeps its length, and recovery finds the first record.
    Row {
        last: 0,
        fails: &[3],
        steps: &[PUT_A, PUT_B, PUT_B, READ_B, READ_A],
        notes: &[
            FIRST,
            StepAnswer::Refused(Refusal::LogFault { count: 1 }),
            StepAnswer::Refused(Refusal::LogFault { count: 1 }),
            StepAnswer::SawNone { at: 1 },
            StepAnswer::Saw { at: 1, byte: b'1' },
        ],
        fault: Some(1),
        start: AT_FIRST,
    },
    // One sequence is left: a batch of two is refused, a batch of one takes it, and then another batch of one is
    // refused.
    Row {
        last: 72057594037927934,
        fails: &[],
        steps: &[PUT_BOTH, PUT_A, PUT_B],
        notes: &[
            StepAnswer::Refused(Refusal::SequenceFull {
                last: 72057594037927934,
            }),
            StepAnswer::Wrote {
                run: Run {
                    first: 72057594037927935,
                    last: 72057594037927935,
                },
                group_last: 72057594037927935,
                sequence: 72057594037927935,
            },
            StepAnswer::Refused(Refusal::SequenceFull {
                last: 72057594037927935,
            }),
        ],
        fault: None,
        start: AT_LAST,
    },
    // A client stops writes itself. Its write that doesn't wait is refused as incomplete, and its write that may wait
    // is refused since it would wait for its own stop.
    Row {
        last: 0,
        fails: &[],
        steps: &[
            Step::Stop,
            HASTY_PUT,
            AGAIN,
            Step::Stop,
            Step::Unstop,
            Step::Unstop,
            AGAIN,
        ],
        notes: &[
            StepAnswer::Done,
            StepAnswer::Refused(Refusal::Incomplete {
                stops: 1,
                delays: 0,
                wait: 0,
            }),
            StepAnswer::Refused(Refusal::SelfStop),
            StepAnswer::Held,
            StepAnswer::Done,
            StepAnswer::NotHeld,
            FIRST,
        ],
        fault: None,
        start: AT_FIRST,
    },
    // There are three families. A write and a read of another one are refused, and the same key in another family is
    // another key.
    Row {
        last: 0,
        fails: &[],
        steps: &[
            Step::WriteIn {
                family: 3,
                rows: &[(b"a", b"9")],
                options: PLAIN,
            },
            Step::ReadIn {
                family: 4_294_967_295,
                key: b"a",
            },
            Step::ReadIn {
                family: 2,
                key: b"a",
            },
            PUT_A,
            Step::ReadIn {
                family: 1,
                key: b"a",
            },
            Step::ReadIn {
                family: 0,
                key: b"a",
            },
        ],
        notes: &[
            StepAnswer::Refused(Refusal::NoFamily { family: 3 }),
            StepAnswer::NoFamily {
                family: 4_294_967_295,
            },
            StepAnswer::SawNone { at: 0 },
            FIRST,
            StepAnswer::SawNone { at: 1 },
            StepAnswer::Saw { at: 1, byte: b'1' },
        ],
        fault: None,
        start: AT_FIRST,
    },
    // The disk's third call, the first read, fails. The log goes on, and a later read gives what it has. A client that
    // stops writes would wait for itself.
    Row {
        last: 0,
        fails: &[3],
        steps: &[
            PUT_A,
            Step::Updates { since: 1 },
            Step::Updates { since: 0 },
            Step::Updates { since: 2 },
            Step::Stop,
            Step::Updates { since: 0 },
        ],
        notes: &[
            FIRST,
            StepAnswer::NotRead { count: 1 },
            StepAnswer::Gave { at: 1, records: 1 },
            StepAnswer::Gave { at: 1, records: 0 },
            StepAnswer::Done,
            StepAnswer::SelfStop,
        ],
        fault: None,
        start: AT_FIRST,
    },
    // At a byte a second a millisecond's refill is one byte of the 17. The other 16 are owed, counted from a
    // millisecond later.
    Row {
        last: 0,
        fails: &[],
        steps: &[Step::Slow { rate: 1 }, HASTY_PUT, Step::Unslow, AGAIN],
        notes: &[
            StepAnswer::Done,
            StepAnswer::Refused(Refusal::Incomplete {
                stops: 0,
                delays: 1,
                wait: 16_001_000,
            }),
            StepAnswer::Done,
            FIRST,
        ],
        fault: None,
        start: AT_FIRST,
    },
];

// The record of a batch that puts one byte at a key of one byte has 24 bytes. The batch begins after the first seven.
fn check_row<R: Threads + Wait + rt::Clock + Abort + Sync>(
    rt: &R,
    alloc: Global,
    row: &Row,
    pipelined: bool,
) {
    assert!(rt; row.last < MAX_SEQUENCE);
    let scripts = vec![in alloc; script(rt, alloc, row.steps, 1)].expect(rt, "memory");
    let ended = ended(rt, alloc, row.fails, row.last, 1, pipelined, &scripts);
    let told = ended.notes.first().expect(rt, "notes");
    assert_eq!(rt; told.as_slice(), row.notes);
    let last = row.last + 1;
    assert_eq!(rt; (ended.len, ended.fault, ended.last), (24, row.fault, last));
    let mut disk = ended.disk;
    let content = disk.content();
    assert_eq!(rt; (content.len(), content.get(7..19)), (24, Some(row.start)));
    let Ok(found) = recover(alloc, &mut disk, None) else {
        panic!(rt; "not recovered")
    };
    assert_eq!(rt; (found.groups.len(), found.last, found.kept), (1, last, 24));
}

#[test]
fn one_client_is_told_how_its_calls_ended(rt: HostRuntime) {
    for row in &ROWS {
        check_row(&rt, rt.alloc(), row, false);
        check_row(&rt, rt.alloc(), row, true);
    }
}
