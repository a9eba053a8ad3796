//! Clients that write at once: the runs that they get, and what their reads see.

ghost use Rattle.std.specs.Prelude.{◌<◌};

use super::{PLAIN, PUT_A, READ_A, READ_B, ended, script};
use crate::script::{Step, StepAnswer};
use log_batch::Run;
use std::alloc::Global;
use std::process::Abort;
use std::rt;
use std::rt::HostRuntime;
use std::sync::Wait;
use std::thread::Threads;

/// What clients do at once.
#[derive(Clone, Copy)]
struct Round {
    /// How many calls each client makes, and how many calls of all clients are writes.
    calls: usize,
    writes: usize,
    /// How many sequences each batch takes.
    count: u64,
    /// The last sequence of all runs.
    last: u64,
}

// For each sequence that ends a run, the number of the write that has the run, and 0 for the others. The clients'
// writes are counted from 1, client by client. All calls that aren't reads are writes. Each write has a run, which no
// other has.
fn owners(rt: &impl Abort, notes: &[Vec<StepAnswer>], round: Round) -> [usize; 201] {
    let mut owner = [0usize; 201];
    let mut write = 0usize;
    for told in notes {
        assert_eq!(rt; told.len(), round.calls);
        for note in told {
            if let StepAnswer::Wrote {
                run: Run { first, last },
                group_last,
                sequence,
            } = *note
            {
                write = write.wrapping_add(1);
                let place = owner.get_mut(last as usize).expect(rt, "one of 200");
                assert!(rt;
                    *place == 0
                        && last.wrapping_add(1) == first.wrapping_add(round.count)
                        && 1 <= first
                        && sequence == first
                        && last <= group_last
                        && group_last <= round.last,
                    "write {write} ends at {last}"
                );
                *place = write;
            }
        }
    }
    assert_eq!(rt; write, round.writes);
    owner
}

// Two clients write a hundred times each: the runs 1 to 200 are given once each.
fn two_write<R: Threads + Wait + rt::Clock + Abort + Sync>(rt: &R, alloc: Global, pipelined: bool) {
    let round = Round {
        calls: 100,
        writes: 200,
        count: 1,
        last: 200,
    };
    let own = script(rt, alloc, &[PUT_A], 100);
    let others = script(rt, alloc, &[PUT_A], 100);
    let ended = ended(rt, alloc, &[], 0, 1, pipelined, &[own, others]);
    assert_eq!(rt; (ended.last, ended.fault), (round.last, None));
    owners(rt, &ended.notes, round);
}

#[test]
fn two_write_at_once(rt: HostRuntime) {
    let alloc = rt.alloc();
    two_write(&rt, alloc, false);
    two_write(&rt, alloc, true);
}

// A client writes a hundred times, and another one reads the whole log a hundred times meanwhile. Each batch is a
// record of its own, so a read up to a sequence gives as many records.
fn one_follows<R: Threads + Wait + rt::Clock + Abort + Sync>(
    rt: &R,
    alloc: Global,
    pipelined: bool,
) {
    let own = script(rt, alloc, &[PUT_A], 100);
    let follower = script(rt, alloc, &[Step::Updates { since: 0 }], 100);
    let ended = ended(rt, alloc, &[], 0, 1, pipelined, &[own, follower]);
    assert_eq!(rt; (ended.last, ended.fault), (100, None));
    let mut seen = 0;
    for note in ended.notes.get(1).expect(rt, "notes") {
        let StepAnswer::Gave { at, records } = *note else {
            panic!(rt; "not read")
        };
        assert!(rt; seen <= at && at <= 100 && records as u64 == at, "at {at}");
        seen = at;
    }
}

#[test]
fn one_follows_another(rt: HostRuntime) {
    let alloc = rt.alloc();
    one_follows(&rt, alloc, false);
    one_follows(&rt, alloc, true);
}

/// What four clients write, four times each: at both keys the write's own name, which is one byte.
const NAMED: [[&[(&[u8], &[u8])]; 4]; 4] = [
    [
        &[(b"a", b"A"), (b"b", b"A")],
        &[(b"a", b"B"), (b"b", b"B")],
        &[(b"a", b"C"), (b"b", b"C")],
        &[(b"a", b"D"), (b"b", b"D")],
    ],
    [
        &[(b"a", b"E"), (b"b", b"E")],
        &[(b"a", b"F"), (b"b", b"F")],
        &[(b"a", b"G"), (b"b", b"G")],
        &[(b"a", b"H"), (b"b", b"H")],
    ],
    [
        &[(b"a", b"I"), (b"b", b"I")],
        &[(b"a", b"J"), (b"b", b"J")],
        &[(b"a", b"K"), (b"b", b"K")],
        &[(b"a", b"L"), (b"b", b"L")],
    ],
    [
        &[(b"a", b"M"), (b"b", b"M")],
        &[(b"a", b"N"), (b"b", b"N")],
        &[(b"a", b"O"), (b"b", b"O")],
        &[(b"a", b"P"), (b"b", b"P")],
    ],
];

/// The byte before the first name.
const BEFORE_NAMES: usize = b'@' as usize;

const FOUR: Round = Round {
    calls: 12,
    writes: 16,
    count: 2,
    last: 32,
};

// A client writes a name of its own at both keys and reads them, four times.
fn writes_and_reads(
    rt: &impl Abort,
    alloc: Global,
    names: &[&'static [(&'static [u8], &'static [u8])]],
) -> Vec<Step> {
    let mut steps = Vec::new(alloc);
    for rows in names {
        let write = Step::Write {
            rows: *rows,
            options: PLAIN,
        };
        steps
            .extend_from_slice(&[write, READ_A, READ_B])
            .expect(rt, "memory");
    }
    steps
}

// A read as of a batch's last sequence sees that batch's name, whichever key it reads. No read is within a batch.
fn check_read(rt: &impl Abort, owner: &[usize; 201], note: StepAnswer) {
    match note {
        StepAnswer::Wrote { .. } => {}
        StepAnswer::Saw { at, byte } => {
            let write = owner.get(at as usize).expect(rt, "one of 200");
            assert!(rt;
                at % 2 == 0 && byte as usize == write.wrapping_add(BEFORE_NAMES),
                "{byte} at {at}"
            );
        }
        _ => panic!(rt; "another answer"),
    }
}

// Four clients write both keys and read them, over a table of `shards` shards, in one stage or two.
fn write_and_read_both<R: Threads + Wait + rt::Clock + Abort + Sync>(
    rt: &R,
    alloc: Global,
    shards: u32,
    pipelined: bool,
)
    requires { 0 < shards }
{
    let mut scripts = Vec::with_capacity(alloc, 4).expect(rt, "memory");
    for names in &NAMED {
        scripts
            .push(writes_and_reads(rt, alloc, names))
            .expect(rt, "memory");
    }
    let ended = ended(rt, alloc, &[], 0, shards, pipelined, &scripts);
    assert_eq!(rt; (ended.last, ended.fault), (FOUR.last, None));
    let owner = owners(rt, &ended.notes, FOUR);
    for told in &ended.notes {
        for note in told {
            check_read(rt, &owner, *note);
        }
    }
}

// In a table of three shards, one key is in the first shard and the other in the last.
#[test]
fn no_read_sees_one_key_without_the_other(rt: HostRuntime) {
    let alloc = rt.alloc();
    for pipelined in [false, true] {
        write_and_read_both(&rt, alloc, 1, pipelined);
        write_and_read_both(&rt, alloc, 3, pipelined);
    }
}
