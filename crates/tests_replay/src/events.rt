//! Schedules of two clients, each of which writes one batch.

use crate::opening::{clients_of, opened};
use log_batch::Run;
use model_base::Refusal;
use model_core::Event;
use model_core::Event::*;
use replay_core::{CoreReply, Counts, State, replay};
use std::alloc::Global;
use std::process::Abort;
use std::test::Fail;

/// What is replayed, and what it gives.
#[derive(Clone, Copy)]
struct Row {
    /// The sequence before the first batch.
    last: u64,
    /// The keys that each client puts.
    batches: [&'static [&'static [u8]]; 2],
    events: &'static [Event],
    counts: Counts,
    /// The replies that each client gets.
    first: &'static [CoreReply],
    second: &'static [CoreReply],
    /// How many entries each logged group has, and how many there are in all.
    logged: &'static [u64],
    entries: usize,
    /// The last published sequence.
    published: u64,
}

const ROWS: [Row; 3] = [
    // Two groups. The first read is skipped: the client's commit comes before it.
    Row {
        last: 0,
        batches: [&[b"a"], &[b"b"]],
        events: &[
            Read(2),
            Link(1),
            Elect(1),
            Build(1),
            Link(2),
            Log(1),
            Launch(1),
            Insert(1),
            Finish(1),
            Publish(1),
            Exit(1),
            Complete(1),
            Elect(2),
            Build(2),
            Log(2),
            Launch(2),
            Insert(2),
            Finish(2),
            Publish(2),
            Exit(2),
            Complete(2),
            Read(2),
        ],
        counts: Counts {
            taken: 21,
            skipped: 1,
        },
        first: &[CoreReply::Accepted(Run { first: 1, last: 1 })],
        second: &[
            CoreReply::Accepted(Run { first: 2, last: 2 }),
            CoreReply::ReadAt { at: 2 },
        ],
        logged: &[1, 1],
        entries: 2,
        published: 2,
    },
    // One group of two.
    Row {
        last: 0,
        batches: [&[b"a"], &[b"b"]],
        events: &[
            Link(1),
            Link(2),
            Elect(1),
            Build(1),
            Log(1),
            Launch(1),
            Insert(1),
            Insert(2),
            Finish(1),
            Finish(2),
            Publish(2),
            Exit(1),
            Complete(1),
            Complete(2),
            Read(2),
        ],
        counts: Counts {
            taken: 15,
            skipped: 0,
        },
        first: &[CoreReply::Accepted(Run { first: 1, last: 1 })],
        second: &[
            CoreReply::Accepted(Run { first: 2, last: 2 }),
            CoreReply::ReadAt { at: 2 },
        ],
        logged: &[2],
        entries: 2,
        published: 2,
    },
    // Two sequences are left for a batch of three, so the first batch has no run and isn't inserted. The second batch
    // has one.
    Row {
        last: 72057594037927933,
        batches: [&[b"a", b"b", b"c"], &[b"d"]],
        events: &[
            Link(1),
            Link(2),
            Elect(1),
            Build(1),
            Log(1),
            Launch(1),
            Insert(1),
            Insert(2),
            Finish(2),
            Publish(2),
            Exit(1),
            Complete(1),
            Complete(2),
        ],
        counts: Counts {
            taken: 12,
            skipped: 1,
        },
        first: &[CoreReply::Refused {
            why: Refusal::SequenceFull {
                last: 72057594037927933,
            },
        }],
        second: &[CoreReply::Accepted(Run {
            first: 72057594037927934,
            last: 72057594037927934,
        })],
        logged: &[1],
        entries: 1,
        published: 72057594037927934,
    },
];

fn check_state(rt: &impl Abort, state: &State<'_>, row: &Row) {
    let sums = (state.entries().len(), state.last());
    assert_eq!(rt; sums, (row.entries, row.published));
    let lists = (state.replies(1), state.replies(2), state.logged());
    assert_eq!(rt; lists, (row.first, row.second, row.logged));
}

fn check_row(rt: &impl Abort, alloc: Global, row: &Row) -> Result<(), Fail> {
    let clients = clients_of(rt, alloc, &row.batches)?;
    let mut state = opened(rt, alloc, row.last, &clients)?;
    let counts = replay(&mut state, row.events);
    assert_eq!(rt; counts, row.counts);
    check_state(rt, &state, row);
    Ok(())
}

#[test]
fn schedules_are_replayed(rt: HostRuntime) -> Result<(), Fail> {
    // The rows so far gave what they say.
    for row in &ROWS {
        check_row(&rt, rt.alloc(), row)?;
    }
    Ok(())
}
