//! How long a leader's group is, where two writers are in the queue.

use crate::items::{
    EIGHTH, HASTY, LONE, MAX, PAST_EIGHTH, PAST_REST, PLAIN, REST, SYNCED, UNLOGGED,
};
use line_grouping::group_len;
use model_base::Item;
use std::process::Abort;

/// A leader and the writer after it, and the length of the leader's group.
#[derive(Clone, Copy)]
struct Row {
    queue: [Item; 2],
    len: usize,
}

const ROWS: [Row; 10] = [
    // The group just reaches a small leader's cap: its own 100 and an eighth of the bound.
    Row {
        queue: [PLAIN, EIGHTH],
        len: 2,
    },
    // The group would pass a small leader's cap by one.
    Row {
        queue: [PLAIN, PAST_EIGHTH],
        len: 1,
    },
    // The group just reaches a larger leader's cap, the bound.
    Row {
        queue: [PAST_EIGHTH, REST],
        len: 2,
    },
    // The group would pass a larger leader's cap by one.
    Row {
        queue: [PAST_EIGHTH, PAST_REST],
        len: 1,
    },
    // A leader without a sync takes no writer with one. A leader with a sync takes one without.
    Row {
        queue: [PLAIN, SYNCED],
        len: 1,
    },
    Row {
        queue: [SYNCED, PLAIN],
        len: 2,
    },
    // A writer that stays out of the log, or one that doesn't wait where writes are held up, shares no group with a
    // plain writer.
    Row {
        queue: [PLAIN, UNLOGGED],
        len: 1,
    },
    Row {
        queue: [HASTY, PLAIN],
        len: 1,
    },
    // A leader that goes alone takes nobody, and one that goes alone isn't taken.
    Row {
        queue: [LONE, PLAIN],
        len: 1,
    },
    Row {
        queue: [PLAIN, LONE],
        len: 1,
    },
];

fn check_row(rt: &impl Abort, row: &Row) {
    let [leader, follower] = &row.queue;
    assert_eq!(rt;
        group_len(&row.queue, MAX),
        row.len,
        "{leader:?} {follower:?}"
    );
}

#[test]
fn sizes_and_options_end_the_group(rt: HostRuntime) {
    // The groups of the rows so far had the lengths that their rows say.
    for row in &ROWS {
        check_row(&rt, row);
    }
}
