//! Schedules on one thread, and threads that write at once, on a list with a second list.

mod clients;
mod leading;
mod schedule;
mod threads;

use crate::client::StagePlayer;
use crate::counter::CountingRight;
use clients::{Counted, closed, opened};
use line_rule::Start;
use schedule::{Call, Seen, Turn, play};
use std::alloc::Global;
use std::process::Abort;
use std::rt::HostRuntime;
use std::sync::atomic::AtomicU64;
use std::test::Fail;
use tests_line::{CountLog, MAX, note_numbers};
use threads::write_at_once;

/// Three clients log one after another, and their groups are served in that order, each with the number that comes
/// next. A client that links before the leader hands the log on becomes the leader by that, and one that links
/// afterwards leads at once.
const IN_ORDER: &[Turn] = &[
    (1, Call::Link, Seen::Nothing),
    (1, Call::AwaitRole, Seen::LogLeader(0, false)),
    (1, Call::Group, Seen::Group(1)),
    (2, Call::Link, Seen::Nothing),
    (1, Call::ExitPipelined, Seen::Nothing),
    (2, Call::AwaitRole, Seen::LogLeader(1, true)),
    (2, Call::Group, Seen::Group(1)),
    (2, Call::ExitPipelined, Seen::Nothing),
    (3, Call::Link, Seen::Nothing),
    (3, Call::AwaitRole, Seen::LogLeader(2, true)),
    (3, Call::Group, Seen::Group(1)),
    (3, Call::ExitPipelined, Seen::Nothing),
    (1, Call::AwaitRole, Seen::MemLeader(0)),
    (1, Call::ExitMemtable, Seen::Done(0)),
    (2, Call::AwaitRole, Seen::MemLeader(1)),
    (2, Call::ExitMemtable, Seen::Done(1)),
    (3, Call::AwaitRole, Seen::MemLeader(2)),
    (3, Call::ExitMemtable, Seen::Done(2)),
];

/// A group that is refused leaves through the first list, while an older group is in the second. The older group is
/// served then. The next group finds the second list empty, and has the number that the refused one didn't take.
const REFUSED: &[Turn] = &[
    (1, Call::Link, Seen::Nothing),
    (1, Call::AwaitRole, Seen::LogLeader(0, false)),
    (1, Call::Group, Seen::Group(1)),
    (1, Call::ExitPipelined, Seen::Nothing),
    (2, Call::Link, Seen::Nothing),
    (3, Call::Link, Seen::Nothing),
    (2, Call::AwaitRole, Seen::LogLeader(1, true)),
    (2, Call::Group, Seen::Group(2)),
    (2, Call::Exit, Seen::Done(1)),
    (3, Call::AwaitRole, Seen::Done(2)),
    (1, Call::AwaitRole, Seen::MemLeader(0)),
    (1, Call::ExitMemtable, Seen::Done(0)),
    (2, Call::Link, Seen::Nothing),
    (2, Call::AwaitRole, Seen::LogLeader(1, false)),
    (2, Call::Group, Seen::Group(1)),
    (2, Call::ExitPipelined, Seen::Nothing),
    (2, Call::AwaitRole, Seen::MemLeader(1)),
    (2, Call::ExitMemtable, Seen::Done(1)),
];

/// Members that are asked to work in parallel with their leader are asked once, and get their replies when the leader
/// has left. A member that looks only then gets its reply at once.
const BESIDE: &[Turn] = &[
    (1, Call::Link, Seen::Nothing),
    (2, Call::Link, Seen::Nothing),
    (3, Call::Link, Seen::Nothing),
    (1, Call::AwaitRole, Seen::LogLeader(0, false)),
    (1, Call::Group, Seen::Group(3)),
    (1, Call::ExitPipelined, Seen::Nothing),
    (1, Call::AwaitRole, Seen::MemLeader(0)),
    (1, Call::LaunchRoles, Seen::Nothing),
    (2, Call::AwaitRole, Seen::Parallel),
    (1, Call::ExitMemtable, Seen::Done(0)),
    (2, Call::AwaitRole, Seen::Done(1)),
    (3, Call::AwaitRole, Seen::Done(2)),
];

const SCHEDULES: [&[Turn]; 3] = [IN_ORDER, REFUSED, BESIDE];

#[test]
fn schedules_on_one_thread(rt: HostRuntime) {
    // Each schedule has a list of its own.
    for schedule in SCHEDULES {
        let (list, mut clients) = opened(&rt, rt.alloc(), 3, 0);
        play(&rt, &list, clients.as_mut_slice(), schedule);
    }
}

// Each client got `times` replies with its own size, and each number was given once.
fn check_told(rt: &impl Abort, alloc: Global, clients: &[StagePlayer], times: usize) {
    let all = clients.len().wrapping_mul(times);
    let mut noted = vec![in alloc; false; all].expect(rt, "memory");
    let mut size = 0u64;
    // `size` is how many clients were gone through, and the size of the last one's requests.
    for client in clients {
        size = size.wrapping_add(1);
        assert_eq!(rt; client.told.len(), times);
        if let Err(wrong) = note_numbers(client.told.as_slice(), size, noted.as_mut_slice()) {
            panic!(rt; "{} and {} of {size}", wrong.number, wrong.size)
        }
    }
}

// Each client gets its own replies, each number is given once, the log that comes back has counted all, and the right
// has served all groups in the log's order.
#[test]
fn four_write_at_once(rt: HostRuntime) {
    let alloc = rt.alloc();
    let (list, mut clients) = opened(&rt, alloc, 4, 1000);
    let pending = AtomicU64::new(0);
    write_at_once(&rt, &list, clients.as_mut_slice(), 1000, &pending);
    check_told(&rt, alloc, clients.as_slice(), 1000);
    let (log, right) = closed(&rt, alloc, list, clients);
    assert_eq!(rt;
        (log.count, log.sum, right.next, right.wrong),
        (4000, 10000, 4000, 0)
    );
    assert_eq!(rt; right.groups.wrapping_add(right.helped), 4000);
}

// How many writers and lists an opened list for three clients has, or the log's count and sum and the right's next
// number, which come back.
fn open_three(alloc: Global) -> Result<(usize, usize), (u64, u64, u64)> {
    let start = Start {
        clients: 3,
        log: 0,
        pipelined: true,
        group_bytes: MAX,
        about: 0,
    };
    let counter = CountLog { count: 5, sum: 6 };
    let right = CountingRight {
        next: 7,
        groups: 0,
        wrong: 0,
        helped: 0,
    };
    match Counted::open(alloc, &start, counter, right) {
        Ok((_list, writers, lists)) => Ok((writers.len(), lists.len())),
        Err((log, right)) => Err((log.count, log.sum, right.next)),
    }
}

// The log and the right come back where memory is short: `tests/fail_alloc` makes each allocation fail in turn, and
// reads what this prints.
#[test]
fn open_gives_back(rt: HostRuntime) -> Result<(), Fail> {
    let text = match open_three(rt.alloc()) {
        Ok(counts) => {
            assert_eq!(rt; counts, (3, 3));
            "opened"
        }
        Err(back) => {
            assert_eq!(rt; back, (5, 6, 7));
            "given back"
        }
    };
    println!(rt; "open: {text}")?;
    Ok(())
}
