//! What clients do while others are under way: the disk holds an append back, and a gate holds clients back, until
//! others have come far enough. Clients that ran one after another, or under one lock, would wait in vain.

use super::recovery::check_recovery;
use super::{
    Devices, Fails, Given, IN_TWO_STAGES, ONE_TREE, OUTCOME, PATHS, PIPELINED, PIPELINED_SHARDS,
    PLAIN, SCRIPT, SHARDS, START, WritePath, check_texts, devices_of,
};
use base_devices::SteppedClock;
use engine_calls::Gate;
use program_call::{Ended, run_gated};
use std::alloc::Global;
use std::process::Abort;
use std::rt::HostRuntime;
use std::sync::Wait;
use std::sync::atomic::Ordering::SeqCst;
use std::sync::atomic::{AtomicBool, AtomicU64};
use std::thread::Threads;
use std::{rt, thread};
use tests_held_disk::{AppendHold, HeldDisk};

/// How many turns a client waits at most: more than any test needs, so that a test ends even where nobody comes.
const MOST_TURNS: u64 = 1_000_000_000;

/// The places that clients pass.
#[derive(Clone, Copy, PartialEq, Eq)]
enum Place {
    /// The append that may be held back is begun.
    Appending,
    /// The first client is in the line of writers.
    FirstLinked,
    /// The first client is about to launch its group.
    FirstLaunching,
    /// A call of the first client is answered, after it has launched its group.
    FirstAnswered,
    /// Another client is in the line of writers.
    OthersLinked,
    /// A call of another client is answered.
    OthersAnswered,
}

/// The moment when clients have passed a place this number of times.
type Moment = (Place, u64);

/// Nobody waits for this moment.
const AT_ONCE: Moment = (Place::FirstLinked, 0);

/// How clients meet, and what should be seen then.
#[derive(Clone, Copy)]
struct Meeting {
    paths: &'static [WritePath],
    words: &'static str,
    text: &'static [u8],
    fails: Fails,
    /// Which append may be held back, counted from 1, and when it goes on.
    append: u64,
    appends: Moment,
    /// When the other clients begin.
    begin: Moment,
    /// When the first client, which is in the line of writers, goes on, and when it launches its group.
    leads: Moment,
    launches: Moment,
    /// When another client, which is in the line of writers, goes on, and how many turns a client waits at most.
    follows: Moment,
    turns: u64,
    /// Whether a client waits in vain.
    late: bool,
    status: u8,
    want: &'static str,
    /// What the log recovers.
    recovered: &'static str,
}

/// Holds clients back, and tells the held append when others pass the place that it waits for.
#[derive(Drop)]
struct Turnstile<'a> {
    meeting: Meeting,
    hold: &'a AppendHold,
    /// The sum of all numbers of locks that it learned.
    locks: AtomicU64,
    /// How often clients have passed each place.
    first_linked: AtomicU64,
    first_launching: AtomicU64,
    first_answered: AtomicU64,
    others_linked: AtomicU64,
    others_answered: AtomicU64,
    /// Whether a client waited in vain.
    late: AtomicBool,
}

impl<'a> Turnstile<'a> {
    fn new(meeting: Meeting, hold: &'a AppendHold) -> Turnstile<'a> {
        Turnstile {
            meeting,
            hold,
            locks: AtomicU64::new(0),
            first_linked: AtomicU64::new(0),
            first_launching: AtomicU64::new(0),
            first_answered: AtomicU64::new(0),
            others_linked: AtomicU64::new(0),
            others_answered: AtomicU64::new(0),
            late: AtomicBool::new(false),
        }
    }

    /// How often clients have passed a place.
    fn times(&self, place: Place) -> u64 {
        match place {
            Place::Appending => u64::from(self.hold.is_entered()),
            Place::FirstLinked => self.first_linked.load(SeqCst),
            Place::FirstLaunching => self.first_launching.load(SeqCst),
            Place::FirstAnswered => self.first_answered.load(SeqCst),
            Place::OthersLinked => self.others_linked.load(SeqCst),
            Place::OthersAnswered => self.others_answered.load(SeqCst),
        }
    }

    /// A client passes a place.
    fn come(&self, place: Place, times: &AtomicU64) {
        times.fetch_add(1, SeqCst);
        if self.meeting.appends.0 == place {
            self.hold.arrive();
        }
    }

    /// Waits until clients have passed a place this number of times. Each turn lets another thread run.
    fn wait_for(&self, (place, times): Moment) {
        // They haven't passed it this often yet.
        for _ in 0..self.meeting.turns {
            if self.times(place) >= times {
                return;
            }
            thread::yield_now();
        }
        self.late.store(true, SeqCst);
    }
}

impl<'a> Gate for Turnstile<'a> {
    fn opened(&self, locks: u64) {
        self.locks.fetch_add(locks, SeqCst);
    }

    fn started(&self, client: u32) {
        if client != 1 {
            self.wait_for(self.meeting.begin);
        }
    }

    fn linked(&self, client: u32) {
        if client == 1 {
            self.come(Place::FirstLinked, &self.first_linked);
            self.wait_for(self.meeting.leads);
        } else {
            self.come(Place::OthersLinked, &self.others_linked);
            self.wait_for(self.meeting.follows);
        }
    }

    fn launching(&self, client: u32) {
        if client == 1 {
            self.come(Place::FirstLaunching, &self.first_launching);
            self.wait_for(self.meeting.launches);
        }
    }

    fn answered(&self, client: u32, _number: u64) {
        if client != 1 {
            self.come(Place::OthersAnswered, &self.others_answered);
        } else if self.times(Place::FirstLaunching) > 0 {
            self.come(Place::FirstAnswered, &self.first_answered);
        }
    }
}

/// Lets clients meet over a write path. The table should have the path's number of locks, and a client should wait in
/// vain just where the meeting says so.
fn meet<R: Threads + Wait + rt::Clock + Abort + Sync>(
    rt: &R,
    alloc: Global,
    meeting: Meeting,
    path: WritePath,
) {
    let hold = AppendHold::new(meeting.appends.1);
    let gate = Turnstile::new(meeting, &hold);
    let given = Given {
        words: meeting.words,
        path,
        text: meeting.text,
        fails: meeting.fails,
        ..PLAIN
    };
    let Devices {
        words,
        mut source,
        mut sink,
        disk: inner,
    } = devices_of(rt, alloc, given);
    let Ended { status, disk } = run_gated(
        rt,
        alloc,
        &words,
        &mut source,
        HeldDisk::new(inner, &hold, meeting.append),
        &mut sink,
        SteppedClock::new(START),
        &gate,
    );
    let late = gate.late.load(SeqCst);
    let locks = gate.locks.load(SeqCst);
    assert_eq!(rt;
        (late, locks, status),
        (meeting.late, path.locks, meeting.status),
        "for {}",
        meeting.want
    );
    check_texts(rt, &sink, &[meeting.want]);
    check_recovery(rt, alloc, disk.into_disk().content(), meeting.recovered);
}

/// The number of shards has no effect on a table of one tree.
const ALL_PATHS: [WritePath; 7] = [
    ONE_TREE,
    SHARDS,
    PIPELINED,
    PIPELINED_SHARDS,
    WritePath {
        options: " --shards 7 --table shards",
        locks: 7,
    },
    WritePath {
        options: " --shards 7 --pipelined --table shards",
        locks: 7,
    },
    WritePath {
        options: " --shards 7",
        locks: 1,
    },
];

/// One client, which meets nobody.
const ALONE: Meeting = Meeting {
    paths: &ALL_PATHS,
    words: "run",
    text: SCRIPT,
    fails: Fails::Nothing,
    append: 0,
    appends: AT_ONCE,
    begin: AT_ONCE,
    leads: AT_ONCE,
    launches: AT_ONCE,
    follows: AT_ONCE,
    turns: MOST_TURNS,
    late: false,
    status: 0,
    want: OUTCOME,
    recovered: "groups 1\n1 1 17\nstate 1 1\n61 31\nend 24 clean\n",
};

/// Two clients are one group. The second one is held back in the line until the first one, its leader, is answered. So
/// the leader puts the second one's records into the table too.
const LEFT_TO_THE_LEADER: Meeting = Meeting {
    paths: &[ONE_TREE, SHARDS, PIPELINED],
    text: b"client 1\nput d 1\ncommit\n\
        client 2\nput a 1\nput a 1\nput a 1\nput a 1\nput a 1\nput a 1\nput a 1\nput a 1\n\
        put a 1\nput a 1\nput a 1\nput a 1\nput a 1\nput a 1\nput a 1\nput a 1\ncommit\n",
    begin: (Place::FirstLinked, 1),
    leads: (Place::OthersLinked, 1),
    follows: (Place::FirstAnswered, 1),
    want: "client 1\nok 1 1\nclient 2\nok 2 17\n\
        history 2\n1 1 1 1 log 0100000000000000010000000101640131\n2 17 2 1 log *\n\
        state 17 2\na 1\nd 1\nlog 104\n",
    recovered: "groups 1\n1 17 97\nstate 17 2\n61 31\n64 31\nend 104 clean\n",
    ..ALONE
};

const MEETINGS: [Meeting; 9] = [
    ALONE,
    LEFT_TO_THE_LEADER,
    // In two stages over shards the second client puts in its own records. The first isn't answered before the second
    // goes on.
    Meeting {
        paths: &[PIPELINED_SHARDS],
        turns: 100_000,
        late: true,
        ..LEFT_TO_THE_LEADER
    },
    // The second client's read is answered while the first one's record is written, and sees nothing of it.
    Meeting {
        paths: &PATHS,
        text: b"client 1\nput a 1\ncommit\nclient 2\nget a\n",
        append: 1,
        appends: (Place::OthersAnswered, 1),
        begin: (Place::Appending, 1),
        want: "client 1\nok 1 1\nclient 2\nnil 0\n\
            history 1\n1 1 1 1 log 0100000000000000010000000101610131\nstate 1 1\na 1\nlog 24\n",
        ..ALONE
    },
    // The three clients that link while the first one's record is written are one group, and one record.
    Meeting {
        paths: &PATHS,
        text: b"client 1\nput a 1\ncommit\nclient 2\nput b 1\ncommit\nclient 3\nput c 1\ncommit\n\
            client 4\nput d 1\ncommit\n",
        append: 1,
        appends: (Place::OthersLinked, 3),
        begin: (Place::Appending, 1),
        want: "client 1\nok 1 1\nclient 2\nok *\nclient 3\nok *\nclient 4\nok *\n\
            history 4\n1 1 1 1 log *\n2 2 *\n3 3 *\n4 4 *\nstate 4 4\na 1\nb 1\nc 1\nd 1\nlog 58\n",
        recovered: "groups 2\n1 1 17\n2 3 27\nstate 4 4\n61 31\n62 31\n63 31\n64 31\nend 58 clean\n",
        ..ALONE
    },
    // Two clients are one group. There is no run left for the first one's batch, so the first puts the second one's
    // batch into the table.
    Meeting {
        paths: &PATHS,
        words: "run --last 72057594037927933",
        text: b"client 1\nput a 1\nput b 1\nput c 1\ncommit\nclient 2\nput d 1\ncommit\n",
        begin: (Place::FirstLinked, 1),
        leads: (Place::OthersLinked, 1),
        want: "client 1\nno full 72057594037927933\nclient 2\n\
            ok 72057594037927934 72057594037927934\n\
            history 1\n72057594037927934 72057594037927934 2 1 log feffffffffffff00010000000101640131\n\
            state 72057594037927934 1\nd 1\nlog 24\n",
        recovered: "groups 1\n72057594037927934 1 17\nstate 72057594037927934 1\n64 31\nend 24 clean\n",
        ..ALONE
    },
    // Three clients are one group. The other two bring enough records that in two stages over shards they are woken,
    // to put in their own. A run is left for just one of them: the other has nothing to put in.
    Meeting {
        paths: &PATHS,
        words: "run --last 72057594037927917",
        text: b"client 1\nput d 1\ncommit\n\
            client 2\nput a 1\nput a 1\nput a 1\nput a 1\nput a 1\nput a 1\nput a 1\nput a 1\n\
            put a 1\nput a 1\nput a 1\nput a 1\nput a 1\nput a 1\nput a 1\nput a 1\ncommit\n\
            client 3\nput a 1\nput a 1\nput a 1\nput a 1\nput a 1\nput a 1\nput a 1\nput a 1\n\
            put a 1\nput a 1\nput a 1\nput a 1\nput a 1\nput a 1\nput a 1\nput a 1\ncommit\n",
        begin: (Place::FirstLinked, 1),
        leads: (Place::OthersLinked, 2),
        want: "client 1\nok 72057594037927918 72057594037927918\nclient 2\n*\nclient 3\n*\n\
            history 2\n72057594037927918 72057594037927918 1 1 log eeffffffffffff00010000000101640131\n\
            72057594037927919 72057594037927934 *\nstate 72057594037927934 2\na 1\nd 1\nlog 104\n",
        recovered: "groups 1\n72057594037927918 17 97\nstate 72057594037927934 2\n61 31\n64 31\n\
            end 104 clean\n",
        ..ALONE
    },
    // The second client's record is begun before the first one's group is launched.
    Meeting {
        paths: &IN_TWO_STAGES,
        text: b"client 1\nput a 1\ncommit\nclient 2\nput a 1\ncommit\n",
        append: 2,
        begin: (Place::FirstLaunching, 1),
        launches: (Place::Appending, 1),
        want: "client 1\nok 1 1\nclient 2\nok 2 2\n\
            history 2\n1 1 1 1 log 0100000000000000010000000101610131\n\
            2 2 2 1 log 0200000000000000010000000101610131\nstate 2 1\na 1\nlog 48\n",
        recovered: "groups 2\n1 1 17\n2 1 17\nstate 2 1\n61 31\nend 48 clean\n",
        ..ALONE
    },
    // The log fails before the first client's group is launched. That group is published all the same, and a client
    // that comes later is refused, without waiting for that group.
    Meeting {
        paths: &IN_TWO_STAGES,
        text: b"client 1\nput a 1\ncommit\nput c 3\ncommit\nclient 2\nput b 2\ncommit\ncommit\nget a\n",
        fails: Fails::Disk(3),
        append: 2,
        begin: (Place::FirstLaunching, 1),
        launches: (Place::OthersAnswered, 4),
        status: 3,
        want: "client 1\nok 1 1\nno logfault 1\nclient 2\nno logfault 1\nno logfault 1\nnil 0\n\
            history 1\n1 1 1 1 log 0100000000000000010000000101610131\nstate 1 1\na 1\nlog 24 fault 1\n",
        ..ALONE
    },
];

/// Lets clients meet over each of the meeting's write paths.
fn meet_on_each<R: Threads + Wait + rt::Clock + Abort + Sync>(
    rt: &R,
    alloc: Global,
    meeting: Meeting,
) {
    for path in meeting.paths {
        meet(rt, alloc, meeting, *path);
    }
}

#[test]
fn clients_meet(rt: HostRuntime) {
    for meeting in MEETINGS {
        meet_on_each(&rt, rt.alloc(), meeting);
    }
}
