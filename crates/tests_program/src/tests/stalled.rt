//! What clients do while a leader waits and stalls writes: a gate and a clock hold clients back until others have come
//! far enough.

use super::recovery::check_recovery;
use super::{Devices, Given, ONE_TREE, PATHS, PLAIN, START, WritePath, check_texts, devices_of};
use base_devices::Clock;
use engine_calls::Gate;
use program_call::{Ended, run_gated};
use std::alloc::Global;
use std::process::Abort;
use std::rt::HostRuntime;
use std::sync::Wait;
use std::sync::atomic::Ordering::SeqCst;
use std::sync::atomic::{AtomicBool, AtomicU64};
use std::thread::Threads;
use std::{rt, thread};

/// How many turns a client waits at most: more than any test needs, so that a test ends even where nobody comes.
const MOST_TURNS: u64 = 1_000_000_000;

/// The places that clients pass. Client 1 leads, client 2 takes a token and gives it back, and client 3 may not wait.
#[derive(Clone, Copy, PartialEq, Eq)]
enum Place {
    /// The token is taken.
    TokenTaken,
    /// The leader is in the line of writers.
    LeaderLinked,
    /// The leader waits, so it has stalled writes.
    LeaderWaits,
    /// Client 3 is in the line of writers.
    HastyLinked,
    /// Client 3 has the answer to its commit.
    HastyAnswered,
}

/// How clients meet, and what should be seen then.
#[derive(Clone, Copy)]
struct Meeting {
    text: &'static [u8],
    /// The place after which client 3 begins, and the one after which the leader, which is in the line, goes on.
    begins: Place,
    leads: Place,
    /// How often client 3 is in the line of writers, where that is the same in each run.
    linked: Option<u64>,
    want: &'static str,
}

/// How often clients have passed each place, and whether one waited in vain.
#[derive(Drop)]
struct Passed {
    token_taken: AtomicU64,
    leader_linked: AtomicU64,
    leader_waits: AtomicU64,
    hasty_linked: AtomicU64,
    hasty_answered: AtomicU64,
    late: AtomicBool,
}

impl Passed {
    fn new() -> Passed {
        Passed {
            token_taken: AtomicU64::new(0),
            leader_linked: AtomicU64::new(0),
            leader_waits: AtomicU64::new(0),
            hasty_linked: AtomicU64::new(0),
            hasty_answered: AtomicU64::new(0),
            late: AtomicBool::new(false),
        }
    }

    fn times(&self, place: Place) -> u64 {
        match place {
            Place::TokenTaken => self.token_taken.load(SeqCst),
            Place::LeaderLinked => self.leader_linked.load(SeqCst),
            Place::LeaderWaits => self.leader_waits.load(SeqCst),
            Place::HastyLinked => self.hasty_linked.load(SeqCst),
            Place::HastyAnswered => self.hasty_answered.load(SeqCst),
        }
    }

    /// Waits until clients have passed a place. Each turn lets another thread run.
    fn wait_for(&self, place: Place) {
        // They haven't passed it yet.
        for _ in 0..MOST_TURNS {
            if self.times(place) > 0 {
                return;
            }
            thread::yield_now();
        }
        self.late.store(true, SeqCst);
    }
}

/// Holds clients back.
#[derive(Drop)]
struct Turnstile<'a> {
    meeting: Meeting,
    passed: &'a Passed,
}

impl<'a> Gate for Turnstile<'a> {
    fn opened(&self, _locks: u64) {}

    fn started(&self, client: u32) {
        match client {
            1 => self.passed.wait_for(Place::TokenTaken),
            3 => self.passed.wait_for(self.meeting.begins),
            4 => self.passed.wait_for(Place::LeaderWaits),
            _ => {}
        }
    }

    fn linked(&self, client: u32) {
        if client == 1 {
            self.passed.leader_linked.fetch_add(1, SeqCst);
            self.passed.wait_for(self.meeting.leads);
        } else if client == 3 {
            self.passed.hasty_linked.fetch_add(1, SeqCst);
        }
    }

    fn launching(&self, _client: u32) {}

    /// Client 2 keeps its token until client 3 is answered.
    fn answered(&self, client: u32, number: u64) {
        if client == 2 && number == 0 {
            self.passed.token_taken.fetch_add(1, SeqCst);
            self.passed.wait_for(Place::HastyAnswered);
        } else if client == 3 && number == 1 {
            self.passed.hasty_answered.fetch_add(1, SeqCst);
        }
    }
}

/// A clock whose pauses last until client 3 is answered. It stays at one moment, and doesn't tell it to contracts.
#[derive(Drop)]
struct HeldClock<'a> {
    passed: &'a Passed,
    paused: u64,
}

impl<'a> Clock for HeldClock<'a> {
    ghost use Rattle.std.specs.Prelude.{None};

    ghost last = { λ _. None };

    ghost paused = { λ clock. clock.paused };

    fn now(&mut self) -> u64 {
        START
    }

    fn pause(&mut self, micros: u64) {
        self.paused = self.paused.saturating_add(micros);
        self.passed.leader_waits.fetch_add(1, SeqCst);
        self.passed.wait_for(Place::HastyAnswered);
    }
}

/// Lets clients meet over a write path.
fn meet<R: Threads + Wait + rt::Clock + Abort + Sync>(
    rt: &R,
    alloc: Global,
    meeting: Meeting,
    path: WritePath,
) {
    let passed = Passed::new();
    let gate = Turnstile {
        meeting,
        passed: &passed,
    };
    let given = Given {
        path,
        text: meeting.text,
        ..PLAIN
    };
    let Devices {
        words,
        mut source,
        mut sink,
        disk,
    } = devices_of(rt, alloc, given);
    let clock = HeldClock {
        passed: &passed,
        paused: 0,
    };
    let Ended { status, disk } = run_gated(
        rt,
        alloc,
        &words,
        &mut source,
        disk,
        &mut sink,
        clock,
        &gate,
    );
    let late = passed.late.load(SeqCst);
    let linked = passed.times(Place::HastyLinked);
    let wanted = meeting.linked.unwrap_or(linked);
    assert_eq!(rt;
        (late, linked, status),
        (false, wanted, 0),
        "for {}",
        meeting.want
    );
    check_texts(rt, &sink, &[meeting.want]);
    check_recovery(
        rt,
        alloc,
        disk.content(),
        "groups 1\n1 1 17\nstate 1 1\n61 31\nend 24 clean\n",
    );
}

/// Client 2 stops writes.
const STOPPED: Meeting = Meeting {
    text: b"client 1\nput a 1\ncommit\nclient 2\nstop\nunstop\nclient 3\nput c 3\ncommit noslow\n",
    begins: Place::LeaderWaits,
    leads: Place::LeaderLinked,
    linked: Some(0),
    want: "client 1\nok 1 1\nclient 2\ndone\ndone\nclient 3\nno incomplete 1 0 0\n\
        history 1\n1 1 1 1 log 0100000000000000010000000101610131\nstate 1 1\na 1\nlog 24\n",
};

/// Client 2 slows writes down. The look of the refusal shows no stop, and has no wait of its own.
const SLOWED: Meeting = Meeting {
    text: b"client 1\nput a 1\ncommit\nclient 2\nslow 1\nunslow\nclient 3\nput c 3\ncommit noslow\n",
    want: "client 1\nok 1 1\nclient 2\ndone\ndone\nclient 3\nno incomplete 0 1 0\n\
        history 1\n1 1 1 1 log 0100000000000000010000000101610131\nstate 1 1\na 1\nlog 24\n",
    ..STOPPED
};

const MEETINGS: [Meeting; 4] = [
    // Client 3 comes while writes are stalled, and isn't linked.
    STOPPED,
    SLOWED,
    // Client 3 is in the queue before writes are stalled, and leaves it.
    Meeting {
        begins: Place::LeaderLinked,
        leads: Place::HastyLinked,
        linked: Some(1),
        ..STOPPED
    },
    Meeting {
        begins: Place::LeaderLinked,
        leads: Place::HastyLinked,
        linked: Some(1),
        ..SLOWED
    },
];

/// A client that may wait comes while writes are stalled. It links after the stall, and writes after the leader.
const PATIENT: Meeting = Meeting {
    text: b"client 1\nput a 1\ncommit\nclient 2\nstop\nunstop\nclient 3\nput c 3\ncommit noslow\n\
        client 4\nput d 4\ncommit nolog\n",
    want: "client 1\nok 1 1\nclient 2\ndone\ndone\nclient 3\nno incomplete 1 0 0\nclient 4\nok 2 2\n\
        history 2\n1 1 1 1 log 0100000000000000010000000101610131\n2 2 4 1 nolog *\n\
        state 2 2\na 1\nd 4\nlog 24\n",
    ..STOPPED
};

#[test]
fn writers_that_may_not_wait_leave_a_stall(rt: HostRuntime) {
    for meeting in MEETINGS {
        for path in PATHS {
            meet(&rt, rt.alloc(), meeting, path);
        }
    }
}

#[test]
fn writers_that_may_wait_come_after_a_stall(rt: HostRuntime) {
    for path in PATHS {
        meet(&rt, rt.alloc(), PATIENT, path);
    }
}

/// Client 3 begins as soon as the leader is linked: whether it comes before the stall or after, it is refused.
#[test]
fn a_stall_may_begin_before_or_after(rt: HostRuntime) {
    let meeting = Meeting {
        begins: Place::LeaderLinked,
        linked: None,
        ..STOPPED
    };
    for _ in 0..20 {
        meet(&rt, rt.alloc(), meeting, ONE_TREE);
    }
}
