//! Rounds of the list on one thread, and threads that write at once.

ghost use Rattle.std.specs.Prelude.{◌≡◌, length};
ghost use Rattle.tests_line.specs.Players.{IsPlain, MayWrite, HasAsked, AllMayWrite};

mod playing;

use crate::counter::{CountLog, Nothing, Player, note, note_numbers};
use crate::items::{
    EIGHTH, HASTY, LONE, MAX, PAST_EIGHTH, PAST_REST, PLAIN, REST, SYNCED, UNLOGGED, sized,
};
use line_rule::Start;
use line_writers::Role;
use model_base::Item;
use playing::{
    Counted, ask, ask_all, closed, finish, finish_all, grouped, left, opened, taken, write_at_once,
};
use std::alloc::Global;
use std::process::Abort;
use std::rt;
use std::rt::HostRuntime;
use std::sync::{Barrier, Wait};
use std::test::Fail;

const ONE: Item = Item { size: 1, ..PLAIN };

/// What three writers ask for, one after another, and the sizes of the groups that they lead then, 0 where another one
/// leads.
#[derive(Clone, Copy)]
struct Row {
    items: [Item; 3],
    led: [usize; 3],
}

const ROWS: [Row; 10] = [
    // All three are alike.
    Row {
        items: [PLAIN, PLAIN, PLAIN],
        led: [3, 0, 0],
    },
    // The group just reaches a small leader's cap: its own 100 and an eighth of the bound.
    Row {
        items: [PLAIN, EIGHTH, ONE],
        led: [2, 0, 1],
    },
    // The group would pass a small leader's cap by one.
    Row {
        items: [PLAIN, PAST_EIGHTH, ONE],
        led: [1, 2, 0],
    },
    // The group just reaches a larger leader's cap, the bound.
    Row {
        items: [PAST_EIGHTH, REST, ONE],
        led: [2, 0, 1],
    },
    // The group would pass a larger leader's cap by one.
    Row {
        items: [PAST_EIGHTH, PAST_REST, ONE],
        led: [1, 2, 0],
    },
    // A leader without a sync takes no writer with one. A leader with a sync takes one without.
    Row {
        items: [PLAIN, SYNCED, PLAIN],
        led: [1, 2, 0],
    },
    // A plain writer, one that stays out of the log and one that doesn't wait where writes are held up: each has a
    // group of its own.
    Row {
        items: [PLAIN, UNLOGGED, HASTY],
        led: [1, 1, 1],
    },
    // Two writers with the same flags share a group.
    Row {
        items: [UNLOGGED, UNLOGGED, PLAIN],
        led: [2, 0, 1],
    },
    // A leader that goes alone takes nobody.
    Row {
        items: [LONE, PLAIN, PLAIN],
        led: [1, 2, 0],
    },
    // A writer that goes alone is taken by nobody, not even by another one that goes alone.
    Row {
        items: [PLAIN, LONE, LONE],
        led: [1, 1, 1],
    },
];

/// Another bound, which cuts the group.
const SMALL_BOUND: u64 = 250;

const CUT: Row = Row {
    items: [PLAIN, PLAIN, PLAIN],
    led: [2, 0, 1],
};

// The size of the group that a client led last, and the number and the size in its last reply.
fn told_last(player: &Player) -> Option<(usize, u64, u64)> {
    let answer = player.told.last()?;
    Some((player.led, answer.number, answer.size))
}

// Compares a client after the row whose numbers begin at `from`: the size of the group that it led last, and the
// number and the size in its last reply.
fn check_player(rt: &impl Abort, player: &Player, want: (usize, u64, u64), from: u64) {
    assert_eq!(rt; told_last(player), Some(want), "in the row from {from}");
}

// The replies in a row have the counter's numbers from `from` on, in the order in which the writers linked, and each
// has its request's own size.
fn check_row(rt: &impl Abort, players: &[Player], row: &Row, from: u64) {
    assert_eq!(rt; players.len(), 3);
    let mut number = from;
    for ((player, item), led) in players.iter().zip(&row.items).zip(&row.led) {
        check_player(rt, player, (*led, number, item.size), from);
        number = number.wrapping_add(1);
    }
}

// The three clients link one after another, and then each waits for its role.
fn play_row<R: Wait + rt::Clock + Abort>(
    rt: &R,
    list: &Counted,
    players: &mut [Player],
    row: &Row,
    from: u64,
)
    requires out { AllMayWrite list.now players.old × (length players.old ≡ 3) }
    requires plain { IsPlain list.now }
    ensures { AllMayWrite list.now players.new × (length players.new ≡ length players.old) }
{
    ask_all(rt, list, players, &row.items);
    finish_all(rt, list, players);
    check_row(rt, players, row, from);
}

#[test]
fn groups_of_three(rt: HostRuntime) {
    let alloc = rt.alloc();
    let (list, mut players) = opened(&rt, alloc, 3, MAX, ROWS.len());
    let mut from = 0u64;
    for row in &ROWS {
        play_row(&rt, &list, players.as_mut_slice(), row, from);
        from = from.wrapping_add(3);
    }
    let (log, right) = closed(&rt, alloc, list, players);
    assert_eq!(rt; (log.count, log.sum, right.mark), (30, 2361302, 7));
}

#[test]
fn a_smaller_bound_cuts_the_group(rt: HostRuntime) {
    let alloc = rt.alloc();
    let (list, mut players) = opened(&rt, alloc, 3, SMALL_BOUND, 1);
    play_row(&rt, &list, players.as_mut_slice(), &CUT, 0);
    let (log, right) = closed(&rt, alloc, list, players);
    assert_eq!(rt; (log.count, log.sum, right.mark), (3, 300, 7));
}

// The first client leads, and the newcomer links itself once the group is made.
fn lead_beside<R: Wait + rt::Clock + Abort>(
    rt: &R,
    list: &Counted,
    first: &mut Player,
    newcomer: &mut Player,
)
    requires first { HasAsked list.now first.old.writer.client first.old }
    requires newcomer { MayWrite list.now newcomer.old.writer.client newcomer.old }
    requires plain { IsPlain list.now }
    ensures first { MayWrite list.now first.old.writer.client first.new }
    ensures newcomer { HasAsked list.now newcomer.old.writer.client newcomer.new }
{
    match list.await_role(rt, &mut first.writer) {
        Role::Done(_) => panic!(rt; "the first leads"),
        Role::LogLeader(counter) => {
            grouped(list, &mut first.writer, &mut first.lists);
            ask(rt, list, &mut newcomer.writer, sized(3));
            let (answer, led) = left(list, &mut first.writer, &mut first.lists, counter);
            first.led = led;
            note(&mut first.told, answer);
        }
    }
}

const NEWCOMER: Row = Row {
    items: [
        Item { size: 1, ..PLAIN },
        Item { size: 2, ..PLAIN },
        Item { size: 3, ..PLAIN },
    ],
    led: [2, 0, 1],
};

#[test]
fn a_newcomer_leads_the_next_group(rt: HostRuntime) {
    let (list, mut players) = opened(&rt, rt.alloc(), 3, MAX, 1);
    let mut third = taken(&rt, &list, &mut players);
    let mut second = taken(&rt, &list, &mut players);
    let mut first = taken(&rt, &list, &mut players);
    ask(&rt, &list, &mut first.writer, sized(1));
    ask(&rt, &list, &mut second.writer, sized(2));
    lead_beside(&rt, &list, &mut first, &mut third);
    finish(&rt, &list, &mut third);
    finish(&rt, &list, &mut second);
    check_row(&rt, &[first, second, third], &NEWCOMER, 0);
}

// Each client got `times` replies with its own size, and each number was given once.
fn check_told(rt: &impl Abort, alloc: Global, players: &[Player], times: usize) {
    let all = players.len().wrapping_mul(times);
    let mut noted = vec![in alloc; false; all].expect(rt, "memory");
    let mut size = 0u64;
    for player in players {
        size = size.wrapping_add(1);
        assert_eq!(rt; player.told.len(), times);
        if let Err(wrong) = note_numbers(player.told.as_slice(), size, noted.as_mut_slice()) {
            panic!(rt; "{} and {} of {size}", wrong.number, wrong.size)
        }
    }
}

// Of two clients that link at once just one leads. Both are linked before a group is made, so both are in it.
#[test]
fn two_link_at_once(rt: HostRuntime) {
    let alloc = rt.alloc();
    let (list, mut players) = opened(&rt, alloc, 2, MAX, 1);
    let linked = Some(Barrier::new(2));
    write_at_once(&rt, &list, players.as_mut_slice(), 1, &linked);
    check_told(&rt, alloc, players.as_slice(), 1);
    let [one, other] = players.as_slice() else {
        panic!(rt; "not two")
    };
    let led = (one.led, other.led);
    assert!(rt; led == (0, 2) || led == (2, 0));
}

// Each client gets its own replies, each number is given once, and the log that comes back has counted all.
#[test]
fn four_write_at_once(rt: HostRuntime) {
    let alloc = rt.alloc();
    let (list, mut players) = opened(&rt, alloc, 4, MAX, 1000);
    write_at_once(&rt, &list, players.as_mut_slice(), 1000, &None);
    check_told(&rt, alloc, players.as_slice(), 1000);
    let (log, right) = closed(&rt, alloc, list, players);
    assert_eq!(rt; (log.count, log.sum, right.mark), (4000, 10000, 7));
}

// How many writers and lists an opened list for three clients has, or the log's count and sum and the right's mark,
// which come back.
fn open_three(alloc: Global) -> Result<(usize, usize), (u64, u64, u64)> {
    let start = Start {
        clients: 3,
        log: 0,
        pipelined: false,
        group_bytes: MAX,
        about: 0,
    };
    let counter = CountLog { count: 5, sum: 6 };
    match Counted::open(alloc, &start, counter, Nothing { mark: 7 }) {
        Ok((_list, writers, lists)) => Ok((writers.len(), lists.len())),
        Err((log, right)) => Err((log.count, log.sum, right.mark)),
    }
}

// The log and the right come back where memory is short: `tests/fail_alloc` makes each allocation fail in turn, and
// reads what this prints.
#[test]
fn open_gives_back(rt: HostRuntime) -> Result<(), Fail> {
    let text = match open_three(rt.alloc()) {
        Ok(counts) => {
            assert_eq!(rt; counts, (3, 3));
            "opened"
        }
        Err(back) => {
            assert_eq!(rt; back, (5, 6, 7));
            "given back"
        }
    };
    println!(rt; "open: {text}")?;
    Ok(())
}
