//! The write controller on one thread: waits that were worked out by hand, and each call once.

ghost use Rattle.std.specs.Prelude.{IfSome};
ghost use Rattle.engine_controller.specs.Passes.{IsPassOf, AreNew};

use base_devices::SteppedClock;
use engine_controller::{Controller, Held, NotHeld, Pass, Passes};
use std::process::Abort;
use std::rt;
use std::rt::HostRuntime;
use std::sync::Wait;
use std::test::Fail;

type Stepped = Controller<SteppedClock>;

/// At a moment a client slows writes down to a rate, asks for bytes three times, and once more without its slow token.
#[derive(Clone, Copy)]
struct Row {
    moment: u64,
    rate: u64,
    asked: [u64; 3],
    waits: [u64; 4],
}

const ROWS: [Row; 5] = [
    // A rate of a byte a microsecond. The first delay refills a millisecond's bytes and spends 500 of these 1000. The
    // second one has the other 500 and needs 1000 more, which are owed: so the refill at 2000 moves on by a
    // millisecond. One byte more is owed at once, since no credit is left, and moves the refill on by a microsecond.
    Row {
        moment: 1000,
        rate: 1_000_000,
        asked: [500, 1500, 1],
        waits: [0, 2000, 2001, 0],
    },
    // The second delay has the other 500 of the 1000 bytes. Then no credit is left.
    Row {
        moment: 1000,
        rate: 1_000_000,
        asked: [500, 500, 1],
        waits: [0, 0, 1001, 0],
    },
    // The second delay has the other 500 bytes, and one byte more is owed.
    Row {
        moment: 1000,
        rate: 1_000_000,
        asked: [500, 501, 1],
        waits: [0, 1001, 1002, 0],
    },
    // One byte a second: a millisecond's refill is one byte. The other 16 are owed, counted from a millisecond later.
    Row {
        moment: 1000,
        rate: 1,
        asked: [17, 17, 1],
        waits: [16_001_000, 33_001_000, 34_001_000, 0],
    },
    // Moments stop at the greatest `u64`: the first delay moves the refill there, and the others find it there, with
    // no credit.
    Row {
        moment: 0,
        rate: 1,
        asked: [u64::MAX, u64::MAX, 1],
        waits: [u64::MAX, u64::MAX, u64::MAX, 0],
    },
];

// The pass of the last client.
fn last_of(controller: &Stepped, mut passes: Passes, clients: u32) -> Option<Pass>
    requires new { AreNew controller.now clients passes }
    ensures own { IfSome result (λ p. IsPassOf controller.now p) }
{
    passes.clients.pop()
}

// The passes of the last two clients, the last one's first.
fn last_two(controller: &Stepped, mut passes: Passes, clients: u32) -> Option<(Pass, Pass)>
    requires new { AreNew controller.now clients passes }
    ensures own { IfSome result (λ both. IsPassOf controller.now both.0 × IsPassOf controller.now both.1) }
{
    let last = passes.clients.pop()?;
    let other = passes.clients.pop()?;
    Some((last, other))
}

fn check_row<R: Wait + rt::Clock + Abort>(rt: &R, controller: &Stepped, pass: &mut Pass, row: &Row)
    requires own { IsPassOf controller.now pass.old }
{
    let mut clock = SteppedClock::new(row.moment);
    let slowed = controller.slow(rt, pass, row.rate, 0);
    let told = controller.delay(rt, pass, &mut clock, row.asked[0]);
    let second = controller.delay(rt, pass, &mut clock, row.asked[1]).wait();
    let third = controller.delay(rt, pass, &mut clock, row.asked[2]).wait();
    let unslowed = controller.unslow(rt, pass, 0);
    let free = controller.delay(rt, pass, &mut clock, 17).wait();
    let answers = (slowed, told.stops(), told.delays(), unslowed);
    assert_eq!(rt; answers, (Ok(()), 0, 1, Ok(())));
    assert_eq!(rt; [told.wait(), second, third, free], row.waits);
}

#[test]
fn slowed_writes_wait(rt: HostRuntime) -> Result<(), Fail> {
    for row in &ROWS {
        let (controller, passes) = Stepped::open(rt.alloc(), 1)?;
        let Some(mut pass) = last_of(&controller, passes, 1) else {
            panic!(rt; "no pass")
        };
        check_row(&rt, &controller, &mut pass, row);
    }
    Ok(())
}

#[test]
fn a_client_holds_one_stop_token(rt: HostRuntime) -> Result<(), Fail> {
    let (controller, passes) = Stepped::open(rt.alloc(), 2)?;
    let Some(mut pass) = last_of(&controller, passes, 2) else {
        panic!(rt; "no pass")
    };
    let stopped = controller.stop(&rt, &mut pass, 7);
    let stops = controller.look(&rt, &mut pass).stops();
    let again = controller.stop(&rt, &mut pass, 9);
    assert_eq!(rt; (stopped, stops, again), (Ok(()), 1, Err(Held)));
    let unstopped = controller.unstop(&rt, &mut pass, 3);
    let none = controller.unstop(&rt, &mut pass, 3);
    // The refused calls say nothing.
    let note = controller.note(&mut pass);
    let most = controller.shown_by(&note);
    assert_eq!(rt; (unstopped, none, most), (Ok(()), Err(NotHeld), 7));
    Ok(())
}

#[test]
fn who_ends_slows_no_more(rt: HostRuntime) -> Result<(), Fail> {
    let (controller, passes) = Stepped::open(rt.alloc(), 2)?;
    let Some(mut pass) = last_of(&controller, passes, 2) else {
        panic!(rt; "no pass")
    };
    let slowed = controller.slow(&rt, &mut pass, 0, 0);
    controller.end(&rt, &mut pass, 0);
    let delays = controller.look(&rt, &mut pass).delays();
    assert_eq!(rt; (slowed, delays), (Ok(()), 0));
    let note = controller.note(&mut pass);
    controller.learn(&rt, &mut pass, note);
    Ok(())
}

// Client 2 stops writes, so client 1, which asks for a delay, is told that it is held up.
#[test]
fn a_look_tells_who_was_held_up(rt: HostRuntime) -> Result<(), Fail> {
    let (controller, passes) = Stepped::open(rt.alloc(), 2)?;
    let Some((mut stopping, mut writing)) = last_two(&controller, passes, 2) else {
        panic!(rt; "no passes")
    };
    let mut clock = SteppedClock::new(1000);
    let (_, nobody) = controller.look_at_stall(&rt, &mut stopping);
    let stopped = controller.stop(&rt, &mut stopping, 0);
    let told = controller.delay(&rt, &mut writing, &mut clock, 17);
    let (look, held_up) = controller.look_at_stall(&rt, &mut stopping);
    assert_eq!(rt; (stopped, told.stops(), look.stops()), (Ok(()), 1, 1));
    assert_eq!(rt; (nobody, held_up), (0, 1));
    // Either copy of a note may be learned.
    let note = controller.note(&mut writing);
    let (one, other) = controller.copies(note);
    controller.learn(&rt, &mut stopping, one);
    controller.learn(&rt, &mut stopping, other);
    Ok(())
}

#[test]
fn opens_and_closes(rt: HostRuntime) -> Result<(), Fail> {
    let (controller, passes) = Stepped::open(rt.alloc(), 16)?;
    controller.close(&rt, passes);
    Ok(())
}

#[test]
fn who_takes_a_token_hears_what_was_said(rt: HostRuntime) -> Result<(), Fail> {
    let (controller, passes) = Stepped::open(rt.alloc(), 2)?;
    let Some((mut stopping, mut writing)) = last_two(&controller, passes, 2) else {
        panic!(rt; "no passes")
    };
    controller.say(&rt, &mut writing, 5);
    controller.say(&rt, &mut writing, 3);
    let stopped = controller.stop(&rt, &mut stopping, 7);
    let most = controller.gather(&mut stopping);
    controller.hear(&rt, &mut stopping, most);
    // Now the mark is 1, and so the next call that says something looks whether one token call is counted.
    controller.say(&rt, &mut writing, 9);
    let unstopped = controller.unstop(&rt, &mut stopping, 7);
    let later = controller.gather(&mut stopping);
    assert_eq!(rt; (stopped, most, unstopped, later), (Ok(()), 5, Ok(()), 9));
    Ok(())
}
