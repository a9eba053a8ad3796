//! The pauses of one wait.

use crate::yields::Yields;
use std::cell::Cell;
use std::time::Duration;
use std::{hint, rt, thread};

/// How many pauses of a wait spin.
const SPINS: u32 = 18;

/// How many of these pauses are each twice as long as the one before. All later ones are as long as the last of them.
/// A change is seen only after the pause in which it was made: so where a pause is as long as the whole wait before it,
/// as it is if each one is twice as long, a wait takes a quarter longer than it must.
const GROWING_SPINS: u32 = 3;

/// How many pauses after the spinning ones yield the processor, at most.
const YIELDS: u32 = 20;

/// How many microseconds a wait sleeps at a time where no bell rings and yields are slow.
const NAP: u64 = 50;

/// How many pauses a wait has made, each after a check that found no change yet, and what is known of yields where it
/// waits. A slow or skipped yield counts as all yields, and pauses after the last yield aren't counted.
#[derive(Drop)]
pub struct Pauses<'a> {
    made: Cell<u32>,
    yields: &'a Yields,
}

impl<'a> Pauses<'a> {
    /// The pauses of a wait that begins.
    pub fn new(yields: &'a Yields) -> Pauses<'a> {
        Pauses {
            made: Cell::new(0),
            yields,
        }
    }

    /// Spins as long as a wait does, and then yields once, where yields are quick. It begins a wait of its own.
    pub fn spin_and_yield<R: rt::Clock>(&self, rt: &R) {
        self.made.set(0);
        // All of these pauses spin except the last one.
        for _ in 0..SPINS + 1 {
            self.pause_awake(rt);
        }
    }

    /// Pauses without sleeping: spins, or yields where yields are quick. It answers whether it has paused: the wait has
    /// done enough of both where it hasn't.
    pub fn pause_awake<R: rt::Clock>(&self, rt: &R) -> bool {
        if self.spin() {
            return true;
        }
        let made = self.made.get();
        if made >= SPINS + YIELDS {
            return false;
        }
        let first = made == SPINS;
        if first && !self.yields.is_allowed(rt) {
            self.made.set(SPINS + YIELDS);
            return false;
        }
        let quick = self.yields.try_yield(rt, first);
        self.made.set(if quick { made + 1 } else { SPINS + YIELDS });
        true
    }

    /// Pauses between two tries of a wait for which no bell rings: it spins, and then yields as long as yields are
    /// quick. While they are slow it sleeps for some microseconds.
    pub fn retry<R: rt::Clock>(&self, rt: &R) {
        if self.spin() {
            return;
        }
        if self.yields.is_allowed(rt) {
            let first = self.made.get() == SPINS;
            self.made.set(SPINS + 1);
            self.yields.try_yield(rt, first);
        } else {
            thread::sleep(rt, Duration::from_micros(NAP));
        }
    }

    /// Spins, if this is one of the pauses that spin. It answers whether it is.
    fn spin(&self) -> bool {
        let made = self.made.get();
        if made >= SPINS {
            return false;
        }
        // Each turn does nothing.
        for _ in 0..1u32 << made.min(GROWING_SPINS) {
            hint::spin_loop();
        }
        self.made.set(made + 1);
        true
    }
}
