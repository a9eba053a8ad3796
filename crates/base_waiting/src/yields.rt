//! What is known of yields: whether they are quick, or take a slice of another thread's time.

use std::sync::atomic::AtomicU64;
use std::sync::atomic::Ordering::SeqCst;
use std::{rt, thread};

/// A yield that takes this many microseconds or more is slow: another thread wanted the processor, and had it for a
/// slice of time.
const SLOW_YIELD: u64 = 200;

/// How many times as long as the first slow yield took there is no yield after it.
const FEWEST_TIMES: u64 = 8;

/// How many times as long as a slow yield took there is no yield after many of them, at most.
const MOST_TIMES: u64 = 256;

/// For how many microseconds one wait alone yields, to learn whether yields are quick again.
const PROBE: u64 = 10_000;

/// What was learned of yields, by all threads that wait in the same place. Where other programs want the processors a
/// yield may take milliseconds, and what one thread has learned of that spares the others a slow yield each.
#[derive(Drop)]
pub struct Yields {
    /// Up to this moment, in microseconds of the clock, waits make no yields. 0: yields are quick, as far as is known.
    off_until: AtomicU64,
    /// How many times as long as it took there was no yield after the last slow one, less the number of waits since
    /// then whose first yield was quick.
    learned: AtomicU64,
}

impl Yields {
    /// No yield was slow yet.
    pub fn new() -> Yields {
        Yields {
            off_until: AtomicU64::new(0),
            learned: AtomicU64::new(0),
        }
    }

    /// Whether a wait may yield: not for a while after a slow yield, and then one wait first, so that not all of them
    /// pay for another slow one. Where yields are quick the clock isn't read.
    pub fn is_allowed<R: rt::Clock>(&self, rt: &R) -> bool {
        let until = self.off_until.load(SeqCst);
        if until == 0 {
            return true;
        }
        let Some(now) = moment(rt) else {
            return false;
        };
        if now <= until {
            return false;
        }
        // Of the waits that find the time over, one goes first.
        self.off_until
            .compare_exchange(until, now.saturating_add(PROBE), SeqCst, SeqCst)
            .is_ok()
    }

    /// Learns from a yield that took this many microseconds, and ended at this moment. `first`: whether it was the
    /// first one of its wait.
    pub fn note(&self, now: u64, spent: u64, first: bool) {
        let learned = self.learned.load(SeqCst);
        if spent >= SLOW_YIELD {
            let times = learned.saturating_mul(2).clamp(FEWEST_TIMES, MOST_TIMES);
            self.learned.store(times, SeqCst);
            let off = spent.saturating_mul(times);
            self.off_until.store(now.saturating_add(off), SeqCst);
            return;
        }
        if first && learned > 0 {
            self.learned.store(learned - 1, SeqCst);
        }
        if self.off_until.load(SeqCst) > 0 {
            self.off_until.store(0, SeqCst);
        }
    }

    /// Yields, learns from it, and answers whether it was quick. If the clock can't be read, the answer is no.
    pub(crate) fn try_yield<R: rt::Clock>(&self, rt: &R, first: bool) -> bool {
        let Some(before) = moment(rt) else {
            return false;
        };
        thread::yield_now();
        let Some(after) = moment(rt) else {
            return false;
        };
        let spent = after.saturating_sub(before);
        self.note(after, spent, first);
        spent < SLOW_YIELD
    }
}

/// The clock's moment in microseconds, if the clock can be read.
fn moment<R: rt::Clock>(rt: &R) -> Option<u64> {
    match rt.monotonic() {
        Ok(since_start) => Some(u64::try_from(since_start.as_micros()).unwrap_or(u64::MAX)),
        Err(_) => None,
    }
}
