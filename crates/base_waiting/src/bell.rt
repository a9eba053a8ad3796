//! A bell, on which threads sleep until it is rung.

use crate::pauses::Pauses;
use std::rt;
use std::sync::Wait;
use std::sync::atomic::AtomicU64;
use std::sync::atomic::Ordering::SeqCst;
use std::time::Duration;

/// Any number of threads may sleep on a bell.
#[derive(Drop)]
pub struct Bell {
    /// 1 from when a thread is about to sleep until the bell is rung, else 0.
    set: AtomicU64,
}

impl Bell {
    /// A bell on which no thread sleeps.
    pub fn new() -> Bell {
        Bell {
            set: AtomicU64::new(0),
        }
    }

    /// Pauses between two checks of what a thread waits for.
    pub fn pause<R: Wait + rt::Clock>(&self, rt: &R, pauses: &Pauses<'_>) {
        if pauses.pause_awake(rt) {
            return;
        }
        if self.set.load(SeqCst) == 0 {
            self.set.store(1, SeqCst);
        } else {
            self.set.park_timeout(rt, 1, Duration::from_millis(1));
        }
    }

    /// Wakes all threads that sleep on it.
    pub fn ring(&self) {
        if self.set.load(SeqCst) == 1 {
            self.set.store(0, SeqCst);
            self.set.wake_all();
        }
    }
}
