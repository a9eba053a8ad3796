//! The system's clock.

ghost use Rattle.std.specs.Prelude.{◌≡◌, None};

use crate::Clock;
use std::time::Duration;
use std::{rt, thread};

/// The system's monotonic clock, in microseconds from a start that the system chooses. It tells no moments but those
/// that it has answered, and counts what it was asked to let pass.
#[derive(Drop)]
pub struct RealClock<R: Drop> {
    runtime: R,
    answered: Option<u64>,
    paused: u64,
}

impl<R: rt::Clock + Drop> RealClock<R> {
    ghost use Rattle.base_devices.specs.RealClock.{real_answered, real_paused};

    /// The clock of this runtime, which has answered no moment yet, and wasn't asked to pause.
    pub fn new(runtime: R) -> Self
        ensures answered { real_answered result ≡ None }
        ensures paused { real_paused result ≡ 0 }
    {
        RealClock {
            runtime,
            answered: None,
            paused: 0,
        }
    }
}

impl<R: rt::Clock + Drop> Clock for RealClock<R> {
    ghost use Rattle.base_devices.specs.RealClock.{real_answered, real_paused};

    ghost last = { real_answered };

    ghost paused = { real_paused };

    /// If the clock can't be read, it answers the last moment again, and 0 if there is none. Past the greatest `u64` it
    /// doesn't move on.
    fn now(&mut self) -> u64 {
        let moment = match self.runtime.monotonic() {
            Ok(since_start) => u64::try_from(since_start.as_micros()).unwrap_or(u64::MAX),
            Err(_) => self.answered.unwrap_or(0),
        };
        self.answered = Some(moment);
        moment
    }

    /// It sleeps.
    fn pause(&mut self, micros: u64) {
        self.paused = self.paused.saturating_add(micros);
        thread::sleep(&self.runtime, Duration::from_micros(micros));
    }
}
