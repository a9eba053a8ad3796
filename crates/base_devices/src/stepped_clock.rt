//! A clock that moves only when `pause` moves it.

ghost use Rattle.std.specs.Prelude.{◌≡◌, ◌+◌, ◌^◌, ◌-◌, min, Some, None};
ghost use Rattle.base_devices.specs.Clocks.{paused_after};

use crate::Clock;

/// A clock for tests: it stays at a moment until `pause` moves it on.
#[derive(Clone, Copy, Debug, PartialEq, Eq)]
pub struct SteppedClock {
    at: u64,
    answered: Option<u64>,
    paused: u64,
}

impl SteppedClock {
    ghost use Rattle.base_devices.specs.SteppedClock.{clock_at, clock_answered, clock_paused};

    /// A clock at this moment, in microseconds, that has answered none yet, and that wasn't asked to pause.
    pub fn new(at: u64) -> Self
        ensures at { clock_at result ≡ at }
        ensures answered { clock_answered result ≡ None }
        ensures paused { clock_paused result ≡ 0 }
    {
        SteppedClock {
            at,
            answered: None,
            paused: 0,
        }
    }

    /// How many microseconds it was asked to let pass, or the greatest `u64` where they are more.
    pub fn paused(&self) -> u64
        ensures { result ≡ clock_paused self.now }
    {
        self.paused
    }
}

impl Clock for SteppedClock {
    ghost use Rattle.base_devices.specs.SteppedClock.{clock_at, clock_answered, clock_paused};

    ghost last = { clock_answered };

    ghost paused = { clock_paused };

    /// The moment that it is set to, which stays until a pause.
    fn now(&mut self) -> u64
        ensures moment { result ≡ clock_at self.old }
        ensures last { clock_answered self.new ≡ Some result }
        ensures stands { clock_at self.new ≡ clock_at self.old }
        ensures pauses_none { clock_paused self.new ≡ clock_paused self.old }
    {
        self.answered = Some(self.at);
        self.at
    }

    /// Past the greatest `u64` it doesn't move on.
    fn pause(&mut self, micros: u64)
        ensures moves { clock_at self.new ≡ min (clock_at self.old + micros) (2 ^ 64 - 1) }
        ensures last { clock_answered self.new ≡ clock_answered self.old }
        ensures counted { clock_paused self.new ≡ paused_after (clock_paused self.old) micros }
    {
        self.at = self.at.saturating_add(micros);
        self.paused = self.paused.saturating_add(micros);
    }
}
