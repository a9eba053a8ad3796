//! The answer that a caller gets.

ghost use Rattle.std.specs.Prelude.{◌≡◌};
ghost use Rattle.engine_controller.specs.Looks.{look_of};

/// The controller's answer to `delay` and `look`. Only these two make one.
#[derive(Clone, Copy, Debug, PartialEq, Eq)]
pub struct Look {
    stops: u64,
    delays: u64,
    wait: u64,
}

impl Look {
    pub(crate) fn new(stops: u64, delays: u64, wait: u64) -> Look
        ensures { look_of result ≡ record { stops = stops; delays = delays; wait = wait } }
    {
        Look {
            stops,
            delays,
            wait,
        }
    }

    /// How many clients hold a stop token.
    pub fn stops(&self) -> u64
        ensures { result ≡ (look_of self.now).stops }
    {
        self.stops
    }

    /// How many clients hold a slow token.
    pub fn delays(&self) -> u64
        ensures { result ≡ (look_of self.now).delays }
    {
        self.delays
    }

    /// How long to wait, in microseconds. For a `look` it is 0.
    pub fn wait(&self) -> u64
        ensures { result ≡ (look_of self.now).wait }
    {
        self.wait
    }
}
