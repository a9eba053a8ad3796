//! The numbers of a seed, made by a linear congruential generator. The first number from a state `x` on is that of the
//! state `(x * 1103515245 + 12345) mod 2^31`. The number of a state `x` is `x / 65536`, so it is below 32,768.

ghost use Rattle.std.specs.Prelude.{◌<◌, ◌^◌};

/// How many states there are, `2^31`.
const STATES: u64 = 2_147_483_648;

const FACTOR: u64 = 1_103_515_245;

const INCREMENT: u64 = 12_345;

/// How many values the low bits of a state have. They are no part of the state's number.
const LOW: u64 = 65_536;

/// The numbers that are drawn from some moment on.
#[derive(Drop)]
pub struct Draws {
    /// The state. A draw first makes the next state from it, and then gives that state's number.
    pub state: u64,
    ghost below: { state < 2 ^ 31 },
}

impl Draws {
    ghost use Rattle.std.specs.Prelude.{◌≡◌, ◌%◌, ◌^◌};
    ghost use Rattle.model_base.specs.Generator.{next_state, number_at, first_state};

    /// All draws of a seed, from the first on.
    pub fn of_seed(seed: u64) -> Draws
        ensures { result.state ≡ seed % 2 ^ 31 }
    {
        Draws {
            state: seed % STATES,
        }
    }

    /// All draws of a client, from the first on.
    pub fn of_client(seed: u64, client: u32) -> Draws
        ensures { result.state ≡ first_state seed client }
    {
        Draws {
            state: (seed % STATES + u64::from(client)) % STATES,
        }
    }

    /// The next number.
    pub fn next(&mut self) -> u64
        ensures state { self.new.state ≡ next_state self.old.state }
        // The definition gives the number for each seed, so a script can be made again from its seed.
        ensures number { result ≡ number_at self.new.state }
    {
        self.state = (self.state * FACTOR + INCREMENT) % STATES;
        self.state / LOW
    }
}
