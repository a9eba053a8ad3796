//! The controller's five numbers, and how each call changes them, by the equations of `model_base`. Next to them are
//! which client was the last one to learn that writes are held up, what clients had been shown as they took tokens or
//! gave them back, and how many such calls there were.

ghost use Rattle.std.specs.Prelude.{◌≡◌, ◌+◌, ◌<◌, ◌≤◌, ◌^◌, max, if◌then◌else◌};
ghost use Rattle.model_base.specs.Controller.{numbers_after, after_slow, after_delay, after_debt, after_refill, after_payment, at_most_u64};
ghost use Rattle.engine_controller.specs.Numbers.{numbers_of, action_of, wait_after, held_up_after, shown_after, token_weight};

use crossbeam_utils::atomic::seq_cell::Words;

/// How many microseconds a second has. A rate is bytes a second.
const SECOND: u64 = 1_000_000;

/// The least wait, and the time between two refills, in microseconds.
const MILLISECOND: u64 = 1_000;

/// The numbers. For a controller that was just opened the rate is 1, and all others are 0.
#[derive(Clone, Copy, Debug, PartialEq, Eq)]
pub struct Numbers {
    /// How many clients hold a stop token.
    pub stops: u64,
    /// How many clients hold a slow token.
    pub delays: u64,
    /// Bytes a second, at least 1.
    pub rate: u64,
    /// Bytes that may be written with no wait.
    pub credit: u64,
    /// The moment of the next refill, in microseconds. 0: none is set.
    pub next: u64,
    /// The client that was the last one to learn, by its delay, that writes are held up. 0: none did. No other number
    /// depends on it: it is what a client learns that meets a stall.
    pub held_up: u64,
    /// The greatest number of the calls that took a token or gave one back: the clients that made them had been shown
    /// what is published up to no further than that. No other number depends on it.
    pub shown: u64,
    /// How many calls took a token or gave one back. No other number depends on it.
    pub tokens: u64,
}

impl Words<8> for Numbers {
    ghost use Rattle.engine_controller.specs.Numbers.{words_of};

    ghost words = { words_of };

    fn to_words(self) -> [u64; 8] {
        [
            self.stops,
            self.delays,
            self.rate,
            self.credit,
            self.next,
            self.held_up,
            self.shown,
            self.tokens,
        ]
    }

    fn from_words(bits: &[u64; 8]) -> Numbers {
        Numbers {
            stops: bits[0],
            delays: bits[1],
            rate: bits[2],
            credit: bits[3],
            next: bits[4],
            held_up: bits[5],
            shown: bits[6],
            tokens: bits[7],
        }
    }
}

/// A call of the controller: a token is taken or given back, by a client that had been shown no more than what is
/// published up to a sequence; a group of some bytes asks at some moment how long to wait; or the numbers are read.
#[derive(Clone, Copy, Debug, PartialEq, Eq)]
pub enum Action {
    Stop { shown: u64 },
    Unstop { shown: u64 },
    Slow { rate: u64, shown: u64 },
    Unslow { shown: u64 },
    Delay { now: u64, bytes: u64 },
    Look,
    /// What the client, or those for whose group it asks next, had been shown; and the mark that it found on the board
    /// once it had said so there.
    Say { shown: u64, marked: u64 },
    /// Up to which sequence the client has seen what is published, after a token call of its own.
    Hear { most: u64 },
}

impl Numbers {
    /// The numbers of a controller that was just opened.
    pub const OPENING: Numbers = Numbers {
        stops: 0,
        delays: 0,
        rate: 1,
        credit: 0,
        next: 0,
        held_up: 0,
        shown: 0,
        tokens: 0,
    };

    /// The numbers after a call of this client, and the wait that it answers, in microseconds.
    pub fn after(self, client: u64, action: Action) -> (Numbers, u64)
        requires rate { 1 ≤ self.rate }
        requires room { (self.stops + 1 < 2 ^ 64) × (self.delays + 1 < 2 ^ 64) × (self.tokens + 1 < 2 ^ 64) }
        ensures numbers { numbers_of result.0 ≡ numbers_after (numbers_of self) (action_of action) }
        ensures held_up { result.0.held_up
            ≡ held_up_after client self.held_up (numbers_of self) (action_of action) }
        ensures shown { result.0.shown ≡ shown_after self.shown (action_of action) }
        ensures tokens { result.0.tokens ≡ self.tokens + token_weight (action_of action) }
        ensures wait { result.1 ≡ wait_after (numbers_of self) (action_of action) }
    {
        let numbers = match action {
            Action::Stop { shown } => Numbers {
                stops: self.stops + 1,
                ..self.with_token_call(shown)
            },
            Action::Unstop { shown } => Numbers {
                stops: self.stops.saturating_sub(1),
                ..self.with_token_call(shown)
            },
            Action::Slow { rate, shown } => self.after_slow(rate).with_token_call(shown),
            Action::Unslow { shown } => Numbers {
                delays: self.delays.saturating_sub(1),
                ..self.with_token_call(shown)
            },
            Action::Delay { now, bytes } => {
                let (after, wait) = self.after_delay(now, bytes);
                let told = self.stops > 0 || (self.delays > 0 && wait > 0);
                return (after.with_held_up(client, told), wait);
            }
            Action::Look | Action::Say { .. } | Action::Hear { .. } => self,
        };
        (numbers, 0)
    }

    // The numbers once a call has taken a token or given one back, whose client had been shown what is published up to
    // no further than `shown`.
    fn with_token_call(self, shown: u64) -> Numbers
        requires { self.tokens + 1 < 2 ^ 64 }
        ensures { result ≡ record self { shown = max self.shown shown; tokens = self.tokens + 1 } }
    {
        Numbers {
            shown: self.shown.max(shown),
            tokens: self.tokens + 1,
            ..self
        }
    }

    // The numbers once this client has learned that writes are held up, if it has.
    fn with_held_up(self, client: u64, told: bool) -> Numbers
        ensures numbers { numbers_of result ≡ numbers_of self }
        ensures held_up { result.held_up ≡ (if told then client else self.held_up) }
        ensures others { (result.shown ≡ self.shown) × (result.tokens ≡ self.tokens) }
    {
        if told {
            Numbers {
                held_up: client,
                ..self
            }
        } else {
            self
        }
    }

    // The first slow token begins with no credit and no refill set.
    fn after_slow(self, rate: u64) -> Numbers
        requires { self.delays + 1 < 2 ^ 64 }
        ensures numbers { numbers_of result ≡ after_slow (numbers_of self) rate }
        ensures others { (result.held_up ≡ self.held_up) × (result.shown ≡ self.shown) × (result.tokens ≡ self.tokens) }
    {
        let fresh = if self.delays == 0 {
            Numbers {
                credit: 0,
                next: 0,
                ..self
            }
        } else {
            self
        };
        Numbers {
            delays: fresh.delays + 1,
            rate: rate.max(1),
            ..fresh
        }
    }

    fn after_delay(self, now: u64, bytes: u64) -> (Numbers, u64)
        requires { 1 ≤ self.rate }
        ensures numbers { numbers_of result.0 ≡ (after_delay (numbers_of self) now bytes).numbers }
        ensures others { (result.0.held_up ≡ self.held_up) × (result.0.shown ≡ self.shown)
            × (result.0.tokens ≡ self.tokens) }
        ensures wait { result.1 ≡ (after_delay (numbers_of self) now bytes).wait }
    {
        if self.stops > 0 || self.delays == 0 {
            return (self, 0);
        }
        if bytes <= self.credit {
            return self.after_payment(now, bytes);
        }
        let started = if self.next == 0 {
            Numbers { next: now, ..self }
        } else {
            self
        };
        if started.next <= now {
            started.after_refill(now).after_payment(now, bytes)
        } else {
            started.after_debt(now, bytes)
        }
    }

    // A refill is due: it adds the credit of the time since the moment `next`, and of a millisecond more.
    fn after_refill(self, now: u64) -> Numbers
        requires { self.next ≤ now }
        ensures numbers { numbers_of result ≡ after_refill (numbers_of self) now }
        ensures rate { result.rate ≡ self.rate }
        ensures others { (result.held_up ≡ self.held_up) × (result.shown ≡ self.shown) × (result.tokens ≡ self.tokens) }
    {
        let elapsed = (now - self.next).saturating_add(MILLISECOND);
        let allowed = (u128::from(elapsed) * u128::from(self.rate)).div_ceil(u128::from(SECOND));
        Numbers {
            credit: self.credit.saturating_add(saturated(allowed)),
            next: now.saturating_add(MILLISECOND),
            ..self
        }
    }

    fn after_payment(self, now: u64, bytes: u64) -> (Numbers, u64)
        requires { 1 ≤ self.rate }
        ensures numbers { numbers_of result.0 ≡ (after_payment (numbers_of self) now bytes).numbers }
        ensures others { (result.0.held_up ≡ self.held_up) × (result.0.shown ≡ self.shown)
            × (result.0.tokens ≡ self.tokens) }
        ensures wait { result.1 ≡ (after_payment (numbers_of self) now bytes).wait }
    {
        if bytes > self.credit {
            return self.after_debt(now, bytes);
        }
        let left = Numbers {
            credit: self.credit - bytes,
            ..self
        };
        (left, 0)
    }

    // The bytes that the credit doesn't cover are owed: the next refill is later by the time that these bytes take.
    fn after_debt(self, now: u64, bytes: u64) -> (Numbers, u64)
        requires { 1 ≤ self.rate }
        ensures numbers { numbers_of result.0 ≡ (after_debt (numbers_of self) now bytes).numbers }
        ensures others { (result.0.held_up ≡ self.held_up) × (result.0.shown ≡ self.shown)
            × (result.0.tokens ≡ self.tokens) }
        ensures wait { result.1 ≡ (after_debt (numbers_of self) now bytes).wait }
    {
        let owed = u128::from(bytes.saturating_sub(self.credit));
        let time = owed * u128::from(SECOND) / u128::from(self.rate);
        let next = self.next.saturating_add(saturated(time));
        let after = Numbers {
            credit: 0,
            next,
            ..self
        };
        (after, next.saturating_sub(now).max(MILLISECOND))
    }
}

// The number, or the greatest `u64` where it is above that.
fn saturated(number: u128) -> u64
    ensures { result ≡ at_most_u64 number }
{
    u64::try_from(number).unwrap_or(u64::MAX)
}
