//! The write controller: clients stop or slow all writes, and a client that writes asks how long to wait. It follows
//! the plan of RocksDB's `db/write_controller.cc` (RocksDB wiki, "Write Stalls"); the equations are those of
//! `model_base`, in `specs/Controller.antt`.
//!
//! Each client may hold a stop token and a slow token. A slow token comes with a rate in bytes a second. While any
//! client holds a stop token, writes are stopped; while any client holds a slow token, they are slowed down: a client
//! that writes spends a credit of bytes, and waits where the credit isn't enough. The credit is refilled with time, at
//! the rate of the token that was taken last. The controller itself makes no client wait: it answers how long, and the
//! client that writes waits.
//!
//! The controller is eight words, which change together. The first five are the equations' numbers:
//!
//! | word | what it is |
//! |---|---|
//! | `stops` | how many clients hold a stop token |
//! | `delays` | how many clients hold a slow token |
//! | `rate` | bytes a second, at least 1 |
//! | `credit` | bytes that may be written with no wait |
//! | `next` | the moment of the next refill, in microseconds; 0: none is set |
//! | `held_up` | the client that was the last one to learn, by its `delay`, that writes are held up; 0: none did |
//! | `shown` | up to which sequence clients had been shown what is published, as they took or gave back tokens |
//! | `tokens` | how many calls took a token or gave one back |
//!
//! | call | what it does |
//! |---|---|
//! | `open` | a controller for 1 to 64 clients, with a pass for each |
//! | `stop`, `unstop` | takes the client's stop token; gives it back |
//! | `slow`, `unslow` | takes the client's slow token, with a rate; gives it back |
//! | `end` | gives back the tokens that the client holds |
//! | `delay` | how long some bytes have to wait, by a clock where writes are stopped or slowed, and the token counts |
//! | `look` | the counts of tokens |
//! | `look_at_stall` | the same, and which client was the last one to learn that writes are held up |
//! | `note`, `copies`, `learn` | carry what one pass has seen to another, and make no call |
//! | `shown_by` | how far clients had been shown what is published as they made the token calls that a note shows |
//! | `say` | tells those who make a token call later up to which sequence a client had been shown what is published |
//! | `gather`, `hear` | after a token call: what was said up to it; and that the client has been shown as much |
//! | `close` | takes all passes back |
//!
//! Calls of several threads follow one another in one history, and each call's answer is the one that the equations
//! give at its place. A client makes its calls with its pass, which knows the history as far as it has seen it. What a
//! call promises is how that history goes on: by calls of others, and then by this call. At closing there is one
//! history, and what each pass has seen is a beginning of it, with all of the pass's own calls.
#![tactic(auto)]

mod asking;
mod controller;
mod error;
mod laws;
mod look;
mod numbers;
mod opening;
mod pass;
mod rule;
mod saying;
mod tokens;
mod words;

pub use controller::Controller;
pub use error::{Held, NotHeld};
pub use laws::{
    asking_a_stopped_controller_changes_nothing, calls_of_others, delays_of_all_clients, own_calls,
};
pub use look::Look;
pub use pass::{Note, Others, Pass, Passes};
