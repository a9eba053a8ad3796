//! The calls of a write path that many clients share, whatever it is made of: what a client writes and reads, and how
//! the whole is closed. What they promise is said for each client's account (`model_accounts`), and for all accounts
//! at the closing.
//!
//! A client belongs to one thread at a time, and each call is made with a client. No call names another client.
#![tactic(auto)]

mod answers;
mod engine;
mod gate;

pub use answers::{Closed, Receipt, Refused, Since, SinceRefused};
pub use engine::{Clients, Engine};
pub use engine_controller::{Held, NotHeld};
pub use gate::{Gate, OpenGate};
