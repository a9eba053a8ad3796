//! One call of `wzlog`: what the words ask for is shown of a log, on a sink; and what else a person may want to know is
//! said in sentences on a second one, standard error. No clause says anything of the sentences.
//!
//! - `call`, `status`: the call, and how it ends
//! - `numbers`: the number with which a log is read
//! - `listing`: `list` and `scan`
//! - `state`, `state_text`, `laws`: what the log recovers, and that its text is that of `recover`
//! - `sentences`, `around`: what is said at an end and at a fault
//! - `watched`: how far reading is, if it takes long
#![tactic(auto)]

mod around;
mod call;
mod laws;
mod listing;
mod numbers;
mod sentences;
mod state;
mod state_text;
mod status;
mod watched;

pub use call::show_log;
pub use laws::plain_state_is_recovered_text;
pub use sentences::{say, say_after};
pub use status::{Answer, LogEnd, Status};
pub use watched::Watched;
