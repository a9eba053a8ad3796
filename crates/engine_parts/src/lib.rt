//! The work of a group's leader that needs no engine: what a client asks of the leader and what the leader answers
//! (`requests`), the envelope in which both travel (`envelope`), what the leader asks the write controller for its
//! group (`asking`), how it gives the members their runs (`numbering`, `layout`), and how it writes their batches to
//! the log as one record (`logging`), or reads it (`log_reading`).
//!
//! - `specs/Letters`: what is in an envelope.
//! - `specs/Items`, `Runs`: what the list of writers sees of requests and answers.
//! - `specs/Handled`: requests that were handled, as commits of `engine_rule`.
//! - `specs/Asking`: how a leader's view of the write controller goes on, and what it says there.
//! - `specs/Numbering`, `Layout`: what a leader lays out while it gives runs, and its answers.
//! - `specs/Led`, `Staged`: the group that a leader has in hand, before and after it is logged.
//! - `specs/ReadAnswers`: what a leader answers itself that reads the log.
//! - `specs/Logs`: what the log shows, whatever it is made of.
//! - `specs/Places`: from which places on a log may be read.
//! - `specs/LogLaw`: what the log covers.
#![tactic(auto)]

mod asking;
mod envelope;
mod layout;
mod log;
mod log_reading;
mod logging;
mod numbering;
mod requests;

pub use asking::{
    ask, drop_if_stalled, holds_writes_up, may_proceed, note_all, refuse_held_up, refused_by,
    turn_away_if_stalled,
};
pub use envelope::{Envelope, SealedAnswer, SealedRequest};
pub use layout::Layout;
pub use log::OpenLog;
pub use log_reading::read_phase;
pub use logging::{LogPath, log_phase};
pub use numbering::{Numbering, may_be_apart, take_first};
pub use requests::{Answer, Delay, Request};
