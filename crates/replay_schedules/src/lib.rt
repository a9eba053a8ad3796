//! A schedule of events, run on the core of its script's clients: the replies that each client gets, the one history
//! of their batches, and the maps that these make: the published one, and the one of each read.
#![tactic(auto)]

mod answers;
mod history;
mod maps;
mod plans;
mod reading;
mod records;
mod replaying;
mod replies;

pub use maps::{batch_lines, map, map_at};
pub use reading::MapUpTo;
pub use replaying::{Replayed, replay_schedule};
