//! A write path whose clients write in groups, over any table (`table_calls`) and any log. A write goes into a
//! lock-free list of writers. The oldest writer leads: it takes from the list the group that the grouping rule gives,
//! asks the write controller how long the group has to wait, and waits, or refuses a group that may not wait. While it
//! waits, writes are stalled: nobody links, and those that may not wait are refused where a look shows why (`stalling`,
//! `entering`). Then it gives its members runs of sequences, writes their batches to the log as one record, and puts
//! their versions into the table, which publishes them as one group. Then it answers each member, and gives the log on
//! to the next leader.
//!
//! With two stages the leader gives the log on first, and its group waits in a second list for its turn at the table,
//! in the order of the log (`leaving`, `engine_memtable`). Where the right to launch is shows whether there are two:
//! with one stage it is with the log, with two it is apart.
//!
//! A client that reads the log links like a writer, but has a group of its own: while it leads, it has the log, and
//! reads it up to what is published (`updating`). Groups that are in the log already go on into the table meanwhile.
//!
//! What a leader does without knowing the engine is in `engine_parts`. `writing` has a client's write, from the
//! outside in.
//!
//! - `specs/Meaning`: what contracts say of a table.
//! - `specs/Law`: what the log, the note and the right of a leader say of all that was handled.
//! - `specs/Clients`: an engine and its clients, and a client's account.
//! - `specs/Serving`: a leader before and after its group is handled.
//! - `specs/Stalling`: a leader that stalls writes while its group waits.
//! - `specs/Leaving`: a leader that leaves or hands its group on.
//! - `specs/AtStart`: what an engine is opened with.
//! - `specs/Turns`: the right that a leader of the second list was given.
#![tactic(auto)]

mod calls;
mod closing;
mod engine;
mod entering;
mod laws;
mod leader;
mod leading;
mod leaving;
mod opening;
mod pausing;
mod reading;
mod roles;
mod seeing;
mod stalling;
mod tokens;
mod updating;
mod writing;

pub use engine::{ClosingRoom, EngineClient, GroupEngine};
pub use engine_calls::{Clients, Closed, Receipt, Refused};
pub use leader::{EngineAtOpening, Held, Leadership, Right};
pub use opening::OpenRefused;
