//! The write path as a machine of events in one thread: which event may come, and what it does. It replays a schedule
//! of events, and says which replies each client gets, which batches are in the history, and which of them the log
//! has.
//!
//! Clients run their plans. A commit links its batch into the queue; the first writer of the queue leads, and takes a
//! group out of the queue; the group is logged, gets its runs of sequences, is inserted into the memtable by its
//! members, and is published once they all have finished. With `pipelined` the log is handed on before the insertion
//! (RocksDB wiki, "Pipelined Write"). The table of events is `step` of model_core's `specs/Step.antt`.
//!
//! All memory is reserved at the start, so no event takes any: a batch is a range of lines of its client's plan.
#![tactic(auto)]

mod accessors;
mod clients;
mod laws;
mod leaving;
mod log;
mod marks;
mod opening;
mod ordinals;
mod phases;
mod room;
mod runs;
mod seats;
mod stalling;
mod state;
mod step;
mod table;
mod writer;

pub use laws::one_state;
pub use replay_plans::{ClientPlan, Lines, are_small};
pub use state::{CoreOptions, State};
pub use step::{Counts, replay};
pub use writer::CoreReply;
