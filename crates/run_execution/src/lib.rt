//! A run of a script: its clients, each in a thread of its own, over the write path of a disk's log.
//!
//! [`execute`] opens the log, anew or after what it recovers, and runs all clients over it. It gives back the disk, and
//! says how the run ended ([`RunEnd`]). [`execute_set`] does the same over a new set of logs, one on each of several
//! disks. However the threads interleave, the outcome is legal, and the log holds its logged batches; a crash at any
//! moment leaves a prefix of them to recover, unless a checksum matches by chance (`specs/Ends`, which uses the
//! definitions of `model_runs` and `run_outcome`).
#![tactic(auto)]

mod end;
mod laws;
mod opening;
mod over_log;
mod running;
mod setup;
mod shared_gate;

pub use end::RunEnd;
pub use running::{execute, execute_set};
pub use setup::{Host, Setup};
