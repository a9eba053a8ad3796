//! What each client of a write path can say about itself, and what follows once the write path is closed.
//!
//! Each client calls the write path in a thread of its own, and nobody sees the whole run while it goes on. So each
//! client has an account of what it did and saw. A call says how it changes its client's account. The closing says
//! that all accounts are parts of one trace. The laws of this crate say that the clients' replies are then a legal
//! outcome. They hold for any write path.
//!
//! - `specs/Sights`: what a client sees while a run goes on, and of which traces that may have been seen.
//!   `specs/Versions` has the versions of entries.
//! - `specs/Accounts`: a client's account, and what each kind of call does to it.
//! - `specs/Parts`: where each client's entries end, by the groups that made them.
//! - `specs/Closing`: what the closing says of all accounts.
//! - `specs/ClientRuns`: a client's calls one after another, and its whole run.
//! - `specs/Led`: what the current holder of the log knows of the groups that leaders took.
//! - `specs/Answered`: where a transcript shows a commit that a leader took into its group.
//!
//! Each law is a clause of a function that does nothing, in [`sights`], [`calls`], [`runs`] and [`closings`]. A proof
//! that needs a law calls its function.
#![tactic(auto)]

mod calls;
mod closings;
mod examples;
mod runs;
mod sights;

pub use calls::{
    commits_are_steps, reads_are_steps, reads_of_the_log_are_steps, refused_reads_are_steps,
    slowdowns_are_steps, stops_are_steps,
};
pub use closings::{attempts_are_shown, closed_runs_are_legal, led_groups, logs_hold_the_history};
pub use examples::{entries_of_groups, one_commit, two_in_a_group, whole_batches_alone};
pub use runs::{calls_one_after_another, runs_end};
pub use sights::{earlier_sights, sights_of_the_table, sights_of_traces};
