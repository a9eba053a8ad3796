//! What a run of several clients leaves in its log, and what a crash at any moment of it leaves to recover.
//!
//! - `specs/Lost`: the one group of commits whose log write failed, by the statuses of the clients' commits.
//! - `specs/Parts`: which entries each group of commits made.
//! - `specs/Groups`: what became of the groups, in the order in which their leaders led them, and what each logged.
//! - `specs/Written`: which calls of the log writer wrote the log: one for each group that is in it, and no other,
//!   except one that failed.
//! - `specs/Crashes`: a run, with how its log was written (`IsRun`); and of that run the log at its end, and each image
//!   that a crash may leave (`IsSafe`).
//! - `specs/SeveralLogs`: the same of a run over several logs, which are written one after another.
//! - `specs/Refusals`: which refusals are left where the log has no fault.
//!
//! The laws and the examples are the contracts of functions that do nothing.
#![tactic(auto)]

mod examples;
mod group_examples;
mod laws;
mod several_logs;

pub use examples::{synced_before_the_next_group, written_group_by_group};
pub use group_examples::{failed_logs_stay_failed, one_record_for_each_group};
pub use laws::{one_log_of_several, synced_groups_are_recovered};
pub use several_logs::{filled_one_after_another, held_by_several_logs, safe_before_the_next_log};
