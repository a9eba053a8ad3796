//! What holds of the commits of a write path that groups them, of its log and of its table, at each moment when there
//! is no leader. One leader after another handles a group: it gives its members runs, calls the log writer once,
//! publishes the versions, and answers. So all commits are in one list, in the order in which they were linked, and
//! the list shows all: the history, what each client did, what is published, and by which calls the log was written.
//!
//! - `specs/Commits`: commits with their answers, and which answers are right.
//! - `specs/Entries`: what commits make: the entries of the history, their versions, and each client's account.
//! - `specs/Plans`: how a leader gives a group its runs, and what lets the group go on.
//! - `specs/Asked`: for which groups the write controller was asked for a delay. Each group is held up as a whole, or
//!   goes on as a whole.
//! - `specs/LogCalls`: the calls of the log writer that wrote commits.
//! - `specs/LogSights`: what the answers to commits show of the log.
//! - `specs/Reading`: reads of the log, and what makes their answers right.
//! - `specs/Consistent`: how the log, the table and the answers belong together.
//!
//! Each law is a clause of a function that does nothing. Code that needs the law calls the function.
#![tactic(auto)]

mod ends;
mod groups;

pub use ends::{
    accounts_of_the_commits, accounts_of_the_reads, closings, numbers_of_commits,
    sights_of_a_client,
};
pub use groups::{groups_stay_consistent, reads_stay_right, runs_of_a_group, sights_go_on};
