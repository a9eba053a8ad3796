//! Laws of legal outcomes: what all outcomes of one generated script have in common, when a commit is accepted, when a
//! read of the log gives its records, and what reads see of a history of whole batches.
//!
//! Each is the contract of a function that does nothing: a proof that needs the law calls the function.
#![tactic(auto)]

mod commits;
mod reads;
mod summaries;
mod updates;

pub use commits::commits_are_accepted;
pub use reads::reads_see_whole_batches;
pub use summaries::summaries_are_one;
pub use updates::updates_are_given;
