//! What holds of the commits of a write path that publishes its groups in a stage of its own, separate from logging
//! them. One leader after another logs a group and gives the log on. Then the groups' versions go into the table one
//! after another, in the order in which they were logged, while the next groups are logged. The right to publish
//! covers exactly those commits that were given runs and whose groups are published.
//!
//! - `specs/Served`: which commits are published, what it is that no group is published in two pieces, and the parts of
//!   a group.
//!
//! Each law is a clause of a function that does nothing. Code that needs the law calls the function.
#![tactic(auto)]

mod served;

pub use served::{groups_are_published_at_once, groups_are_served, parts_of_a_group};
