//! The second stage of a pipelined write path: a logged group goes into the table. The group's leader launches the
//! group, with its own part and perhaps one for each other member that has a run, and asks these members to work in
//! parallel with it. Each of them takes its own part with its own seat, puts it into the table, and finishes. The one
//! that finishes last publishes the whole group. The leader waits for that, and then has the right to launch again.
#![tactic(auto)]

mod leading;
mod working;

pub use leading::{await_group, lead};
pub use working::work;
