//! The calls of a published table: what the members of a group and the readers ask of it, whatever it is made of. A
//! table keeps versions in trees, publishes each group of them as a whole, and answers reads as of what is published.
#![tactic(auto)]

mod finished;
mod group;
mod seats;
mod table;
mod tree;

pub use finished::Finished;
pub use group::GroupParts;
pub use seats::Seats;
pub use table::Table;
pub use tree::{VersionNode, VersionNodes, VersionTree};
