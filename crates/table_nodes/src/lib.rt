//! The nodes of the memtable: each is a version of a key, and has in it what a list of nodes and the chain of its key's
//! versions need. Batches make them, the members of a write group hand them on, and trees keep them (RocksDB wiki,
//! "MemTable").
#![tactic(auto)]

mod calls;
mod chain;
mod content;
mod gathered;
mod links;
mod node;
mod nodes;
mod parts;

pub use gathered::GatheredNodes;
pub use node::{Node, Nodes};
pub use parts::{MemberNodes, Parts};
