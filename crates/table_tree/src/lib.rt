//! The memtable's multi-version tree: each version of a key stays, and a read sees those up to a sequence
//! (RocksDB wiki, "MemTable" and "Snapshot").
//!
//! It is a B-tree of keys (Bayer and McCreight, 1972). A page has up to 31 entries in the order of their keys, and
//! where it isn't a leaf, a page below on each side of each entry. All leaves are at the same depth, and each page but
//! the root is at least half full. An entry has the first bytes of its key and the node of the key's newest version, in
//! whose list the older ones are. So a search reads pages, and hardly any nodes besides the one that it finds.
#![tactic(auto)]

mod calls;
mod entry;
mod insertion;
mod lookup;
mod page;
mod places;
mod range;
mod root;
mod splitting;
mod tree;

pub use tree::{Tree, orders_of_versions};
