//! The published table in memory: one shard or more, each a tree under a lock of its own. It is the table of
//! `table_rule` with as many shards as it was opened for.
//!
//! A checksum of a key and its column family says of which shard the key is. A read, of one key, of several or of a
//! range, shows all that is published up to one sequence, whatever shards and families its keys are of: the published
//! sequence is loaded before the first look-up, and each tree is read as of it. A scan's rows are in byte order. The
//! nodes of a part go into their trees in the order of their sequences, each run of one shard under one hold of its
//! lock, so that members of a group insert in parallel, and none sees the group before it is published.
//!
//! With one shard no key is hashed, a part goes in whole under one hold of the lock, and a scan's rows are the tree's.
#![tactic(auto)]

mod calls;
mod insertion;
mod memory_table;
mod opening;
mod reading;
mod scanning;

pub use memory_table::MemoryTable;
