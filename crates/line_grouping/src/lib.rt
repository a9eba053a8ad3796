//! Which writers of the queue go into one group, as `WriteThread::EnterAsBatchGroupLeader` of RocksDB's
//! db/write_thread.cc chooses them. The first of the queue is the leader. The writers after it join in order, up to
//! the first one that doesn't fit:
//!
//! - a writer that goes alone joins nobody, and nobody joins it;
//! - a writer with `sync` doesn't join a leader without it, since its batch would not be synced;
//! - a writer's `no_log` and `no_slowdown` are those of the leader;
//! - the sizes, up to its own, add up to no more than the cap. The cap is `max`, but for a leader of at most an eighth
//!   of `max` it is the leader's size and an eighth of `max`, so that a small write doesn't wait for a large group.
#![tactic(auto)]

mod group;

pub use group::{fits, group_is_longest, group_len};
