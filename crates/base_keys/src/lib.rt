//! The first bytes of keys. A search compares one key with many others, and most keys differ in their first bytes. So
//! the first 16 bytes of a key, its front, are kept in place, filled up with zeros if the key is shorter, and two
//! fronts are compared as two numbers each, in which the first byte counts most.
//!
//! Two keys whose fronts differ compare as these do. Where the fronts are the same, the caller compares the keys. The
//! order is byte order, as that of RocksDB's `BytewiseComparator`.
#![tactic(auto)]

mod front;

pub use front::Front;
