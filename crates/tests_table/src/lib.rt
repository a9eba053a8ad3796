//! Tests of what versions are kept in: the fronts of keys (`base_keys`), the memtable's tree (`table_tree`), and the
//! table of one shard and of several (`table_memory`). They are a crate of their own, so that those crates are proved
//! once, and not again with their tests. There is also an example, of the versions that batches make.
#![tactic(auto)]

mod examples;
#[cfg(test)]
mod tests;

pub use examples::parts_of_a_group;
