//! The table, as a type without parameters. Contracts can't speak yet of an engine whose table has type parameters of
//! its own.
ghost use Rattle.std.specs.Prelude.{◌<◌};
ghost use Rattle.table_steps.specs.Accounts.{opening_of};

use table_nodes::Nodes;
use table_steps::SharedTable;
use table_tree::Tree;

/// A table of versions in memory, which are spread over its shards by their keys. Each shard is a tree under a lock of
/// its own.
#[derive(Drop)]
pub struct MemoryTable {
    pub(crate) steps: SharedTable<Tree, Nodes>,
    ghost some: { 0 < (opening_of steps).shards },
}
