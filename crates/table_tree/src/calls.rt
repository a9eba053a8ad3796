//! The tree as a table calls it.

ghost use Rattle.std.specs.Prelude.{◌≡◌, ◌≢◌, [], IfOk};
ghost use Rattle.std.specs.Option.{option_copied};
ghost use Rattle.model_base.specs.Map.{value_at, rows_within};
ghost use Rattle.table_rule.specs.declared.content.Version.{Version};
ghost use Rattle.table_rule.specs.Histories.{In, IsOrderUpTo, map_of};
ghost use Rattle.table_rule.specs.Steps.{Adds};

use crate::Tree;
use base_bytes::Rows;
use model_base::NoMemory;
use std::alloc::Global;
use table_calls::VersionTree;
use table_nodes::Node;
use table_rule::Versioned;

impl Versioned for Tree {
    ghost use Rattle.table_tree.specs.Shapes.{versions_in};

    ghost versions = { λ t. versions_in t };
}

impl VersionTree<Box<Node>> for Tree {
    fn new() -> Tree {
        Tree::new()
    }

    fn insert(&mut self, node: Box<Node>) {
        self.insert(node);
    }

    fn lookup(&self, family: u32, key: &[u8], at: u64) -> Option<&[u8]> {
        self.lookup(family, key, at)
    }

    fn range(
        &self,
        alloc: Global,
        family: u32,
        lo: &[u8],
        hi: &[u8],
        at: u64,
    ) -> Result<Rows, NoMemory> {
        self.range(alloc, family, lo, hi, at)
    }
}
