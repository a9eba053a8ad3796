//! The nodes of several batches, one batch after another.

ghost use Rattle.std.specs.Prelude.{◌≡◌, ◌++◌, ◌<◌, ◌^◌, length};

use crate::Nodes;
use std::marker::Model;
use std::mem;

/// The nodes of a group's batches, which come one after another. Contracts see their versions in order.
///
/// A batch's nodes are reversed when the next batch comes, and once more when all are taken out, so each node is moved
/// twice at most, however many batches follow. The nodes of a batch alone are never reversed.
#[derive(Drop)]
pub struct GatheredNodes {
    /// Those of the batches before the last one, with the last node first.
    earlier: Nodes,
    /// Those of the last batch.
    last: Nodes,
}

impl Model for GatheredNodes {
    ghost use Rattle.std.specs.Prelude.{◌++◌, List, reverse};
    ghost use Rattle.table_rule.specs.declared.content.Version.{Version};

    ghost Value = { List Version };

    ghost view = { λ g. reverse g.earlier ++ g.last };
}

impl GatheredNodes {
    /// The nodes of one batch.
    pub fn of(nodes: Nodes) -> GatheredNodes
        ensures { result ≡ nodes }
    {
        GatheredNodes {
            earlier: Nodes::new(),
            last: nodes,
        }
    }

    /// Appends other nodes. This takes no memory.
    pub fn append(&mut self, other: Nodes)
        ensures { self.new ≡ self.old ++ other }
    {
        let before = mem::replace(&mut self.last, other);
        self.earlier.push_all_front(before);
    }

    /// How many there are.
    pub fn len(&self) -> u64
        requires { length self.now < 2 ^ 64 }
        ensures { result ≡ length self.now }
    {
        self.earlier.len() + self.last.len()
    }

    /// All of them, in order. This takes no memory.
    pub fn into_nodes(self) -> Nodes
        ensures { result ≡ self }
    {
        let GatheredNodes { earlier, last } = self;
        let mut nodes = last;
        nodes.push_all_front(earlier);
        nodes
    }
}
