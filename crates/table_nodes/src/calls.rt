//! The nodes and the parts as a table calls them.

ghost use Rattle.std.specs.Prelude.{◌≡◌, ◌<◌, ◌^◌, [], ◌∷◌, length, MatchOption};

use crate::{Node, Nodes, Parts};
use table_calls::{GroupParts, VersionNode, VersionNodes};
use table_rule::Versioned;

impl Versioned for Nodes {
    ghost versions = { λ n. n };
}

impl VersionNode for Node {
    ghost use Rattle.table_nodes.specs.Nodes.{version_of};

    ghost version = { λ n. version_of n };
}

impl VersionNodes for Nodes {
    type Node = Box<Node>;

    fn pop(&mut self) -> Option<Box<Node>> {
        self.pop()
    }
}

impl GroupParts<Nodes> for Parts {
    ghost use Rattle.table_nodes.specs.Parts.{group_of};

    ghost parts = { λ p. group_of p.parts };

    ghost room = { λ p. p.clients };

    fn len(&self) -> usize {
        self.len()
    }

    fn version_count(&self) -> u64 {
        self.version_count()
    }

    fn pop(&mut self) -> Option<(u64, Nodes)> {
        let part = self.pop()?;
        Some((u64::from(part.member), part.nodes.into_nodes()))
    }
}
