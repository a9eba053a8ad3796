//! What a table is made of: nodes of versions, and the trees that they are put in.
ghost use Rattle.std.specs.Prelude.{◌≡◌, ◌≢◌, List, [], ◌∷◌, IfOk, MatchOption};
ghost use Rattle.std.specs.Option.{option_copied};
ghost use Rattle.model_base.specs.Map.{value_at, rows_within};
ghost use Rattle.table_rule.specs.declared.content.Version.{Version};
ghost use Rattle.table_rule.specs.Histories.{In, IsOrderUpTo, map_of};
ghost use Rattle.table_rule.specs.Steps.{Adds};

use base_bytes::Rows;
use model_base::NoMemory;
use std::alloc::Global;
use table_rule::Versioned;

/// A node that is one version.
pub trait VersionNode {
    ghost use Rattle.table_rule.specs.declared.content.Version.{Version};

    ghost version: { Self → Version };
}

impl<Node: VersionNode> VersionNode for Box<Node> {
    ghost version = { λ n. Node.version n.value };
}

/// A member's nodes, in the order of their sequences.
pub trait VersionNodes: Versioned {
    type Node: VersionNode;

    /// Takes the first node out.
    fn pop(&mut self) -> Option<Self::Node>
        ensures { MatchOption result ((Self.versions self.old ≡ [])
            × (Self.versions self.new ≡ [])) (λ node. Self.versions self.old ≡ Self.Node.version node
            ∷ Self.versions self.new) };
}

/// An ordered tree of versions.
pub trait VersionTree<Node: VersionNode>: Versioned {
    /// A tree of no versions. This takes no memory.
    fn new() -> Self
        ensures { Self.versions result ≡ [] };

    /// Puts in a node whose sequence no other version of its key has. It never fails, also where there is no memory.
    fn insert(&mut self, node: Node)
        requires { (v : Version) → In v (Self.versions self.old) → v.key ≡ (Node.version node).key
            → v.sequence ≢ (Node.version node).sequence }
        ensures { Adds (Self.versions self.old) (Node.version node) (Self.versions self.new) };

    /// The value of a family's key as of a sequence: what it is in the map that the versions up to that sequence make.
    fn lookup(&self, family: u32, key: &[u8], at: u64) -> Option<&[u8]>
        // It is said for each list of exactly the versions up to the sequence, in an order in which sequences don't
        // fall.
        ensures { (order : List Version) → IsOrderUpTo at (Self.versions self.now) order
            → option_copied result ≡ value_at (map_of order) (record { family = family; bytes = key.now }) };

    /// The keys of a family from `lo` on and below `hi` with their values as of a sequence, in byte order.
    fn range(
        &self,
        alloc: Global,
        family: u32,
        lo: &[u8],
        hi: &[u8],
        at: u64,
    ) -> Result<Rows, NoMemory>
        ensures at { IfOk result (λ rows. rows.at ≡ at) }
        ensures rows { IfOk result (λ rows. (order : List Version) → IsOrderUpTo at (Self.versions self.now) order
            → rows.rows ≡ rows_within family lo.now hi.now (map_of order)) };
}
