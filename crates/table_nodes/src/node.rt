//! The nodes, and lists of them.

ghost use Rattle.std.specs.Prelude.{◌≡◌};
ghost use Rattle.std.specs.Option.{option_copied};
ghost use Rattle.table_nodes.specs.Nodes.{own_key, version_of, versions_at, versions_from, versions_on};

use crate::content::Content;
use crate::links::Links;
use std::alloc::Global;
use std::marker::Model;
use std::mem::size_of;

/// A version of a key of a column family: the value that it gets, or none where it is deleted, and the sequence.
///
/// It has in it the links of a list, so that it takes no memory to put it into a list. A key and a value of at most 32
/// bytes together are in the node itself, so that such a version is one allocation.
#[cycle(nodes)]
#[derive(Drop)]
pub struct Node {
    pub(crate) content: Content,
    pub(crate) sequence: u64,
    /// The nodes after it: in a list those that follow, in a tree of keys the older versions of its key.
    pub(crate) links: Links,
    /// With what it was made, for the pages of the tree that it is put in. It has no bytes.
    pub(crate) alloc: Global,
}

// One byte more would cost 16 in an allocator that gives out multiples of 16 and takes eight bytes for itself.
const _: () = prove!(size_of::<Node>() <= 72);

/// A list of nodes: those that a batch makes, or the older versions of a key. Contracts see their versions in order.
///
/// A node's children come after the node, and its next ones after those. A batch's nodes have no children. The older
/// versions of a key are trees of 1, 3, 7, .. versions (skew binary lists: Okasaki, Purely Functional Data Structures,
/// 9.3), so that a search passes a whole tree at once.
#[cycle(nodes)]
pub struct Nodes {
    pub(crate) first: Option<Box<Node>>,
}

impl Model for Nodes {
    ghost use Rattle.std.specs.Prelude.{List, ◌*◌, length};
    ghost use Rattle.table_rule.specs.declared.content.Version.{Version};
    ghost use Rattle.table_nodes.specs.Codes.{versions_code};

    ghost Value = { List Version };

    ghost coded = { versions_code };

    ghost use Rattle.table_nodes.specs.Nodes.{versions_from};

    ghost view = { λ n. versions_from n.first };

    ghost size = { λ versions. 2 * length versions };

    ghost use Rattle.std.proofs.Common.{arith, length-append};

    ghost size_decreases = { λ n h. Prim.grind (arith, length-append) };
}

impl Drop for Nodes {
    // The nodes are dropped one after another, since a list may be long. A node's children are dropped with it, so that
    // this calls itself as often as a tree is high.
    fn drop(mut self) {
        // What is left of the list is `self`.
        loop {
            match self {
                Nodes { first: None } => return,
                Nodes { first: Some(node) } => {
                    let (_children, next) = Box::into_inner(node).links.into_lists();
                    self = next;
                }
            }
        }
    }
}

impl Nodes {
    /// A list from its first node on. This takes no memory.
    pub(crate) fn begun_by(node: Box<Node>) -> Nodes
        ensures { result ≡ versions_at node.value }
    {
        Nodes { first: Some(node) }
    }

    /// The node with which the list begins, if it has one.
    pub(crate) fn into_first(self) -> Option<Box<Node>>
        ensures { versions_from result ≡ self }
    {
        let Nodes { first } = self;
        first
    }

    /// The first node, if there is one.
    pub(crate) fn first(&self) -> Option<&Node>
        ensures { versions_on (option_copied result) ≡ self.now }
    {
        match &self.first {
            Some(node) => Some(node),
            None => None,
        }
    }
}

impl Node {
    /// The number of its key's family.
    pub fn family(&self) -> u32
        ensures { result ≡ (own_key self.now).family }
    {
        self.content.family()
    }

    /// Its key.
    pub fn key(&self) -> &[u8]
        ensures { result.now ≡ (own_key self.now).bytes }
    {
        self.content.key()
    }

    /// Its sequence.
    pub fn sequence(&self) -> u64
        ensures { result ≡ (version_of self.now).sequence }
    {
        self.sequence
    }

    /// The value that its key gets, if it gets one.
    pub fn value(&self) -> Option<&[u8]>
        ensures { option_copied result ≡ (version_of self.now).value }
    {
        self.content.value()
    }

    /// With what it was made.
    pub fn alloc(&self) -> Global {
        self.alloc
    }
}
