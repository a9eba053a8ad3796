//! The multi-version tree.

ghost use Rattle.std.specs.Prelude.{◌≡◌, ℕ, ◌≤◌, List, [], ◌∷◌, ◌++◌, drop, length, true, IfOk, if◌then◌else◌};
ghost use Rattle.std.specs.Option.{option_copied};
ghost use Rattle.model_base.specs.Map.{value_at, rows_within};
ghost use Rattle.table_rule.specs.declared.content.Version.{Version};
ghost use Rattle.table_rule.specs.Histories.{IsOrderUpTo, map_of};
ghost use Rattle.table_tree.specs.Versions.{IsNew, insert_version, AreOrdered};
ghost use Rattle.table_tree.specs.Shapes.{leaf, chains_in, versions_in, IsLow, AreLeft, IsOpenLeaf};
ghost use Rattle.table_nodes.specs.Chains.{AreKeyed};
ghost use Rattle.table_nodes.specs.Nodes.{at_key, version_of};

use crate::lookup::newest_below;
use crate::page::Page;
use crate::range::{Range, count_below, gather_below};
use crate::root::insert_below;
use base_bytes::{PairList, Rows};
use model_base::NoMemory;
use std::alloc::Global;
use std::marker::Model;
use table_nodes::{Node, Nodes};

/// Versions of keys, in the order of the keys, and of one key the newer first. They are in a B-tree with one entry for
/// each key. Contracts see the chains of the keys, the versions that are still to be put there, and how high the tree
/// is.
#[derive(Drop)]
pub struct Tree {
    root: Option<Page>,
    /// Versions that came while there was no memory for a page that they needed, in the order in which they came.
    late: Nodes,
}

impl Model for Tree {
    ghost use Rattle.table_tree.specs.Shapes.{Shape, shape_code};

    ghost Value = { Shape };

    ghost coded = { shape_code };

    ghost use Rattle.table_tree.specs.Shapes.{chains_below, height_below, IsKept};

    ghost view = { λ t. record { chains = chains_below t.root; late = t.late; height = height_below t.root } };

    ghost invariant = { λ t. IsKept t.root t.late };
}

impl Tree {
    /// No versions. This takes no memory.
    pub fn new() -> Tree
        ensures { result ≡ leaf }
    {
        Tree {
            root: None,
            late: Nodes::new(),
        }
    }

    /// Inserts a version. Its key must have no other version of this sequence. It never fails: where there is no memory
    /// for a page that is needed, the version waits next to the tree until a later one is inserted. Returns whether
    /// there was memory for all pages that were needed.
    pub fn insert(&mut self, node: Box<Node>) -> bool
        requires { IsNew (version_of node.value) (versions_in self.old) }
        ensures versions { versions_in self.new ≡ insert_version (versions_in self.old) (version_of node.value) }
        ensures ordered { AreOrdered (versions_in self.new) }
        // One entry for each key, which has all its versions that don't wait.
        ensures keyed { AreKeyed (chains_in self.new) }
        // A tree of few keys is low, so that a look-up takes few steps.
        ensures low { IsLow self.new }
        // Where there was memory none waits, or those that wait become fewer.
        ensures waiting { AreLeft result (self.old.late ++ version_of node.value ∷ []) self.new.late }
        // A version that goes into a leaf with room needs no page, so that it doesn't wait.
        ensures at_once { self.old.late ≡ [] → IsOpenLeaf self.old.height self.old.chains → result ≡ true }
        // Nor does the number of those that wait rise there.
        ensures no_more { IsOpenLeaf self.old.height self.old.chains → length self.new.late ≤ length self.old.late }
    {
        self.late.push_back(node);
        let first = self.settle();
        let second = self.settle();
        first && second
    }

    // Puts the first of the versions that wait into the tree, if there is one and there is memory. An insertion does so
    // twice, so that those that wait become fewer once there is memory again. Returns whether there was.
    fn settle(&mut self) -> bool
        ensures versions { versions_in self.new ≡ versions_in self.old }
        ensures kept { AreKeyed (chains_in self.new) × IsLow self.new }
        ensures waiting { self.new.late ≡ (if result then drop 1 self.old.late else self.old.late) }
        ensures none { self.old.late ≡ [] → result ≡ true }
        ensures at_once { IsOpenLeaf self.old.height self.old.chains → result ≡ true }
    {
        let Some(node) = self.late.pop() else {
            return true;
        };
        if let Err(node) = insert_below(&mut self.root, node) {
            self.late.push_front(node);
            return false;
        }
        true
    }

    /// The value of a family's key at a sequence, if it has one there: what the key's newest version up to the
    /// sequence says.
    pub fn lookup(&self, family: u32, key: &[u8], at: u64) -> Option<&[u8]>
        ensures { (history : List Version) → IsOrderUpTo at (versions_in self.now) history
            → option_copied result ≡ value_at (map_of history) (at_key family key.now) }
    {
        let found = newest_below(&self.root, family, key, at);
        match self.late.newest_among(found, family, key, at) {
            Some(newest) => newest.value(),
            None => None,
        }
    }

    /// The keys of a family from `lo` on and below `hi` that have a value at a sequence, with that value, in the byte
    /// order of the keys. While versions wait for memory, there is none for the rows either.
    pub fn range(
        &self,
        alloc: Global,
        family: u32,
        lo: &[u8],
        hi: &[u8],
        at: u64,
    ) -> Result<Rows, NoMemory>
        ensures at { IfOk result (λ rows. rows.at ≡ at) }
        ensures rows { IfOk result (λ rows. (history : List Version) → IsOrderUpTo at (versions_in self.now) history
            → rows.rows ≡ rows_within family lo.now hi.now (map_of history)) }
    {
        if !self.late.is_empty() {
            return Err(NoMemory);
        }
        let range = Range { family, lo, hi, at };
        // Room for a row of each key at once.
        let room = count_below(&self.root, range);
        let mut rows = PairList::from_vec(Vec::with_capacity(alloc, room)?);
        gather_below(&self.root, alloc, range, &mut rows)?;
        Ok(Rows { at, rows })
    }
}

/// The versions of any tree up to a sequence have an order in which they may have come. So the contracts of `lookup`
/// and `range` say what they answer for each tree.
pub fn orders_of_versions()
    ensures { (versions : List Version) (at : ℕ) → (order : List Version) × IsOrderUpTo at versions order }
{}
