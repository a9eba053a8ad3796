//! How the table is made.
ghost use Rattle.std.specs.Prelude.{◌≡◌, ℕ, ◌<◌, ◌≤◌, List, [], length, IfOk, OnOk};
ghost use Rattle.table_rule.specs.Histories.{versions_at};
ghost use Rattle.table_tree.specs.Shapes.{Shape, leaf, versions_in};
ghost use Rattle.table_steps.specs.Ends.{BearBase};
ghost use Rattle.table_memory.specs.Meaning.{opening_of, IsTurnAtStart, AreSeatsAtStart, AreLeaves};

use crate::memory_table::MemoryTable;
use crate::reading::shard_of;
use base_maps::FamilyMap;
use model_base::NoMemory;
use std::alloc::Global;
use std::marker::Brand;
use table_calls::Seats;
use table_nodes::{Node, Nodes};
use table_rule::{Base, VersionPlan};
use table_steps::{SharedTable, TableSeat, Turn};
use table_tree::Tree;

/// Trees of no versions.
fn empty_trees(alloc: Global, count: u32) -> Result<Vec<Tree>, NoMemory>
    ensures count { IfOk result (λ trees. length trees.items ≡ count) }
    ensures empty { IfOk result (λ trees. AreLeaves trees.items) }
{
    let mut trees = Vec::new(alloc);
    // All trees so far are empty.
    for made in 0..count {
        trees.push(Tree::new())?;
    }
    Ok(trees)
}

/// Puts a map's pairs into the trees of their shards, each as a value at a sequence.
fn put_pairs(
    alloc: Global,
    trees: &mut [Tree],
    sequence: u64,
    map: &FamilyMap,
) -> Result<(), NoMemory>
    requires some { 0 < length trees.old }
    requires empty { AreLeaves trees.old }
    ensures count { OnOk result (length trees.new ≡ length trees.old) }
    ensures put { OnOk result (BearBase versions_in (versions_at sequence map.now) trees.new) }
{
    map.in_order();
    let shards = trees.len() as u64;
    // The trees have the pairs so far, each in the tree of its shard.
    for (family, key, value) in map.iter() {
        let node = Node::of_value(alloc, family, key, value, sequence)?;
        trees[shard_of(family, key, shards) as usize].insert(node);
    }
    Ok(())
}

/// The versions of a map's pairs at a sequence, only for contracts.
fn base_of<Plan: VersionPlan>(
    alloc: Global,
    _sequence: u64,
    _map: &FamilyMap,
) -> Result<Base, NoMemory>
    ensures { IfOk result (λ base. base ≡ Plan.versions) }
{
    Base::of::<Plan>(alloc)
}

impl MemoryTable {
    /// A table of no versions for `clients` clients, with the published sequence `last` and `shards` shards, at least
    /// one; with the turn, and a seat for each client.
    pub fn open(
        alloc: Global,
        clients: u32,
        last: u64,
        shards: u32,
    ) -> Result<
        (
            MemoryTable,
            Seats<TableSeat<Tree, Nodes>, Turn<Tree, Nodes>>,
        ),
        NoMemory,
    >
        requires { 0 < shards }
        // No versions, and this published sequence. A key's shard is a CRC-32C modulo the number of shards.
        ensures table { IfOk result (λ opened. opening_of opened.0
            ≡ record { clients = clients; shards = shards; start = last; base = [] }) }
        ensures turn { IfOk result (λ opened. IsTurnAtStart opened.0 opened.1.turn) }
        ensures clients { IfOk result (λ opened. AreSeatsAtStart opened.0 clients opened.1.clients.items) }
    {
        let trees = empty_trees(alloc, shards)?;
        let (steps, seats) = SharedTable::open(alloc, clients, last, trees, Base::none())?;
        Ok((MemoryTable { steps }, seats))
    }

    /// A table as `open` makes it, but over a map: it has the map's pairs, each as a value at the sequence
    /// `base_last`, which isn't above the published one, and is 0 only if the map is empty. Each key and value is
    /// copied once.
    pub fn open_with(
        alloc: Global,
        clients: u32,
        last: u64,
        shards: u32,
        base_last: u64,
        map: &FamilyMap,
    ) -> Result<
        (
            MemoryTable,
            Seats<TableSeat<Tree, Nodes>, Turn<Tree, Nodes>>,
        ),
        NoMemory,
    >
        requires shards { 0 < shards }
        requires published { base_last ≤ last }
        requires none_before { base_last ≡ 0 → map.now ≡ [] }
        // What the table was opened over is there for contracts only, and has no bytes.
        ensures table { IfOk result (λ opened. opening_of opened.0 ≡ record {
          clients = clients;
          shards = shards;
          start = last;
          base = versions_at base_last map.now;
        }) }
        ensures turn { IfOk result (λ opened. IsTurnAtStart opened.0 opened.1.turn) }
        ensures clients { IfOk result (λ opened. AreSeatsAtStart opened.0 clients opened.1.clients.items) }
    {
        let mut trees = empty_trees(alloc, shards)?;
        put_pairs(alloc, trees.as_mut_slice(), base_last, map)?;
        let base = base_of::<Brand>(alloc, base_last, map)?;
        let (steps, seats) = SharedTable::open(alloc, clients, last, trees, base)?;
        Ok((MemoryTable { steps }, seats))
    }
}
