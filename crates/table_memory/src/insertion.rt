//! How a member's nodes are put into the trees of their shards.
ghost use Rattle.std.specs.Prelude.{◌≡◌, ◌<◌, List, [], ◌∷◌, ◌++◌, length, MatchOption};
ghost use Rattle.table_rule.specs.declared.content.Version.{Version};
ghost use Rattle.table_rule.specs.declared.view.Launched.{Launched};
ghost use Rattle.table_rule.specs.declared.view.Stage.TheVariants.{Holding};
ghost use Rattle.table_rule.specs.Histories.{shard_of};
ghost use Rattle.table_rule.specs.Steps.{AreOfShard, work};
ghost use Rattle.table_calls.specs.Account.{Steps};
ghost use Rattle.table_memory.specs.Meaning.{opening_of, account_of, IsOurs};

use crate::memory_table::MemoryTable;
use std::sync::Wait;
use std::{mem, rt};
use table_nodes::Nodes;
use table_steps::TableSeat;
use table_tree::Tree;

impl MemoryTable {
    /// Puts all nodes of the client's part into the trees. They go in in the order of their sequences, as the table's
    /// rule asks, and so run by run: the nodes of a run are of one shard, and go in under one hold of its lock.
    pub(crate) fn add_all<R: Wait + rt::Clock>(
        &self,
        rt: &R,
        seat: &mut TableSeat<Tree, Nodes>,
        mut nodes: Nodes,
    )
        requires ours { IsOurs self.now seat.old }
        requires taken { (u : Launched) × ((account_of seat.old).stage ≡ Holding (work u [] nodes)) }
        ensures ours { IsOurs self.now seat.new }
        ensures added { (u : Launched) → (account_of seat.old).stage ≡ Holding (work u [] nodes)
            → (done : List Version) × Steps (account_of seat.old) (Holding (work u done [])) (account_of seat.new) }
    {
        // The nodes that are left are those that the client still has to insert.
        while let Some(shard) = self.first_shard(&nodes) {
            let run = self.take_run(&mut nodes, shard);
            seat.add(&self.steps, rt, shard, run);
        }
    }

    // The shard of the first node.
    fn first_shard(&self, nodes: &Nodes) -> Option<u64>
        ensures { MatchOption result (nodes.now ≡ []) (λ shard. (shard < (opening_of self.now).shards)
            × ((v : Version) × (more : List Version) × (nodes.now ≡ v ∷ more)
            × (shard_of (opening_of self.now).shards v ≡ shard))) }
    {
        let (family, key) = nodes.first_key()?;
        Some(self.shard_of(family, key))
    }

    // Takes out the nodes at the front that are of the first one's shard. With one shard, those are all nodes.
    fn take_run(&self, nodes: &mut Nodes, shard: u64) -> Nodes
        requires { (v : Version) × (more : List Version) × (nodes.old ≡ v ∷ more)
            × (shard_of (opening_of self.now).shards v ≡ shard) }
        ensures cut { nodes.old ≡ result ++ nodes.new }
        ensures of_shard { AreOfShard (opening_of self.now).shards shard result }
        ensures some { length nodes.new < length nodes.old }
    {
        if self.steps.shards() == 1 {
            return mem::replace(nodes, Nodes::new());
        }
        let mut turned = Nodes::new();
        // The nodes were those in `turned`, which has the last one first, and then those that are left.
        while self.first_shard(nodes) == Some(shard) {
            let Some(node) = nodes.pop() else {
                unreachable!()
            };
            turned.push_front(node);
        }
        turned.reversed()
    }
}
