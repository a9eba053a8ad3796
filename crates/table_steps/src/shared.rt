//! The table as all threads see it, and the steps on locks.
ghost use Rattle.std.specs.Prelude.{◌≡◌, ℕ, ◌+◌, ◌<◌, ◌≤◌, ◌^◌, List, [], ◌∷◌, None, IfSome};
ghost use Rattle.atomic_table.specs.Table.{rest};
ghost use Rattle.table_rule.specs.declared.content.Content.{Content};
ghost use Rattle.table_rule.specs.declared.content.Content.TheVariants.{Blank};
ghost use Rattle.table_rule.specs.declared.content.MemberVersions.{MemberVersions};
ghost use Rattle.table_rule.specs.declared.view.Lock.TheVariants.{Free, Held};
ghost use Rattle.table_rule.specs.declared.view.Stage.{Stage};
ghost use Rattle.table_rule.specs.Steps.{IsAt};
ghost use Rattle.table_steps.specs.Seen.{Locked};
ghost use Rattle.table_steps.specs.Sizes.{sizes_of};

use crate::sizes::Sizes;
use atomic_table::{Seat, Table};
use base_waiting::{Bell, Bells};
use std::alloc::Global;
use std::rt;
use std::sync::Wait;
use table_calls::{VersionNodes, VersionTree};
use table_rule::{Content, LockShard, Opening, TableLaw, TableView, UnlockShard, Versioned};

/// The words and slots of a table. `ShardTree` is the type of its trees, and `NodeList` that of a member's nodes.
#[derive(Drop)]
pub struct SharedTable<ShardTree: Versioned, NodeList: Versioned> {
    pub(crate) table: Table<Content<ShardTree, NodeList>, TableView, Opening, TableLaw, Global>,
    pub(crate) sizes: Sizes,
    /// The bells on which members sleep until their nodes are handed out, with what is known of yields where threads
    /// wait for the table.
    pub(crate) handed: Bells,
    /// The bell on which clients sleep until a group is published.
    pub(crate) published: Bell,
    ghost sized: { (table.shared.table_id.words ≡ sizes.shards + 2 + sizes.clients)
        × (table.shared.table_id.slots ≡ sizes.shards + 1 + sizes.clients) × (sizes_of table.shared.key ≡ sizes)
        × (0 < sizes.shards) × (sizes.shards < 2 ^ 32) × (sizes.clients < 2 ^ 32) },
}

/// A client's seat.
#[derive(Drop)]
pub(crate) struct Client<ShardTree, NodeList> {
    pub(crate) number: u64,
    pub(crate) seat: Seat<Content<ShardTree, NodeList>, TableView>,
}

impl<ShardTree: VersionTree<NodeList::Node>, NodeList: VersionNodes> SharedTable<
    ShardTree,
    NodeList,
> {
    /// Waits for a shard's lock, and takes its tree. It spins a few turns, and then yields or sleeps.
    pub(crate) fn lock<R: Wait + rt::Clock>(
        &self,
        rt: &R,
        who: &mut Client<ShardTree, NodeList>,
        shard: u64,
    ) -> ShardTree
        requires seat { (who.old.seat.table_id ≡ self.now.table.shared.table_id)
            × (shard < self.now.table.shared.key.shards) }
        requires free { (seen : List (List MemberVersions)) × (stage : Stage)
            × IsAt who.old.number self.now.table.shared.key seen Free stage who.old.seat.me }
        ensures seat { (who.new.seat.table_id ≡ who.old.seat.table_id) × (who.new.number ≡ who.old.number) }
        ensures locked { (seen : List (List MemberVersions)) (stage : Stage)
            → IsAt who.old.number self.now.table.shared.key seen Free stage who.old.seat.me
            → Locked who.old.number self.now.table.shared.key shard seen stage
            (ShardTree.versions result) who.old.seat.me who.new.seat.me }
    {
        let pauses = self.handed.pauses();
        // Somebody had the lock at each try so far, and the seat is as it was.
        for _ in rt.forever() {
            if let Some(tree) = self.try_lock(who, shard) {
                return tree;
            }
            pauses.retry(rt);
        }
        unreachable!()
    }

    /// Takes a shard's lock and its tree, if nobody else has the lock. Where somebody has it, the answer is `None`, and
    /// the seat is as it was.
    pub(crate) fn try_lock(
        &self,
        who: &mut Client<ShardTree, NodeList>,
        shard: u64,
    ) -> Option<ShardTree>
        requires seat { (who.old.seat.table_id ≡ self.now.table.shared.table_id)
            × (shard < self.now.table.shared.key.shards) }
        requires free { (seen : List (List MemberVersions)) × (stage : Stage)
            × IsAt who.old.number self.now.table.shared.key seen Free stage who.old.seat.me }
        ensures seat { (who.new.seat.table_id ≡ who.old.seat.table_id) × (who.new.number ≡ who.old.number) }
        ensures none { result ≡ None → who.new ≡ who.old }
        ensures locked { (seen : List (List MemberVersions)) (stage : Stage)
            → IsAt who.old.number self.now.table.shared.key seen Free stage who.old.seat.me
            → IfSome result (λ tree. Locked who.old.number self.now.table.shared.key shard seen stage
            (ShardTree.versions tree) who.old.seat.me who.new.seat.me) }
    {
        let shared = &self.table.shared;
        let found = shared.compare_exchange::<LockShard>(&mut who.seat, shard as usize, 0, 1);
        if found != 0 {
            return None;
        }
        match shared.exchange(&mut who.seat, shard as usize, Content::Blank) {
            Content::Tree(tree) => Some(tree),
            _ => unreachable!(),
        }
    }

    /// Gives a shard's tree back as it was.
    pub(crate) fn unlock(&self, who: &mut Client<ShardTree, NodeList>, shard: u64, tree: ShardTree)
        requires seat { (who.old.seat.table_id ≡ self.now.table.shared.table_id)
            × (shard < self.now.table.shared.key.shards) }
        requires held { (seen : List (List MemberVersions)) × (stage : Stage)
            × (more : List (ℕ × Content ShardTree NodeList))
            × IsAt who.old.number self.now.table.shared.key seen (Held shard (ShardTree.versions tree)) stage
            who.old.seat.me
            × (who.old.seat.me.1 ≡ (shard, Blank) ∷ more) }
        ensures seat { (who.new.seat.table_id ≡ who.old.seat.table_id) × (who.new.number ≡ who.old.number)
            × (who.new.seat.me.1 ≡ rest who.old.seat.me.1) }
        ensures free { (seen : List (List MemberVersions)) (stage : Stage)
            → IsAt who.old.number self.now.table.shared.key seen (Held shard (ShardTree.versions tree)) stage
            who.old.seat.me
            → IsAt who.old.number self.now.table.shared.key seen Free stage who.new.seat.me }
    {
        let shared = &self.table.shared;
        match shared.exchange(&mut who.seat, shard as usize, Content::Tree(tree)) {
            Content::Blank => {}
            _ => unreachable!(),
        }
        shared.store::<UnlockShard>(&mut who.seat, shard as usize, 0);
    }
}
