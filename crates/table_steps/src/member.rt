//! A member's part: it is taken, put into the trees, finished, and its group published.
ghost use Rattle.std.specs.Prelude.{◌≡◌, ℕ, ◌+◌, ◌<◌, ◌≤◌, List, [], ◌∷◌, ◌++◌, length, None, IfSome};
ghost use Rattle.atomic_table.specs.Table.{rest};
ghost use Rattle.table_rule.specs.declared.content.Content.{Content};
ghost use Rattle.table_rule.specs.declared.content.Content.TheVariants.{Blank};
ghost use Rattle.table_rule.specs.declared.content.MemberVersions.{MemberVersions};
ghost use Rattle.table_rule.specs.declared.content.Version.{Version};
ghost use Rattle.table_rule.specs.declared.view.Lock.TheVariants.{Free, Held};
ghost use Rattle.table_rule.specs.declared.view.Launched.{Launched};
ghost use Rattle.table_rule.specs.declared.view.Stage.{Stage};
ghost use Rattle.table_rule.specs.declared.view.Stage.TheVariants.{Holding, Stored, Publishing};
ghost use Rattle.table_rule.specs.Steps.{AddsAll, AreOfShard, IsAt, MayTake, work};
ghost use Rattle.table_calls.specs.Account.{Takes, Steps, Counts, Publishes};
ghost use Rattle.table_steps.specs.Accounts.{account, opening_of, IsOurs};

use crate::seat::TableSeat;
use crate::shared::{Client, SharedTable};
use std::rt;
use std::sync::Wait;
use table_calls::{Finished, VersionNodes, VersionTree};
use table_rule::{AddVersions, Content, Count, Publish, Settle, Take, VersionPlan};

impl<ShardTree: VersionTree<NodeList::Node> + Drop, NodeList: VersionNodes + Drop> SharedTable<
    ShardTree,
    NodeList,
> {
    /// Puts the next nodes of the member's part into the tree of their shard, under one hold of its lock.
    pub(crate) fn add<Plan: VersionPlan, R: Wait + rt::Clock>(
        &self,
        rt: &R,
        who: &mut Client<ShardTree, NodeList>,
        shard: u64,
        mut nodes: NodeList,
    )
        requires seat { (who.old.seat.table_id ≡ self.now.table.shared.table_id)
            × (shard < self.now.table.shared.key.shards) }
        requires next { (seen : List (List MemberVersions)) × (u : Launched) × (done : List Version)
            × (more : List Version) × IsAt who.old.number self.now.table.shared.key seen Free
            (Holding (work u done (Plan.versions ++ more))) who.old.seat.me }
        requires nodes { NodeList.versions nodes ≡ Plan.versions }
        requires shard { AreOfShard self.now.table.shared.key.shards shard Plan.versions }
        ensures seat { (who.new.seat.table_id ≡ who.old.seat.table_id) × (who.new.number ≡ who.old.number)
            × (who.new.seat.me.1 ≡ who.old.seat.me.1) }
        ensures added { (seen : List (List MemberVersions)) (u : Launched) (done more : List Version)
            → IsAt who.old.number self.now.table.shared.key seen Free
            (Holding (work u done (Plan.versions ++ more))) who.old.seat.me
            → IsAt who.old.number self.now.table.shared.key seen Free
            (Holding (work u (done ++ Plan.versions) more)) who.new.seat.me }
    {
        let mut tree = self.lock(rt, who, shard);
        // The tree has what it had, and the nodes popped so far.
        while let Some(node) = nodes.pop() {
            tree.insert(node);
        }
        self.give_back::<Plan>(who, shard, tree);
    }

    // Gives a shard's tree back, with versions of the member's part added.
    fn give_back<Plan: VersionPlan>(
        &self,
        who: &mut Client<ShardTree, NodeList>,
        shard: u64,
        tree: ShardTree,
    )
        requires seat { (who.old.seat.table_id ≡ self.now.table.shared.table_id)
            × (shard < self.now.table.shared.key.shards) }
        requires held { (seen : List (List MemberVersions)) × (u : Launched) × (done : List Version)
            × (more : List Version) × (vs : List Version) × (slots : List (ℕ × Content ShardTree NodeList))
            × IsAt who.old.number self.now.table.shared.key seen (Held shard vs)
            (Holding (work u done (Plan.versions ++ more))) who.old.seat.me
            × (who.old.seat.me.1 ≡ (shard, Blank) ∷ slots) × AddsAll vs Plan.versions (ShardTree.versions tree) }
        requires shard { AreOfShard self.now.table.shared.key.shards shard Plan.versions }
        ensures seat { (who.new.seat.table_id ≡ who.old.seat.table_id) × (who.new.number ≡ who.old.number)
            × (who.new.seat.me.1 ≡ rest who.old.seat.me.1) }
        ensures added { (seen : List (List MemberVersions)) (u : Launched) (done more vs : List Version)
            → IsAt who.old.number self.now.table.shared.key seen (Held shard vs)
            (Holding (work u done (Plan.versions ++ more))) who.old.seat.me
            → IsAt who.old.number self.now.table.shared.key seen Free
            (Holding (work u (done ++ Plan.versions) more)) who.new.seat.me }
    {
        let shared = &self.table.shared;
        match shared.exchange(&mut who.seat, shard as usize, Content::Tree(tree)) {
            Content::Blank => {}
            _ => unreachable!(),
        }
        shared.store::<AddVersions<Plan>>(&mut who.seat, shard as usize, 0);
    }
}

impl<ShardTree: VersionTree<NodeList::Node> + Drop, NodeList: VersionNodes + Drop> TableSeat<
    ShardTree,
    NodeList,
> {
    /// Waits until the client's part is handed out, and takes it.
    pub fn take<R: Wait + rt::Clock>(
        &mut self,
        table: &SharedTable<ShardTree, NodeList>,
        rt: &R,
    ) -> NodeList
        requires ours { IsOurs table.now self.old }
        requires free { MayTake (account self.old).stage }
        ensures ours { IsOurs table.now self.new }
        ensures taken { Takes (opening_of table.now) (account self.old) (NodeList.versions result)
            (account self.new) }
    {
        let pauses = table.handed.pauses();
        // The seat is as it was: nothing has been handed out yet.
        for _ in rt.forever() {
            if let Some(nodes) = self.try_take(table) {
                return nodes;
            }
            table.handed.pause(rt, &pauses, self.client.number);
        }
        unreachable!()
    }

    /// Takes the client's part, if it is handed out. Where it isn't yet, the answer is `None`, and the seat is as it
    /// was.
    pub fn try_take(&mut self, table: &SharedTable<ShardTree, NodeList>) -> Option<NodeList>
        requires ours { IsOurs table.now self.old }
        requires free { MayTake (account self.old).stage }
        ensures ours { IsOurs table.now self.new }
        ensures none { result ≡ None → self.new ≡ self.old }
        ensures taken { IfSome result (λ nodes. Takes (opening_of table.now) (account self.old)
            (NodeList.versions nodes) (account self.new)) }
    {
        let shared = &table.table.shared;
        let word = table.sizes.shards as usize + 1 + self.client.number as usize;
        let slot = table.sizes.shards as usize + self.client.number as usize;
        let found = shared.load::<Take>(&mut self.client.seat, word);
        if found != 1 {
            return None;
        }
        match shared.exchange(&mut self.client.seat, slot, Content::Blank) {
            Content::Nodes(nodes, last) => {
                self.last = last;
                Some(nodes)
            }
            _ => unreachable!(),
        }
    }

    /// Marks the client's part as inserted: all its nodes are in their trees.
    pub fn settle(&mut self, table: &SharedTable<ShardTree, NodeList>)
        requires ours { IsOurs table.now self.old }
        requires added { (u : Launched) × (done : List Version)
            × ((account self.old).stage ≡ Holding (work u done [])) }
        ensures ours { IsOurs table.now self.new }
        ensures stored { (u : Launched) (done : List Version) → (account self.old).stage ≡ Holding (work u done [])
            → Steps (account self.old) (Stored u) (account self.new) }
    {
        let word = table.sizes.shards as usize + 1 + self.client.number as usize;
        table
            .table
            .shared
            .store::<Settle>(&mut self.client.seat, word, 0);
    }
    /// Finishes the client's part. The client is the last of its group just where it finds no other member running.
    pub fn finish(&mut self, table: &SharedTable<ShardTree, NodeList>) -> Finished
        requires ours { IsOurs table.now self.old }
        requires stored { (u : Launched) × ((account self.old).stage ≡ Stored u) }
        ensures ours { IsOurs table.now self.new }
        ensures counted { (u : Launched) → (account self.old).stage ≡ Stored u
            → Counts (account self.old) u result (account self.new) }
    {
        let running = table.sizes.shards as usize + 1;
        let unfinished = table
            .table
            .shared
            .fetch_sub::<Count>(&mut self.client.seat, running, 1);
        if unfinished == 1 {
            Finished::Last
        } else {
            Finished::Others
        }
    }
    /// Publishes the group, in which this client finished last. The client has then seen it.
    pub fn publish(&mut self, table: &SharedTable<ShardTree, NodeList>)
        requires ours { IsOurs table.now self.old }
        requires last_one { (u : Launched) × ((account self.old).stage ≡ Publishing u) }
        ensures ours { IsOurs table.now self.new }
        ensures published { (u : Launched) → (account self.old).stage ≡ Publishing u
            → Publishes (opening_of table.now).start (account self.old) u (account self.new) }
    {
        let word = table.sizes.shards as usize;
        table
            .table
            .shared
            .store::<Publish>(&mut self.client.seat, word, self.last);
        table.published.ring();
    }
}
