//! The calls of a client's seat that are made of several steps: launching a group, putting nodes into the trees, and
//! waiting for the group that the client launched.
ghost use Rattle.std.specs.Prelude.{◌≡◌, ◌<◌, ◌≤◌, ◌^◌, List, [], ◌∷◌, ◌++◌, None, Some};
ghost use Rattle.table_rule.specs.declared.content.Version.{Version};
ghost use Rattle.table_rule.specs.declared.view.Launched.{Launched};
ghost use Rattle.table_rule.specs.declared.view.Stage.TheVariants.{Idle, Holding};
ghost use Rattle.table_rule.specs.Histories.{last_of};
ghost use Rattle.table_rule.specs.Rule.{end_of};
ghost use Rattle.table_rule.specs.Steps.{AreOfShard, IsNext, work};
ghost use Rattle.table_calls.specs.Account.{Learns, Launches, Steps, IsReady};
ghost use Rattle.table_steps.specs.Accounts.{account, history_of, opening_of, IsOurs, MayLaunch};

use crate::launching::Turn;
use crate::seat::TableSeat;
use crate::shared::SharedTable;
use std::marker::Brand;
use std::rt;
use std::sync::Wait;
use table_calls::{GroupParts, VersionNodes, VersionTree};

impl<ShardTree: VersionTree<NodeList::Node> + Drop, NodeList: VersionNodes + Drop> TableSeat<
    ShardTree,
    NodeList,
> {
    /// The client's number.
    pub fn number(&self) -> u64
        ensures { result ≡ (account self.now).number }
    {
        self.client.number
    }

    /// Launches a group, and hands each member its nodes. The seat keeps the turn until `await_published`.
    pub fn launch<GroupList: GroupParts<NodeList>>(
        &mut self,
        table: &SharedTable<ShardTree, NodeList>,
        turn: Turn<ShardTree, NodeList>,
        parts: &mut GroupList,
    )
        requires ours { IsOurs table.now self.old × MayLaunch table.now turn }
        requires ready { IsReady (account self.old) }
        requires next { IsNext (opening_of table.now) (history_of turn) (GroupList.parts parts.old) }
        requires fits { end_of (last_of (opening_of table.now).start (history_of turn)) (GroupList.parts parts.old)
            < 2 ^ 64 }
        ensures ours { IsOurs table.now self.new }
        ensures launched { Launches (opening_of table.now).start (account self.old) (history_of turn)
            (GroupList.parts parts.old) (account self.new) }
        ensures emptied { GroupList.parts parts.new ≡ [] }
        ensures room { GroupList.room parts.new ≡ GroupList.room parts.old }
    {
        let last = turn.last + parts.version_count();
        let turn = table.launch(&mut self.client, turn, parts, last);
        self.turn = Some(turn);
    }

    /// Puts the next nodes of the client's part into the tree of their shard, under one hold of its lock. A part of
    /// several shards goes in run by run, where each run is of one shard.
    pub fn add<R: Wait + rt::Clock>(
        &mut self,
        table: &SharedTable<ShardTree, NodeList>,
        rt: &R,
        shard: u64,
        nodes: NodeList,
    )
        requires ours { IsOurs table.now self.old }
        requires shard { (shard < (opening_of table.now).shards)
            × AreOfShard (opening_of table.now).shards shard (NodeList.versions nodes) }
        requires next { (u : Launched) × (done : List Version) × (more : List Version)
            × ((account self.old).stage ≡ Holding (work u done (NodeList.versions nodes ++ more))) }
        ensures ours { IsOurs table.now self.new }
        ensures added { (u : Launched) (done more : List Version)
            → (account self.old).stage ≡ Holding (work u done (NodeList.versions nodes ++ more))
            → Steps (account self.old) (Holding (work u (done ++ NodeList.versions nodes) more)) (account self.new) }
    {
        table.add::<Brand, R>(rt, &mut self.client, shard, nodes);
    }

    /// Waits until the group that this client launched is published, and takes the turn back. `last` is the group's
    /// last sequence.
    pub fn await_published<R: Wait + rt::Clock>(
        &mut self,
        table: &SharedTable<ShardTree, NodeList>,
        rt: &R,
        last: u64,
    ) -> Turn<ShardTree, NodeList>
        requires ours { IsOurs table.now self.old }
        requires idle { (account self.old).stage ≡ Idle }
        requires launched { (u : Launched) × ((account self.old).launched ≡ Some u) × (last ≡ u.last) }
        ensures ours { IsOurs table.now self.new × MayLaunch table.now result }
        ensures published { (u : Launched) → (account self.old).launched ≡ Some u
            → history_of result ≡ u.before ++ u.group ∷ [] }
        ensures seen { Learns (opening_of table.now).start (record (account self.old) { launched = None })
            (account self.new) }
        ensures reached { last ≤ last_of (opening_of table.now).start (account self.new).seen }
    {
        let Some(mut turn) = self.turn.take() else {
            unreachable!()
        };
        table.await_published(rt, &mut turn, last);
        turn.last = last;
        self.await_seen(table, rt, last);
        turn
    }
}
