//! The turn: a group is launched, and its launcher waits until it is published.
ghost use Rattle.std.specs.Prelude.{◌≡◌, ◌<◌, ◌≤◌, true, false, List, [], ◌∷◌, ◌++◌, length};
ghost use Rattle.table_rule.specs.declared.content.MemberVersions.{MemberVersions};
ghost use Rattle.table_rule.specs.declared.view.Lock.TheVariants.{Free};
ghost use Rattle.table_rule.specs.declared.view.Stage.TheVariants.{Idle, Resting, Handing};
ghost use Rattle.table_rule.specs.Histories.{In, last_of};
ghost use Rattle.table_rule.specs.Rule.{end_of};
ghost use Rattle.table_rule.specs.Steps.{IsAt, IsNext, stage_after_launch, launched_behind};

use crate::shared::{Client, SharedTable};
use atomic_table::Seat;
use std::marker::Brand;
use std::rt;
use std::sync::Wait;
use table_calls::{GroupParts, VersionNodes, VersionTree};
use table_rule::{AllButFirst, Await, Both, Content, Empty, Give, GroupPlan, Launch, TableView};

/// The right to launch. A table has one.
#[derive(Drop)]
pub struct Turn<ShardTree, NodeList> {
    pub(crate) seat: Seat<Content<ShardTree, NodeList>, TableView>,
    /// The published sequence, where no group is launched.
    pub(crate) last: u64,
}

impl<ShardTree: VersionTree<NodeList::Node>, NodeList: VersionNodes> SharedTable<
    ShardTree,
    NodeList,
> {
    // Sets the running count to the number of members. The client's seat and the turn's are joined meanwhile, so that
    // the client knows of the group.
    fn set_running<Group: GroupPlan, GroupList: GroupParts<NodeList>>(
        &self,
        who: &mut Client<ShardTree, NodeList>,
        turn: Turn<ShardTree, NodeList>,
        parts: &GroupList,
    ) -> Turn<ShardTree, NodeList>
        requires seat { (who.old.seat.table_id ≡ self.now.table.shared.table_id)
            × (turn.seat.table_id ≡ self.now.table.shared.table_id) × (turn.seat.me.1 ≡ []) × (0 < who.old.number) }
        requires next { (own : List (List MemberVersions)) × (seen : List (List MemberVersions))
            × IsAt who.old.number self.now.table.shared.key own Free Idle who.old.seat.me
            × IsAt 0 self.now.table.shared.key seen Free Resting turn.seat.me
            × IsNext self.now.table.shared.key seen Group.group }
        requires group { GroupList.parts parts.now ≡ Group.group }
        ensures client { (who.new.seat.table_id ≡ who.old.seat.table_id) × (who.new.number ≡ who.old.number)
            × (who.new.seat.me.1 ≡ who.old.seat.me.1) }
        ensures turn { (result.seat.table_id ≡ turn.seat.table_id) × (result.seat.me.1 ≡ [])
            × (result.last ≡ turn.last) }
        ensures launched { (own seen : List (List MemberVersions))
            → IsAt who.old.number self.now.table.shared.key own Free Idle who.old.seat.me
            → IsAt 0 self.now.table.shared.key seen Free Resting turn.seat.me
            → IsAt who.old.number self.now.table.shared.key own Free (stage_after_launch who.old.number
            (launched_behind self.now.table.shared.key.start seen Group.group)) who.new.seat.me }
        ensures handing { (own seen : List (List MemberVersions))
            → IsAt who.old.number self.now.table.shared.key own Free Idle who.old.seat.me
            → IsAt 0 self.now.table.shared.key seen Free Resting turn.seat.me
            → IsAt 0 self.now.table.shared.key seen Free (Handing Group.group Group.group) result.seat.me }
    {
        let shared = &self.table.shared;
        shared.join_seat::<Both>(&mut who.seat, turn.seat);
        shared.store::<Launch<Group>>(
            &mut who.seat,
            self.sizes.shards as usize + 1,
            parts.len() as u64,
        );
        let seat = shared.split_seat::<AllButFirst>(&mut who.seat);
        Turn {
            seat,
            last: turn.last,
        }
    }

    // Hands one member its nodes.
    fn offer(&self, turn: &mut Turn<ShardTree, NodeList>, member: u64, nodes: NodeList, last: u64)
        requires seat { (turn.old.seat.table_id ≡ self.now.table.shared.table_id) × (0 < member)
            × (member ≤ self.now.table.shared.key.clients) }
        requires next { (seen : List (List MemberVersions)) × (g : List MemberVersions) × (p : MemberVersions)
            × (ps : List MemberVersions) × IsAt 0 self.now.table.shared.key seen Free
            (Handing g (p ∷ ps)) turn.old.seat.me × (p.member ≡ member) × (NodeList.versions nodes ≡ p.versions)
            × (last ≡ end_of (last_of self.now.table.shared.key.start seen) g) }
        ensures seat { (turn.new.seat.table_id ≡ turn.old.seat.table_id) × (turn.new.seat.me.1 ≡ turn.old.seat.me.1)
            × (turn.new.last ≡ turn.old.last) }
        ensures given { (seen : List (List MemberVersions)) (g : List MemberVersions) (p : MemberVersions)
            (ps : List MemberVersions) → IsAt 0 self.now.table.shared.key seen Free
            (Handing g (p ∷ ps)) turn.old.seat.me → IsAt 0 self.now.table.shared.key seen Free
            (Handing g ps) turn.new.seat.me }
    {
        let shared = &self.table.shared;
        let word = self.sizes.shards as usize + 1 + member as usize;
        let slot = self.sizes.shards as usize + member as usize;
        shared.load::<Empty>(&mut turn.seat, word);
        match shared.exchange(&mut turn.seat, slot, Content::Nodes(nodes, last)) {
            Content::Blank => {}
            _ => unreachable!(),
        }
        shared.store::<Give>(&mut turn.seat, word, 1);
        self.handed.ring(member);
    }

    /// Launches a group whose last sequence is `last`, and hands each member its nodes.
    pub(crate) fn launch<GroupList: GroupParts<NodeList>>(
        &self,
        who: &mut Client<ShardTree, NodeList>,
        turn: Turn<ShardTree, NodeList>,
        parts: &mut GroupList,
        last: u64,
    ) -> Turn<ShardTree, NodeList>
        requires seat { (who.old.seat.table_id ≡ self.now.table.shared.table_id)
            × (turn.seat.table_id ≡ self.now.table.shared.table_id) × (turn.seat.me.1 ≡ []) × (0 < who.old.number) }
        requires next { (own : List (List MemberVersions)) × (seen : List (List MemberVersions))
            × IsAt who.old.number self.now.table.shared.key own Free Idle who.old.seat.me
            × IsAt 0 self.now.table.shared.key seen Free Resting turn.seat.me
            × IsNext self.now.table.shared.key seen (GroupList.parts parts.old)
            × (last ≡ end_of (last_of self.now.table.shared.key.start seen) (GroupList.parts parts.old)) }
        ensures client { (who.new.seat.table_id ≡ who.old.seat.table_id) × (who.new.number ≡ who.old.number)
            × (who.new.seat.me.1 ≡ who.old.seat.me.1) }
        ensures turn { (result.seat.table_id ≡ turn.seat.table_id) × (result.seat.me.1 ≡ [])
            × (result.last ≡ turn.last) }
        ensures launched { (own seen : List (List MemberVersions))
            → IsAt who.old.number self.now.table.shared.key own Free Idle who.old.seat.me
            → IsAt 0 self.now.table.shared.key seen Free Resting turn.seat.me
            → IsAt who.old.number self.now.table.shared.key own Free (stage_after_launch who.old.number
            (launched_behind self.now.table.shared.key.start seen (GroupList.parts parts.old))) who.new.seat.me }
        ensures handed { (own seen : List (List MemberVersions))
            → IsAt who.old.number self.now.table.shared.key own Free Idle who.old.seat.me
            → IsAt 0 self.now.table.shared.key seen Free Resting turn.seat.me
            → IsAt 0 self.now.table.shared.key seen Free (Handing (GroupList.parts parts.old) []) result.seat.me }
        ensures emptied { GroupList.parts parts.new ≡ [] }
        ensures room { GroupList.room parts.new ≡ GroupList.room parts.old }
    {
        let mut turn = self.set_running::<Brand, GroupList>(who, turn, parts);
        // The members of the parts popped so far were handed their nodes, in order.
        while let Some((member, nodes)) = parts.pop() {
            self.offer(&mut turn, member, nodes, last);
        }
        turn
    }

    /// Waits until the launched group, whose last sequence is `last`, is published. Then the turn is free again.
    pub(crate) fn await_published<R: Wait + rt::Clock>(
        &self,
        rt: &R,
        turn: &mut Turn<ShardTree, NodeList>,
        last: u64,
    )
        requires seat { turn.old.seat.table_id ≡ self.now.table.shared.table_id }
        requires launched { (seen : List (List MemberVersions)) × (g : List MemberVersions)
            × IsAt 0 self.now.table.shared.key seen Free (Handing g []) turn.old.seat.me
            × (last ≡ end_of (last_of self.now.table.shared.key.start seen) g) }
        ensures seat { (turn.new.seat.table_id ≡ turn.old.seat.table_id) × (turn.new.seat.me.1 ≡ turn.old.seat.me.1)
            × (turn.new.last ≡ turn.old.last) }
        ensures published { (seen : List (List MemberVersions)) (g : List MemberVersions)
            → IsAt 0 self.now.table.shared.key seen Free (Handing g []) turn.old.seat.me
            → IsAt 0 self.now.table.shared.key (seen ++ g ∷ []) Free Resting turn.new.seat.me }
    {
        let pauses = self.handed.pauses();
        // No look so far has found the group published.
        for _ in rt.forever() {
            if self.is_published(turn, last) {
                return;
            }
            self.published.pause(rt, &pauses);
        }
        unreachable!()
    }

    /// Whether the launched group, whose last sequence is `last`, is published. If so, the turn is free again. Where it
    /// isn't yet, the turn is as it was.
    pub(crate) fn is_published(&self, turn: &mut Turn<ShardTree, NodeList>, last: u64) -> bool
        requires seat { turn.old.seat.table_id ≡ self.now.table.shared.table_id }
        requires launched { (seen : List (List MemberVersions)) × (g : List MemberVersions)
            × IsAt 0 self.now.table.shared.key seen Free (Handing g []) turn.old.seat.me
            × (last ≡ end_of (last_of self.now.table.shared.key.start seen) g) }
        ensures seat { (turn.new.seat.table_id ≡ turn.old.seat.table_id) × (turn.new.seat.me.1 ≡ turn.old.seat.me.1)
            × (turn.new.last ≡ turn.old.last) }
        ensures not_yet { result ≡ false → turn.new ≡ turn.old }
        ensures published { (seen : List (List MemberVersions)) (g : List MemberVersions)
            → IsAt 0 self.now.table.shared.key seen Free (Handing g []) turn.old.seat.me
            → result ≡ true
            → IsAt 0 self.now.table.shared.key (seen ++ g ∷ []) Free Resting turn.new.seat.me }
    {
        let found = self
            .table
            .shared
            .load::<Await>(&mut turn.seat, self.sizes.shards as usize);
        found == last
    }
}
