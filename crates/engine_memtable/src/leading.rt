//! What the leader of a logged group does.

ghost use Rattle.std.specs.Prelude.{◌≡◌, ◌≤◌, ◌<◌, ◌^◌, ℕ, List, [], ◌∷◌, ◌++◌};
ghost use Rattle.table_rule.specs.declared.content.MemberVersions.{MemberVersions};
ghost use Rattle.table_rule.specs.Histories.{Begins, last_of};
ghost use Rattle.table_rule.specs.Rule.{end_of};
ghost use Rattle.table_rule.specs.Steps.{IsNext};
ghost use Rattle.engine_rule.specs.Parts.{HaveParts};
ghost use Rattle.engine_memtable.specs.Working.{HasLaunched};
ghost use Rattle.table_calls.specs.Account.{IsReady};
ghost use Rattle.line_rule.specs.declared.view.Debt.{Debt};
ghost use Rattle.line_rule.specs.declared.view.Handling.{Handling};
ghost use Rattle.line_writers.specs.Roles.{AreMembers};
ghost use Rattle.line_writers.specs.Seats.{Belongs, client_of, clients_of};
ghost use Rattle.line_writers.specs.Second.{HasRight};

use crate::working::work;
use line_rule::{GivesRun, HasGroupingItem, LogOfGroups};
use line_writers::{Writer, WriterList};
use std::rt;
use std::sync::Wait;
use table_calls::{GroupParts, Table};
use table_rule::Versioned;

/// Works on the leader's own part of the group that it launched, and waits until the group is published. `end` is the
/// group's last sequence.
pub fn await_group<
    NodeList: Versioned,
    GroupList: GroupParts<NodeList>,
    Versions: Table<NodeList, GroupList>,
    R: Wait + rt::Clock,
>(rt: &R, table: &Versions, seat: &mut Versions::Seat, end: u64) -> Versions::Turn
    requires ours { Versions.ours table.now seat.old }
    requires launched { (number : ℕ) × (seen before : List (List MemberVersions)) × (group : List MemberVersions)
        × HasLaunched (Versions.opening table.now).start number seen before group (Versions.account seat.old)
        × (end ≡ end_of (last_of (Versions.opening table.now).start before) group) }
    ensures ours { Versions.ours table.now seat.new × Versions.our_turn table.now result }
    ensures published { (number : ℕ) (seen before : List (List MemberVersions)) (group : List MemberVersions)
        → HasLaunched (Versions.opening table.now).start number seen before group (Versions.account seat.old)
        → (Versions.history result ≡ before ++ group ∷ []) × ((Versions.account seat.new).number ≡ number)
        × Begins seen (Versions.account seat.new).seen }
    ensures ready { IsReady (Versions.account seat.new) }
    ensures reached { end ≤ last_of (Versions.opening table.now).start (Versions.account seat.new).seen }
{
    work::<NodeList, GroupList, Versions, R>(rt, table, seat);
    table.await_published(rt, seat, end)
}

/// Leads a group of the second list, whose leader has the right: launches the group's parts, asks its members to work
/// in parallel with the leader, works on the leader's own part, and waits until the group is published. `members` must
/// be exactly those that have a part, without the leader: a member that is asked but has no part waits for one
/// forever, and the leader waits forever for a member that has a part and isn't asked. `end` is the group's last
/// sequence.
pub fn lead<
    Request: HasGroupingItem,
    Reply: GivesRun,
    Log: LogOfGroups<Request, Reply, Right>,
    Right,
    NodeList: Versioned,
    GroupList: GroupParts<NodeList>,
    Versions: Table<NodeList, GroupList>,
    R: Wait + rt::Clock,
>(
    rt: &R,
    list: &WriterList<Request, Reply, Log, Right>,
    writer: &mut Writer<Request, Reply, Log, Right>,
    table: &Versions,
    seat: &mut Versions::Seat,
    turn: Versions::Turn,
    members: &[u32],
    parts: &mut GroupList,
    end: u64,
) -> Versions::Turn
    requires leads { Belongs list.now writer.old × ((d : Debt Request Reply) × (from to : List (Handling Request Reply))
        × (mine : List (Request × Reply)) × HasRight (clients_of list.now) d from to mine writer.old
        × AreMembers (clients_of list.now) members.now d.rest) }
    requires ours { Versions.ours table.now seat.old × Versions.our_turn table.now turn
        × IsReady (Versions.account seat.old) }
    requires next { IsNext (Versions.opening table.now) (Versions.history turn) (GroupList.parts parts.old) }
    // Nobody is among the members who has no part, and nobody is there twice: such a member would wait for ever.
    requires parts { HaveParts (Versions.account seat.old).number members.now (GroupList.parts parts.old) }
    requires end { (end
        ≡ end_of (last_of (Versions.opening table.now).start (Versions.history turn)) (GroupList.parts parts.old))
        × (end < 2 ^ 64) }
    ensures client { (client_of writer.new ≡ client_of writer.old) × Belongs list.now writer.new }
    // That the members hear of it is in no clause: a body that asks nobody would wait for ever.
    ensures leads { (d : Debt Request Reply) (from to : List (Handling Request Reply)) (mine : List (Request × Reply))
        → HasRight (clients_of list.now) d from to mine writer.old
        → HasRight (clients_of list.now) d from to mine writer.new }
    ensures ours { Versions.ours table.now seat.new × Versions.our_turn table.now result
        × IsReady (Versions.account seat.new) }
    // The whole group is published at once, right after what the turn showed.
    ensures published { Versions.history result ≡ Versions.history turn ++ GroupList.parts parts.old ∷ [] }
    ensures seen { ((Versions.account seat.new).number ≡ (Versions.account seat.old).number)
        × Begins (Versions.account seat.old).seen (Versions.account seat.new).seen }
    ensures reached { end ≤ last_of (Versions.opening table.now).start (Versions.account seat.new).seen }
    ensures emptied { (GroupList.parts parts.new ≡ []) × (GroupList.room parts.new ≡ GroupList.room parts.old) }
{
    table.launch(seat, turn, parts);
    list.launch_roles(writer, members);
    await_group::<NodeList, GroupList, Versions, R>(rt, table, seat, end)
}
