//! The calls.
ghost use Rattle.std.specs.Prelude.{◌≡◌, ℕ, ◌<◌, ◌≤◌, ◌^◌, List, [], ◌∷◌, ◌++◌, None, Some, map, IfOk};
ghost use Rattle.model_base.specs.Map.{rows_within};
ghost use Rattle.base_bytes.specs.Answers.{found_value};
ghost use Rattle.base_bytes.specs.declared.answers.Place.{Place};
ghost use Rattle.table_rule.specs.declared.content.MemberVersions.{MemberVersions};
ghost use Rattle.table_rule.specs.declared.view.Launched.{Launched};
ghost use Rattle.table_rule.specs.declared.view.Stage.TheVariants.{Idle, Holding, Stored, Publishing};
ghost use Rattle.table_rule.specs.Histories.{In, last_of, map_after, value_in};
ghost use Rattle.table_rule.specs.Rule.{end_of};
ghost use Rattle.table_rule.specs.Steps.{IsNext, MayTake, work};
ghost use Rattle.table_calls.specs.Account.{Account, Learns, Launches, Takes, Steps, Counts, Publishes, IsReady, IsClosing};

use crate::finished::Finished;
use crate::group::GroupParts;
use crate::seats::Seats;
use base_bytes::{Place, Read, Reads, Rows};
use model_base::NoMemory;
use std::alloc::Global;
use std::rt;
use std::sync::Wait;
use table_rule::Versioned;

/// A table of versions, to which groups are published. `GroupList` is a list of a group's members with their nodes.
///
/// Each client has one seat. A group is launched by the client that has the turn. Each member takes its part, inserts
/// it and finishes. The member that finishes last publishes the group. The client that launched it waits for that, and
/// then has the turn again.
pub trait Table<NodeList: Versioned, GroupList: GroupParts<NodeList>> {
    /// A client's seat.
    type Seat;

    /// The right to launch a group. A table has one.
    type Turn;

    /// A member's part of a group, taken out of the table.
    type Part;

    ghost use Rattle.std.specs.Prelude.{ℕ, List};
    ghost use Rattle.table_rule.specs.declared.content.MemberVersions.{MemberVersions};
    ghost use Rattle.table_rule.specs.declared.content.Version.{Version};
    ghost use Rattle.table_rule.specs.declared.view.Opening.{Opening};
    ghost use Rattle.table_calls.specs.Account.{Account};

    /// What it was opened for.
    ghost opening: { Self → Opening };

    /// What a client's seat knows and has to do.
    ghost account: { Self.Seat → Account };

    /// All that is published. The holder of the turn knows that no group is launched.
    ghost history: { Self.Turn → List (List MemberVersions) };

    /// The versions of a part.
    ghost versions: { Self.Part → List Version };

    /// The seat, and the turn, are of this table.
    ghost ours: { Self → Self.Seat → Type 0 };

    ghost our_turn: { Self → Self.Turn → Type 0 };

    /// The published sequence.
    fn last(&self, seat: &mut Self::Seat) -> u64
        requires { ours self.now seat.old }
        ensures ours { ours self.now seat.new }
        ensures seen { Learns (opening self.now).start (account seat.old) (account seat.new) }
        ensures value { result ≡ last_of (opening self.now).start (account seat.new).seen };

    /// The number of its lock words.
    fn locks(&self) -> u64
        ensures { result ≡ (opening self.now).shards };

    /// The value of a family's key, with the published sequence as of which it was read. Want of memory leaves the
    /// table as it was.
    fn read_in<R: Wait + rt::Clock>(
        &self,
        alloc: Global,
        rt: &R,
        seat: &mut Self::Seat,
        family: u32,
        key: &[u8],
    ) -> Result<Read, NoMemory>
        requires { ours self.now seat.old }
        ensures ours { ours self.now seat.new }
        // A seat never sees less than it has seen: so no later read of a client goes back.
        ensures seen { Learns (opening self.now).start (account seat.old) (account seat.new) }
        ensures at { IfOk result (λ read. read.at ≡ last_of (opening self.now).start (account seat.new).seen) }
        // Versions above the sequence that is answered change nothing.
        ensures value { IfOk result (λ read. found_value read.value ≡ value_in (opening self.now).base
            (record { family = family; bytes = key.now }) (account seat.new).seen) };

    /// The values of keys in families, all as of one published sequence.
    fn read_many_in<R: Wait + rt::Clock>(
        &self,
        alloc: Global,
        rt: &R,
        seat: &mut Self::Seat,
        places: &[Place],
    ) -> Result<Reads, NoMemory>
        requires { ours self.now seat.old }
        ensures ours { ours self.now seat.new }
        ensures seen { Learns (opening self.now).start (account seat.old) (account seat.new) }
        ensures at { IfOk result (λ reads. reads.at ≡ last_of (opening self.now).start (account seat.new).seen) }
        // All are values of one map, at one end of what is published.
        ensures values { IfOk result (λ reads. reads.values
            ≡ map (λ (p : Place). value_in (opening self.now).base
            (record { family = p.family; bytes = p.key }) (account seat.new).seen) places.now) };

    /// The keys of a family from `lo` on and below `hi` with their values, all as of one published sequence, in byte
    /// order.
    fn scan_in<R: Wait + rt::Clock>(
        &self,
        alloc: Global,
        rt: &R,
        seat: &mut Self::Seat,
        family: u32,
        lo: &[u8],
        hi: &[u8],
    ) -> Result<Rows, NoMemory>
        requires { ours self.now seat.old }
        ensures ours { ours self.now seat.new }
        ensures seen { Learns (opening self.now).start (account seat.old) (account seat.new) }
        ensures at { IfOk result (λ rows. rows.at ≡ last_of (opening self.now).start (account seat.new).seen) }
        ensures rows { IfOk result (λ rows. rows.rows ≡ rows_within family lo.now hi.now
            (map_after (opening self.now).base (account seat.new).seen)) };

    /// Launches a group, and hands each member its nodes: next, each member takes its own part, by its own seat. The
    /// client that launches needn't have a part. Its seat keeps the turn until `await_published`.
    fn launch(&self, seat: &mut Self::Seat, turn: Self::Turn, parts: &mut GroupList)
        requires ours { ours self.now seat.old × our_turn self.now turn }
        requires ready { IsReady (account seat.old) }
        requires next { IsNext (opening self.now) (history turn) (GroupList.parts parts.old) }
        requires fits { end_of (last_of (opening self.now).start (history turn)) (GroupList.parts parts.old) < 2 ^ 64 }
        ensures ours { ours self.now seat.new }
        // The seat that launches must take its own part next, if it has one.
        ensures launched { Launches (opening self.now).start (account seat.old) (history turn)
            (GroupList.parts parts.old) (account seat.new) }
        ensures emptied { GroupList.parts parts.new ≡ [] }
        // Who leads the next group needs no memory for its parts.
        ensures room { GroupList.room parts.new ≡ GroupList.room parts.old };

    /// Waits until the client's part is handed out, and takes it.
    fn take<R: Wait + rt::Clock>(&self, rt: &R, seat: &mut Self::Seat) -> Self::Part
        requires ours { ours self.now seat.old }
        requires free { MayTake (account seat.old).stage }
        ensures ours { ours self.now seat.new }
        // The part is of a group that goes right after all that is published, and of the launched group where the seat
        // itself launched one.
        ensures taken { Takes (opening self.now) (account seat.old) (versions result) (account seat.new) };

    /// Puts the part's nodes into their trees, each under its lock.
    fn insert<R: Wait + rt::Clock>(&self, rt: &R, seat: &mut Self::Seat, part: Self::Part)
        requires ours { ours self.now seat.old }
        requires taken { (u : Launched) × ((account seat.old).stage ≡ Holding (work u [] (versions part))) }
        ensures ours { ours self.now seat.new }
        ensures stored { (u : Launched) → (account seat.old).stage ≡ Holding (work u [] (versions part))
            → Steps (account seat.old) (Stored u) (account seat.new) };

    /// Finishes the client's part. The client is the last of its group just where it finds no other member running.
    fn finish(&self, seat: &mut Self::Seat) -> Finished
        requires ours { ours self.now seat.old }
        requires stored { (u : Launched) × ((account seat.old).stage ≡ Stored u) }
        ensures ours { ours self.now seat.new }
        // That it finds as many members as haven't finished is said of the rule's step (`steps_and_events: count`).
        ensures counted { (u : Launched) → (account seat.old).stage ≡ Stored u
            → Counts (account seat.old) u result (account seat.new) };

    /// Publishes the group, in which this client finished last. The client has then seen it.
    fn publish(&self, seat: &mut Self::Seat)
        requires ours { ours self.now seat.old }
        requires last_one { (u : Launched) × ((account seat.old).stage ≡ Publishing u) }
        ensures ours { ours self.now seat.new }
        // The group is the end of what the seat has seen.
        ensures published { (u : Launched) → (account seat.old).stage ≡ Publishing u
            → Publishes (opening self.now).start (account seat.old) u (account seat.new) };

    /// Waits until the group that this client launched is published, and takes the turn back. `last` is the group's
    /// last sequence.
    fn await_published<R: Wait + rt::Clock>(
        &self,
        rt: &R,
        seat: &mut Self::Seat,
        last: u64,
    ) -> Self::Turn
        requires ours { ours self.now seat.old }
        requires idle { (account seat.old).stage ≡ Idle }
        requires launched { (u : Launched) × ((account seat.old).launched ≡ Some u) × (last ≡ u.last) }
        ensures ours { ours self.now seat.new × our_turn self.now result }
        // The turn shows the group after all that it showed before, so the next group can be launched.
        ensures published { (u : Launched) → (account seat.old).launched ≡ Some u
            → history result ≡ u.before ++ u.group ∷ [] }
        ensures seen { Learns (opening self.now).start (record (account seat.old) { launched = None })
            (account seat.new) }
        ensures reached { last ≤ last_of (opening self.now).start (account seat.new).seen };

    /// Waits until the client has seen what is published up to a sequence.
    fn await_seen<R: Wait + rt::Clock>(&self, rt: &R, seat: &mut Self::Seat, at_least: u64)
        requires { ours self.now seat.old }
        ensures ours { ours self.now seat.new }
        ensures seen { Learns (opening self.now).start (account seat.old) (account seat.new) }
        ensures reached { at_least ≤ last_of (opening self.now).start (account seat.new).seen };

    /// Gives the table up, with all seats.
    fn close(self, seats: Seats<Self::Seat, Self::Turn>)
        requires turn { our_turn self seats.turn }
        requires clients { (seat : Self.Seat) → In seat seats.clients.items → ours self seat × IsReady (account seat) }
        // What was published is one history, and each seat has seen a beginning of it.
        ensures { IsClosing (opening self).start (history seats.turn) (map account seats.clients.items) };
}
