//! How a group comes into the second list.
ghost use Rattle.std.specs.Prelude.{◌≡◌, ℕ, ◌+◌, ◌^◌, ◌<◌, ◌≤◌, [], ◌∷◌, ◌++◌, true, vec_len, vec_capacity, length, Some};
ghost use Rattle.line_rule.specs.declared.view.Back.TheVariants.{Parting};
ghost use Rattle.line_rule.specs.declared.view.Lead.{Lead};
ghost use Rattle.line_rule.specs.declared.view.Squad.{Squad};
ghost use Rattle.line_rule.specs.declared.view.LineStage.{LineStage};
ghost use Rattle.line_rule.specs.declared.view.LineStage.TheVariants.{Leading};
ghost use Rattle.line_rule.specs.Before.{Carried};
ghost use Rattle.line_rule.specs.Chain.{newest, heads};
ghost use Rattle.line_rule.specs.Standing.{line_of};
ghost use Rattle.line_rule.specs.Laws.{given_runs};
ghost use Rattle.line_rule.specs.Plays.{At, AtWith, debt, IsCut};
ghost use Rattle.line_writers.specs.Roles.{HasJoined, HasSent, bys};
ghost use Rattle.line_writers.specs.Rooms.{HasRoom};
ghost use Rattle.line_writers.specs.Seats.{about_of, asks_of, client_of, clients_of, law_of, piped_of, Belongs, Stays, answers_told};
ghost use Rattle.line_writers.specs.Second.{IsSent, ListsMembers};
ghost use Rattle.line_writers.specs.Groups.{Queue, Answers, Members, all_handled, squad_sent, AreGiven, LeadsWhole, HasLogAndReplies, ForHandled, Joins, HasReplies, ForReplies};

use crate::line_writers::WriterList;
use crate::room::{Replies, Room};
use crate::writer::{Task, Writer};
use line_rule::{
    AimSecond, GivesRun, HasGroupingItem, JoinSecond, LogOfGroups, Older, PickedGiven, PickedRight,
    ReadNewest, ReadOlder, older_word,
};
use std::marker::Brand;
use std::rt;
use std::sync::Wait;

impl<
    Request: HasGroupingItem,
    Reply: GivesRun,
    Log: LogOfGroups<Request, Reply, Right>,
    Right,
> WriterList<Request, Reply, Log, Right> {
    /// Moves a group to the second list, with its replies in its slots. The log, which covers all that was handled
    /// before and the group, goes back to the list, or on to the next leader. Then the writer waits for the right; it
    /// already has the right where there was no other group in the second list.
    pub fn exit_pipelined<R: Wait + rt::Clock>(
        &self,
        rt: &R,
        writer: &mut Writer<Request, Reply, Log, Right>,
        log: Log,
        replies: &mut Replies<Reply>,
        room: &mut Room,
    )
        requires piped { piped_of self.now ≡ true }
        requires group { Belongs self.now writer.old × HasReplies (asks_of Request.item_of Log.lawful self.now)
            (clients_of self.now) replies.old.list.items
            (λ lead d. law_of Reply.run_of Log.LogOfGroups self.now log (all_handled lead d)) writer.old }
        requires room { HasRoom (clients_of self.now) room.old × (vec_len replies.old.list ≤ clients_of self.now) }
        ensures replies { (replies.new.list.items ≡ [])
            × (vec_capacity replies.new.list ≡ vec_capacity replies.old.list) }
        ensures client { (client_of writer.new ≡ client_of writer.old) × Belongs self.now writer.new }
        // The group comes after all that was given runs before it, so groups are served in the order of the log.
        ensures sent { ForReplies (asks_of Request.item_of Log.lawful self.now) (clients_of self.now)
            replies.old.list.items writer.old (λ lead d. IsSent (Log.serves (about_of self.now)) (clients_of self.now) d
            (given_runs Reply.run_of lead.seen) (given_runs Reply.run_of (all_handled lead d))
            (answers_told writer.old) writer.new × ListsMembers (clients_of self.now) d room.new) }
    {
        let alone = self.exit_from::<Brand, Brand, R>(rt, writer, log, &mut replies.list, room);
        if alone {
            self.rotate(writer, room.members.len());
            writer.task = Task::Serves;
            return;
        }
        writer.task = Task::Queues;
    }

    /// Does the work of `exit_pipelined`. The caller picks what was given runs before the group, and with it. Returns
    /// true where the leader has the right.
    fn exit_from<
        Given: PickedGiven<Request, Reply>,
        ForRight: PickedRight<Request, Reply, Log::About>,
        R: Wait + rt::Clock,
    >(
        &self,
        rt: &R,
        writer: &mut Writer<Request, Reply, Log, Right>,
        log: Log,
        replies: &mut Vec<(u32, Reply)>,
        room: &mut Room,
    ) -> bool
        requires piped { piped_of self.now ≡ true }
        requires about { ForRight.about ≡ Some (about_of self.now) }
        requires group { Belongs self.now writer.old × HasReplies (asks_of Request.item_of Log.lawful self.now)
            (clients_of self.now) replies.old.items
            (λ lead d. law_of Reply.run_of Log.LogOfGroups self.now log (all_handled lead d)
            × AreGiven Reply.run_of Given.given ForRight.given lead.seen (all_handled lead d)) writer.old }
        requires room { HasRoom (clients_of self.now) room.old × (vec_len replies.old ≤ clients_of self.now) }
        ensures seat { Stays writer.new writer.old }
        ensures replies { (replies.new.items ≡ []) × (vec_capacity replies.new ≡ vec_capacity replies.old) }
        ensures room { (vec_len room.new.walk ≡ 0) × (room.new.walk.items ≡ [])
            × (clients_of self.now ≤ vec_capacity room.new.walk)
            × (clients_of self.now ≤ vec_capacity room.new.members) }
        ensures sent { ForReplies (asks_of Request.item_of Log.lawful self.now) (clients_of self.now) replies.old.items
            writer.old (λ lead d. HasSent (Log.serves (about_of self.now)) self.now.clients writer.old.client result d
            (answers_told writer.old) (squad_sent lead Given.given ForRight.given) writer.new.seat.me
            × (room.new.members.items ≡ bys (heads d.rest ++ d.own ∷ []))) }
    {
        let code = self.own_code(writer);
        self.fill(writer, replies, &mut room.members);
        self.put_log(writer, log);
        self.send_on::<Given, ForRight, R>(
            rt,
            writer,
            code,
            room.members[0] as u64,
            room.members.len(),
            &mut room.walk,
        )
    }

    /// The code of the leader's own item, which its link holds.
    fn own_code(&self, writer: &mut Writer<Request, Reply, Log, Right>) -> u64
        requires seat { (writer.old.seat.table_id ≡ self.now.table.shared.table_id)
            × (writer.old.client ≤ self.now.clients) }
        ensures seat { (writer.new.seat.table_id ≡ writer.old.seat.table_id)
            × (writer.new.client ≡ writer.old.client) × (writer.new.seat.me ≡ writer.old.seat.me) }
        ensures code { (lead : Lead Request Reply) (mine : Answers Request Reply) (newer : Queue Request)
            → At writer.old.client (Leading lead) mine writer.old.seat.me → lead.walk ≡ newer ++ lead.own ∷ []
            → lead.own.by ≡ writer.old.client → result ≡ lead.own.code }
        ensures small { result < 2 ^ 56 }
    {
        let c = writer.client;
        let word = self
            .table
            .shared
            .load::<ReadOlder>(&mut writer.seat, older_word(c as u64));
        Older::of(word).code
    }

    /// Moves the group to the second list, and gives the log on. Returns true where the leader has taken the right.
    fn send_on<
        Given: PickedGiven<Request, Reply>,
        ForRight: PickedRight<Request, Reply, Log::About>,
        R: Wait + rt::Clock,
    >(
        &self,
        rt: &R,
        writer: &mut Writer<Request, Reply, Log, Right>,
        code: u64,
        newest_member: u64,
        count: usize,
        walk: &mut Vec<(u64, u64)>,
    ) -> bool
        requires piped { piped_of self.now ≡ true }
        requires about { ForRight.about ≡ Some (about_of self.now) }
        requires seat { (writer.old.seat.table_id ≡ self.now.table.shared.table_id) × (0 < writer.old.client)
            × (writer.old.client ≤ self.now.clients) × (code < 2 ^ 56) }
        requires room { (vec_len walk.old ≡ 0) × (walk.old.items ≡ []) × (self.now.clients ≤ vec_capacity walk.old) }
        requires ready { (lead : Lead Request Reply) × (mine : Answers Request Reply) × (gs : Members Request Reply)
            × (p : Reply) × (l : Log) × LeadsWhole writer.old.client newest_member count lead mine writer.old.seat.me
            × (lead.own.code ≡ code) × HasLogAndReplies writer.old.client lead gs p l writer.old.seat.me
            × law_of Reply.run_of Log.LogOfGroups self.now l (all_handled lead (debt gs lead.own p))
            × AreGiven Reply.run_of Given.given ForRight.given lead.seen (all_handled lead (debt gs lead.own p)) }
        ensures seat { (writer.new.seat.table_id ≡ writer.old.seat.table_id)
            × (writer.new.client ≡ writer.old.client) × (walk.new.items ≡ []) × (vec_len walk.new ≡ 0)
            × (vec_capacity walk.new ≡ vec_capacity walk.old) }
        ensures sent { ForHandled writer.old.client writer.old.seat.me (λ lead mine d.
            HasSent (Log.serves (about_of self.now)) self.now.clients writer.old.client result d mine
            (squad_sent lead Given.given ForRight.given) writer.new.seat.me) }
    {
        let next = self.part::<Given>(writer, newest_member, count, walk);
        let alone = self.join_second::<ForRight, R>(rt, writer, code, newest_member);
        if alone {
            writer.seat.turn();
            self.go_on(writer, next, walk);
            return true;
        }
        self.go_on(writer, next, walk);
        false
    }

    /// Puts the group, which is cut off from the first list, into the second. Returns true where its leader takes the
    /// right.
    fn join_second<ForRight: PickedRight<Request, Reply, Log::About>, R: Wait + rt::Clock>(
        &self,
        rt: &R,
        writer: &mut Writer<Request, Reply, Log, Right>,
        code: u64,
        newest_member: u64,
    ) -> bool
        requires piped { piped_of self.now ≡ true }
        requires about { ForRight.about ≡ Some (about_of self.now) }
        requires seat { (writer.old.seat.table_id ≡ self.now.table.shared.table_id) × (0 < writer.old.client)
            × (writer.old.client ≤ self.now.clients) × (code < 2 ^ 56) }
        requires parted { (st : LineStage Request Reply) × (lead : Lead Request Reply) × (mine : Answers Request Reply)
            × (g : Squad Request Reply) × (b : ℕ)
            × AtWith writer.old.client st mine (Parting g b) writer.old.seat.me × (g.own.code ≡ code)
            × IsCut lead st × (g.from ≡ given_runs Reply.run_of lead.seen) × (newest_member ≡ newest (line_of g)) }
        ensures seat { Stays writer.new writer.old }
        ensures joined { (st : LineStage Request Reply) (mine : Answers Request Reply) (g : Squad Request Reply) (b : ℕ)
            → AtWith writer.old.client st mine (Parting g b) writer.old.seat.me
            → HasJoined (Log.serves (about_of self.now)) self.now.clients writer.old.client ForRight.given result st
            mine g writer.old.seat.me writer.new.seat.me }
    {
        let shared = &self.table.shared;
        let pauses = self.pauses();
        // Until the exchange succeeds, the group is cut off from the first list, and not in the second.
        for _ in rt.forever() {
            let older = shared.load::<ReadNewest>(&mut writer.seat, 1);
            self.aim_second(writer, older, code);
            let found = self.enter_second::<ForRight>(writer, older, newest_member);
            if found == older {
                return older == 0;
            }
            pauses.retry(rt);
        }
        unreachable!()
    }

    /// Lets the leader of a group that is cut off name `older`, the newest writer of the second list, in its link.
    fn aim_second(&self, writer: &mut Writer<Request, Reply, Log, Right>, older: u64, code: u64)
        requires seat { (writer.old.seat.table_id ≡ self.now.table.shared.table_id) × (0 < writer.old.client)
            × (writer.old.client ≤ self.now.clients) × (older < 256) × (code < 2 ^ 56) }
        requires parted { (st : LineStage Request Reply) × (mine : Answers Request Reply) × (g : Squad Request Reply)
            × (b : ℕ)
            × AtWith writer.old.client st mine (Parting g b) writer.old.seat.me × (g.own.code ≡ code) }
        ensures seat { Stays writer.new writer.old }
        ensures aimed { (st : LineStage Request Reply) (mine : Answers Request Reply) (g : Squad Request Reply) (b : ℕ)
            → AtWith writer.old.client st mine (Parting g b) writer.old.seat.me → g.own.code ≡ code
            → AtWith writer.old.client st mine (Parting g older) writer.new.seat.me
            × (writer.new.seat.me.1 ≡ writer.old.seat.me.1) }
    {
        let c = writer.client;
        let named = Older {
            client: older,
            code,
        };
        // Parting, with this older writer: who walks the second list goes on from the group's oldest writer by this
        // link, so it is named before the exchange. `leader->link_older = newest` of `LinkGroup`.
        self.table
            .shared
            .store::<AimSecond>(&mut writer.seat, older_word(c as u64), named.pack());
    }

    /// Puts the group into the second list if the newest writer there is still `older`. Returns the newest writer that
    /// it found.
    fn enter_second<ForRight: PickedRight<Request, Reply, Log::About>>(
        &self,
        writer: &mut Writer<Request, Reply, Log, Right>,
        older: u64,
        newest_member: u64,
    ) -> u64
        requires piped { piped_of self.now ≡ true }
        requires about { ForRight.about ≡ Some (about_of self.now) }
        requires seat { writer.old.seat.table_id ≡ self.now.table.shared.table_id }
        requires parted { (st : LineStage Request Reply) × (lead : Lead Request Reply) × (mine : Answers Request Reply)
            × (g : Squad Request Reply)
            × AtWith writer.old.client st mine (Parting g older) writer.old.seat.me × IsCut lead st
            × (g.from ≡ given_runs Reply.run_of lead.seen) × (newest_member ≡ newest (line_of g)) }
        ensures seat { Stays writer.new writer.old }
        ensures entered { (st : LineStage Request Reply) (mine : Answers Request Reply) (g : Squad Request Reply)
            → AtWith writer.old.client st mine (Parting g older) writer.old.seat.me
            → Joins (Log.serves (about_of self.now)) self.now.clients writer.old.client ForRight.given older result st
            mine g writer.old.seat.me writer.new.seat.me }
    {
        // Parting -> Holding where the second list was empty, with the right; Parting -> Joining where it wasn't. It
        // comes before the log goes on, so that groups come in the order of the log. Parting still where the last group
        // has left since, which leaves 0. The exchange of `LinkGroup`, which returns true where that list was empty.
        self.table
            .shared
            .compare_exchange::<JoinSecond<ForRight>>(&mut writer.seat, 1, older, newest_member)
    }

    /// Moves the first `count` slots to the end, after the others.
    fn rotate(&self, writer: &mut Writer<Request, Reply, Log, Right>, count: usize)
        requires first { (a : Carried Request Reply Log Right)
            × (b : Carried Request Reply Log Right)
            × (writer.old.seat.me.1 ≡ a ++ b) × (length a ≡ count) }
        ensures seat { (writer.new.seat.table_id ≡ writer.old.seat.table_id)
            × (writer.new.client ≡ writer.old.client) × (writer.new.seat.me.0 ≡ writer.old.seat.me.0) }
        ensures turned { (a b : Carried Request Reply Log Right) → writer.old.seat.me.1 ≡ a ++ b
            → length a ≡ count
            → writer.new.seat.me.1 ≡ b ++ a }
    {
        // The first `i` slots are after the others, in their order.
        for i in 0..count {
            writer.seat.turn();
        }
    }
}
