//! How a leader leaves: it puts the replies into the slots, gives the log back or on, and then tells each member that
//! its reply is there.
ghost use Rattle.std.specs.Prelude.{◌≡◌, ℕ, ◌+◌, ◌^◌, ◌<◌, ◌≤◌, [], ◌∷◌, ◌++◌, vec_len, vec_capacity, length, reverse};
ghost use Rattle.line_rule.specs.declared.content.LineSlot.{LineSlot};
ghost use Rattle.line_rule.specs.declared.content.LineSlot.TheVariants.{Empty, Told, TheLog};
ghost use Rattle.line_rule.specs.declared.view.QueuedWriter.{QueuedWriter};
ghost use Rattle.line_rule.specs.declared.view.LineStage.TheVariants.{Idle};
ghost use Rattle.line_rule.specs.Before.{Carried};
ghost use Rattle.line_rule.specs.Chain.{heads, Within};
ghost use Rattle.line_rule.specs.Plays.{At, debt, blanks};
ghost use Rattle.line_writers.specs.Roles.{Leaves, MayLeave, MayWake, MayHandOn, bys, firsts, fills};
ghost use Rattle.line_writers.specs.Rooms.{HasRoom};
ghost use Rattle.line_writers.specs.Seats.{asks_of, client_of, clients_of, law_of, flat_of, Belongs, IsOut, Stays, answers_told, table_of};
ghost use Rattle.line_writers.specs.Groups.{Answers, Members, all_handled, Owes, ForHandled, HasReplies, ForReplies};

use crate::line_writers::WriterList;
use crate::room::{Replies, Room};
use crate::writer::Writer;
use line_rule::{
    Complete, CutOff, GivesRun, HasGroupingItem, Leave, LineSlot, LogOfGroups, Older, Retire,
    STATE_DONE, STATE_LEADS_LOG, Wake, older_word, state_word,
};

impl<
    Request: HasGroupingItem,
    Reply: GivesRun,
    Log: LogOfGroups<Request, Reply, Right>,
    Right,
> WriterList<Request, Reply, Log, Right> {
    /// Ends a group with its replies. The log, which covers all that was handled before and the group, goes back to
    /// the list, or on to the next leader. Then each member gets its reply. Returns the leader's own reply. Where the
    /// list has a second one, no reply may give a run.
    pub fn exit(
        &self,
        writer: &mut Writer<Request, Reply, Log, Right>,
        log: Log,
        replies: &mut Replies<Reply>,
        room: &mut Room,
    ) -> Reply
        // The log must cover this group, and there must be one reply for each member, in link order.
        requires group { Belongs self.now writer.old × HasReplies (asks_of Request.item_of Log.lawful self.now)
            (clients_of self.now) replies.old.list.items
            (λ lead d. law_of Reply.run_of Log.LogOfGroups self.now log (all_handled lead d)
            × flat_of Reply.run_of self.now lead.seen (all_handled lead d)) writer.old }
        requires room { HasRoom (clients_of self.now) room.old × (vec_len replies.old.list ≤ clients_of self.now) }
        ensures room { HasRoom (clients_of self.now) room.new × (replies.new.list.items ≡ []) }
        // So a leader needs no memory for the next group.
        ensures replies_room { vec_capacity replies.new.list ≡ vec_capacity replies.old.list }
        ensures client { client_of writer.new ≡ client_of writer.old }
        // That each other member gets its own reply is what `await_role` says to that member.
        ensures out { Belongs self.now writer.new × IsOut writer.new
            × ForReplies (asks_of Request.item_of Log.lawful self.now) (clients_of self.now) replies.old.list.items
            writer.old (λ lead d. (answers_told writer.new ≡ answers_told writer.old ++ (d.own.asked, d.reply) ∷ [])
            × (result ≡ d.reply)) }
    {
        self.fill(writer, &mut replies.list, &mut room.members);
        self.put_log(writer, log);
        self.hand_on(
            writer,
            room.members[0] as u64,
            room.members.len(),
            &mut room.walk,
        );
        self.tell_all(writer, room.members.as_slice());
        room.members.clear();
        self.retire(writer)
    }

    /// Puts the replies, which are given in link order, into the slots of the members, and lists the members, newest
    /// first.
    pub(crate) fn fill(
        &self,
        writer: &mut Writer<Request, Reply, Log, Right>,
        replies: &mut Vec<(u32, Reply)>,
        members: &mut Vec<u32>,
    )
        requires seat { writer.old.seat.table_id ≡ self.now.table.shared.table_id }
        requires held { writer.old.seat.me.1 ≡ blanks (firsts (reverse replies.old.items)) ((0, Empty) ∷ []) }
        requires room { (vec_len replies.old ≡ length replies.old.items) × (members.old.items ≡ [])
            × (vec_len members.old ≡ 0) × (vec_len replies.old ≤ vec_capacity members.old) }
        ensures seat { (writer.new.seat.table_id ≡ writer.old.seat.table_id)
            × (writer.new.client ≡ writer.old.client) × (writer.new.seat.me.0 ≡ writer.old.seat.me.0) }
        ensures filled { (writer.new.seat.me.1 ≡ (0, Empty) ∷ fills (reverse replies.old.items))
            × (members.new.items ≡ firsts (reverse replies.old.items)) × (replies.new.items ≡ [])
            × (vec_capacity members.new ≡ vec_capacity members.old) }
        ensures room { vec_capacity replies.new ≡ vec_capacity replies.old }
    {
        // The last `i` replies are in their slots, and their members are listed.
        for i in 0..replies.len() {
            let Some((member, reply)) = replies.pop() else {
                unreachable!()
            };
            // The slot, Empty -> Told: the log that goes on covers the group with these replies, and a member takes its
            // reply as soon as it is told, so all replies are there before both. `ExitAsBatchGroupLeader` sets `status`
            // before `SetState`.
            match self
                .table
                .shared
                .exchange(&mut writer.seat, member as usize, LineSlot::Told(reply))
            {
                LineSlot::Empty => writer.seat.turn(),
                _ => unreachable!(),
            }
            members.push_reserved(member);
        }
    }

    /// Puts the log into its slot.
    pub(crate) fn put_log(&self, writer: &mut Writer<Request, Reply, Log, Right>, log: Log)
        requires seat { writer.old.seat.table_id ≡ self.now.table.shared.table_id }
        requires held { (t : Carried Request Reply Log Right) × (writer.old.seat.me.1 ≡ (0, Empty) ∷ t) }
        ensures seat { (writer.new.seat.table_id ≡ writer.old.seat.table_id)
            × (writer.new.client ≡ writer.old.client) × (writer.new.seat.me.0 ≡ writer.old.seat.me.0) }
        ensures put { (t : Carried Request Reply Log Right) → writer.old.seat.me.1 ≡ (0, Empty) ∷ t
            → writer.new.seat.me.1 ≡ (0, TheLog log) ∷ t }
    {
        // Slot 0, Empty -> TheLog: the next leader takes the log as soon as it leads, so it is there before.
        match self
            .table
            .shared
            .exchange(&mut writer.seat, 0, LineSlot::TheLog(log))
        {
            LineSlot::Empty => {}
            _ => unreachable!(),
        }
    }

    /// Gives the log back to the list, or on to the oldest writer after the group, which has `count` members.
    fn hand_on(
        &self,
        writer: &mut Writer<Request, Reply, Log, Right>,
        newest_member: u64,
        count: usize,
        walk: &mut Vec<(u64, u64)>,
    )
        requires seat { (writer.old.seat.table_id ≡ self.now.table.shared.table_id) × (vec_len walk.old ≡ 0)
            × (walk.old.items ≡ []) × (self.now.clients ≤ vec_capacity walk.old) }
        requires ready { MayHandOn (law_of Reply.run_of Log.LogOfGroups self.now) (flat_of Reply.run_of self.now)
            writer.old.client newest_member count writer.old.seat.me }
        ensures seat { (writer.new.seat.table_id ≡ writer.old.seat.table_id)
            × (writer.new.client ≡ writer.old.client) × (walk.new.items ≡ []) × (vec_len walk.new ≡ 0)
            × (vec_capacity walk.new ≡ vec_capacity walk.old) }
        ensures settling { ForHandled writer.old.client writer.old.seat.me (λ lead mine d.
            Owes writer.old.client d mine writer.new.seat.me) }
    {
        let found = self.leave(writer, newest_member);
        if found == newest_member {
            return;
        }
        self.survey(writer, found, 0, walk);
        let (next, code) = walk[walk.len() - count - 1];
        walk.clear();
        self.wake(writer, next, code);
    }

    /// Gives the log back to the list where no writer came after the group. Returns the newest writer that it found.
    fn leave(&self, writer: &mut Writer<Request, Reply, Log, Right>, newest_member: u64) -> u64
        requires seat { writer.old.seat.table_id ≡ self.now.table.shared.table_id }
        requires ready { MayLeave (law_of Reply.run_of Log.LogOfGroups self.now) (flat_of Reply.run_of self.now)
            writer.old.client newest_member writer.old.seat.me }
        ensures seat { Stays writer.new writer.old }
        ensures left { ForHandled writer.old.client writer.old.seat.me (λ lead mine d.
            Leaves writer.old.client lead d.rest d.reply mine (table_of self.now).slots newest_member result
            writer.old.seat.me writer.new.seat.me) }
    {
        // Leading -> Settling where nobody came after the group: the list is empty from here on, and the next writer
        // that links leads at once. Leading still where somebody came: it saw a writer before it, so it waits until it
        // is woken. A second try would fail too, since only a leader takes writers out. The exchange of
        // `ExitAsBatchGroupLeader`.
        self.table
            .shared
            .compare_exchange::<Leave>(&mut writer.seat, 0, newest_member, 0)
    }

    /// Clears the link of the oldest writer after the group, and gives it the log.
    fn wake(&self, writer: &mut Writer<Request, Reply, Log, Right>, next: u64, code: u64)
        requires seat { (writer.old.seat.table_id ≡ self.now.table.shared.table_id)
            × (0 < next) × (next ≤ self.now.clients) × (code < 2 ^ 56) }
        requires ready { MayWake (law_of Reply.run_of Log.LogOfGroups self.now) (flat_of Reply.run_of self.now)
            writer.old.client next code writer.old.seat.me }
        ensures seat { Stays writer.new writer.old }
        ensures left { ForHandled writer.old.client writer.old.seat.me (λ lead mine d.
            Owes writer.old.client d mine writer.new.seat.me) }
    {
        let shared = &self.table.shared;
        let cleared = Older { client: 0, code };
        // Leading -> Cutting: the next leader's walk must end at itself. If it led before this, it would walk on to
        // writers of this group, which may have linked again by then. `link_newer->link_older = nullptr` of
        // `ExitAsBatchGroupLeader`.
        shared.store::<CutOff>(&mut writer.seat, older_word(next), cleared.pack());
        // Cutting -> Settling: the next leader has the log from here on. Nobody else says so, so without this it and
        // all behind it would wait for ever. The members are told after it, so that the next group needn't wait for
        // that. `SetState` of `ExitAsBatchGroupLeader`, to `STATE_GROUP_LEADER`.
        shared.store::<Wake>(&mut writer.seat, state_word(next), STATE_LEADS_LOG);
        self.bells.ring(next);
    }

    /// Tells each member except the leader that its reply is there.
    pub(crate) fn tell_all(&self, writer: &mut Writer<Request, Reply, Log, Right>, members: &[u32])
        requires seat { writer.old.seat.table_id ≡ self.now.table.shared.table_id }
        requires owed { (mine : Answers Request Reply) × (gs : Members Request Reply) × (own : QueuedWriter Request)
            × (p : Reply) × Owes writer.old.client (debt gs own p) mine writer.old.seat.me
            × (members.now ≡ bys (heads gs ++ own ∷ [])) × Within self.now.clients (heads gs) }
        ensures seat { Stays writer.new writer.old }
        ensures told { (mine : Answers Request Reply) (gs : Members Request Reply) (own : QueuedWriter Request)
            (p : Reply) → Owes writer.old.client (debt gs own p) mine writer.old.seat.me
            → Owes writer.old.client (debt [] own p) mine writer.new.seat.me }
    {
        // The newest `i` members have their replies.
        for i in 0..members.len() - 1 {
            self.complete(writer, members[i]);
        }
        self.ring_all(members);
    }

    /// Wakes the members once all have their replies: a member that still looks, awake, need not wait for the calls
    /// that wake others.
    fn ring_all(&self, members: &[u32]) {
        // The members before this one were woken, if they slept.
        for member in members {
            self.bells.ring(*member as u64);
        }
    }

    /// Tells one member that its reply is in its slot. It isn't woken here.
    pub(crate) fn complete(&self, writer: &mut Writer<Request, Reply, Log, Right>, member: u32)
        requires seat { (writer.old.seat.table_id ≡ self.now.table.shared.table_id)
            × (0 < member) × (member ≤ self.now.clients) }
        requires owed { (mine : Answers Request Reply) × (g : QueuedWriter Request × Reply)
            × (gs : Members Request Reply) × (own : QueuedWriter Request) × (p : Reply)
            × Owes writer.old.client (debt (g ∷ gs) own p) mine writer.old.seat.me × (g.0.by ≡ member) }
        ensures seat { Stays writer.new writer.old }
        ensures told { (mine : Answers Request Reply) (g : QueuedWriter Request × Reply) (gs : Members Request Reply)
            (own : QueuedWriter Request) (p : Reply)
            → Owes writer.old.client (debt (g ∷ gs) own p) mine writer.old.seat.me
            → Owes writer.old.client (debt gs own p) mine writer.new.seat.me }
    {
        // Settling, with one reply less to tell: the member has its slot with the reply, and may link again at once, so
        // the leader touches none of its words after this. `SetState` of `ExitAsBatchGroupLeader`,
        // `ExitAsMemTableWriter` and `CompleteFollower`, to `STATE_COMPLETED`.
        self.table
            .shared
            .store::<Complete>(&mut writer.seat, state_word(member as u64), STATE_DONE);
    }

    /// The leader's own last step. Returns its reply.
    pub(crate) fn retire(&self, writer: &mut Writer<Request, Reply, Log, Right>) -> Reply
        requires seat { (writer.old.seat.table_id ≡ self.now.table.shared.table_id)
            × (0 < writer.old.client) × (writer.old.client ≤ self.now.clients) }
        requires owed { (mine : Answers Request Reply) × (own : QueuedWriter Request) × (p : Reply)
            × Owes writer.old.client (debt [] own p) mine writer.old.seat.me }
        ensures seat { Stays writer.new writer.old }
        ensures idle { (mine : Answers Request Reply) (own : QueuedWriter Request) (p : Reply)
            → Owes writer.old.client (debt [] own p) mine writer.old.seat.me
            → At writer.old.client Idle (mine ++ (own.asked, p) ∷ []) writer.new.seat.me
            × (writer.new.seat.me.1 ≡ []) × (result ≡ p) }
    {
        let shared = &self.table.shared;
        let c = writer.client;
        // The slot, Told -> Empty: the leader's slot is its own up to its last step, so its reply is still there.
        match shared.exchange(&mut writer.seat, c as usize, LineSlot::Empty) {
            LineSlot::Told(reply) => {
                // Settling -> Idle: nobody waits for this state, but the empty slot goes back to the list by it. It
                // comes last: an idle writer owes nothing, and who wasn't told before would wait for ever. The last
                // `SetState` of `ExitAsMemTableWriter`, and that of `CompleteLeader`.
                shared.store::<Retire>(&mut writer.seat, state_word(c as u64), STATE_DONE);
                reply
            }
            _ => unreachable!(),
        }
    }
}
