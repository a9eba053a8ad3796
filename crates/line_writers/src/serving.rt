//! How the leader of a group of the second list gets the right, lets members work in parallel with it, and leaves.
ghost use Rattle.std.specs.Prelude.{◌≡◌, ◌≢◌, ℕ, ◌+◌, ◌^◌, ◌<◌, ◌≤◌, [], ◌∷◌, ◌++◌, true, vec_len, vec_capacity, length, Some, None, IfSome};
ghost use Rattle.line_rule.specs.declared.content.LineSlot.{LineSlot};
ghost use Rattle.line_rule.specs.declared.content.LineSlot.TheVariants.{Empty, TheRight};
ghost use Rattle.line_rule.specs.declared.view.Back.TheVariants.{Queued, Serving, Passing};
ghost use Rattle.line_rule.specs.declared.view.Debt.{Debt};
ghost use Rattle.line_rule.specs.declared.view.QueuedWriter.{QueuedWriter};
ghost use Rattle.line_rule.specs.declared.view.Squad.{Squad};
ghost use Rattle.line_rule.specs.declared.view.LineStage.{LineStage};
ghost use Rattle.line_rule.specs.declared.view.LineStage.TheVariants.{Settling};
ghost use Rattle.line_rule.specs.Before.{Carried};
ghost use Rattle.line_rule.specs.Chain.{newest};
ghost use Rattle.line_rule.specs.Standing.{line_of};
ghost use Rattle.line_rule.specs.Plays.{At, AtWith, debt, WalksSecond};
ghost use Rattle.line_writers.specs.Roles.{AreMembers};
ghost use Rattle.line_writers.specs.Rooms.{HasRoom};
ghost use Rattle.line_writers.specs.Seats.{about_of, client_of, clients_of, piped_of, Belongs, IsOut, Stays, answers_told, table_of};
ghost use Rattle.line_writers.specs.Second.{HasRight, ListsMembers};
ghost use Rattle.line_writers.specs.Groups.{Queue, Handled, Answers, Members, HasRightOver, ServesWith, ForServing};

use crate::line_writers::WriterList;
use crate::room::Room;
use crate::writer::Writer;
use line_rule::{
    CallNext, ClearSecond, GivesRun, HasGroupingItem, LeaveSecond, LineSlot, LogOfGroups,
    MakeParallel, Older, PickedAbout, STATE_LEADS_TABLE, STATE_PARALLEL, Summon, older_word,
    state_word,
};

impl<
    Request: HasGroupingItem,
    Reply: GivesRun,
    Log: LogOfGroups<Request, Reply, Right>,
    Right,
> WriterList<Request, Reply, Log, Right> {
    /// Asks these members of the group to work in parallel with the leader, which has the right.
    pub fn launch_roles(&self, writer: &mut Writer<Request, Reply, Log, Right>, members: &[u32])
        requires leads { Belongs self.now writer.old
            × ((d : Debt Request Reply) × (from to : Handled Request Reply)
            × (mine : Answers Request Reply) × HasRight (clients_of self.now) d from to mine writer.old
            × AreMembers (clients_of self.now) members.now d.rest) }
        ensures client { (client_of writer.new ≡ client_of writer.old) × Belongs self.now writer.new }
        // The leader keeps the right. That each of them hears of it is in no clause.
        ensures leads { (d : Debt Request Reply) (from to : Handled Request Reply)
            (mine : Answers Request Reply)
            → HasRight (clients_of self.now) d from to mine writer.old
            → HasRight (clients_of self.now) d from to mine writer.new }
    {
        // The first `i` members were asked, and the leader still has the right.
        for i in 0..members.len() {
            self.make_parallel(writer, members[i]);
        }
    }

    /// Ends a group of the second list. The right, which covers what was given runs with the group and before, goes
    /// back to the list, or on to the leader of the next group. Then each member gets its reply. Returns the leader's
    /// own reply.
    pub fn exit_memtable(
        &self,
        writer: &mut Writer<Request, Reply, Log, Right>,
        right: Right,
        room: &mut Room,
    ) -> Reply
        requires piped { piped_of self.now ≡ true }
        // The right must cover the group as well now.
        requires serves { Belongs self.now writer.old
            × ((d : Debt Request Reply) × (from to : Handled Request Reply)
            × (mine : Answers Request Reply) × HasRight (clients_of self.now) d from to mine writer.old
            × Log.serves (about_of self.now) right to
            × ListsMembers (clients_of self.now) d room.old) }
        ensures room { HasRoom (clients_of self.now) room.new }
        ensures client { (client_of writer.new ≡ client_of writer.old) × Belongs self.now writer.new }
        ensures out { IsOut writer.new
            × ((d : Debt Request Reply) (from to : Handled Request Reply) (mine : Answers Request Reply)
            → HasRight (clients_of self.now) d from to mine writer.old
            → (answers_told writer.new ≡ mine ++ (d.own.asked, d.reply) ∷ []) × (result ≡ d.reply)) }
    {
        self.put_right(writer, right);
        self.pass_on(
            writer,
            room.members[0] as u64,
            room.members.len(),
            &mut room.walk,
        );
        self.tell_all(writer, room.members.as_slice());
        room.members.clear();
        self.retire(writer)
    }

    /// Asks a member to work in parallel with its leader.
    fn make_parallel(&self, writer: &mut Writer<Request, Reply, Log, Right>, member: u32)
        requires seat { (writer.old.seat.table_id ≡ self.now.table.shared.table_id) × (0 < member)
            × (member ≤ self.now.clients) }
        requires member { (pre post : Members Request Reply) × (y : QueuedWriter Request × Reply)
            × (own : QueuedWriter Request) × (p : Reply) × (mine : Answers Request Reply) × (g : Squad Request Reply)
            × (walk : Queue Request) × AtWith writer.old.client (Settling (debt (pre ++ y ∷ post) own p)) mine
            (Serving g walk) writer.old.seat.me × (y.0.by ≡ member) }
        ensures seat { Stays writer.new writer.old }
        ensures same { writer.new.seat.me ≡ writer.old.seat.me }
    {
        // Serving still; the member goes Waiting -> Helping once it sees this. After the member's `STATE_DONE` this
        // store would undo that one, and the member would wait for ever. `SetState` of `LaunchParallelMemTableWriters`,
        // to `STATE_PARALLEL_MEMTABLE_WRITER`.
        self.table.shared.store::<MakeParallel>(
            &mut writer.seat,
            state_word(member as u64),
            STATE_PARALLEL,
        );
        self.bells.ring(member as u64);
    }

    /// Looks once whether the group is the oldest of the second list, and takes the right if it is. If it isn't, the
    /// writer is as it was.
    pub(crate) fn poll_right<About: PickedAbout<Log::About>>(
        &self,
        writer: &mut Writer<Request, Reply, Log, Right>,
    ) -> Option<Right>
        requires piped { piped_of self.now ≡ true }
        requires about { About.about ≡ Some (about_of self.now) }
        requires seat { (writer.old.seat.table_id ≡ self.now.table.shared.table_id) × (0 < writer.old.client)
            × (writer.old.client ≤ self.now.clients) }
        requires queued { (d : Debt Request Reply) × (mine : Answers Request Reply) × (g : Squad Request Reply)
            × AtWith writer.old.client (Settling d) mine (Queued g) writer.old.seat.me }
        ensures seat { Stays writer.new writer.old }
        ensures none { result ≡ None → writer.new ≡ writer.old }
        ensures right { (d : Debt Request Reply) (mine : Answers Request Reply) (g : Squad Request Reply)
            → AtWith writer.old.client (Settling d) mine (Queued g) writer.old.seat.me
            → IfSome result (λ right. AtWith writer.old.client (Settling d) mine (Serving g []) writer.new.seat.me
            × (writer.new.seat.me.1 ≡ (self.now.clients + 1, Empty) ∷ writer.old.seat.me.1)
            × Log.serves (about_of self.now) right g.from) }
    {
        let state = self.summon::<About>(writer);
        if state == STATE_LEADS_TABLE {
            return Some(self.take_right(writer));
        }
        None
    }

    /// Looks whether the group is the oldest of the second list. At `STATE_LEADS_TABLE` its leader has the right.
    fn summon<About: PickedAbout<Log::About>>(
        &self,
        writer: &mut Writer<Request, Reply, Log, Right>,
    ) -> u64
        requires piped { piped_of self.now ≡ true }
        requires about { About.about ≡ Some (about_of self.now) }
        requires seat { (writer.old.seat.table_id ≡ self.now.table.shared.table_id) × (0 < writer.old.client)
            × (writer.old.client ≤ self.now.clients) }
        requires queued { (d : Debt Request Reply) × (mine : Answers Request Reply) × (g : Squad Request Reply)
            × AtWith writer.old.client (Settling d) mine (Queued g) writer.old.seat.me }
        ensures seat { Stays writer.new writer.old }
        ensures role { (d : Debt Request Reply) (mine : Answers Request Reply) (g : Squad Request Reply)
            → AtWith writer.old.client (Settling d) mine (Queued g) writer.old.seat.me
            → (result ≡ STATE_LEADS_TABLE → HasRightOver (Log.serves (about_of self.now)) self.now.clients
            writer.old.client d mine g writer.old.seat.me.1 writer.new.seat.me)
            × (result ≢ STATE_LEADS_TABLE → writer.new.seat.me ≡ writer.old.seat.me) }
        ensures waits { result ≢ STATE_LEADS_TABLE → writer.new ≡ writer.old }
    {
        let c = writer.client;
        // Queued -> Serving at `STATE_LEADS_TABLE`, with the right, and Queued still at another state: only this state
        // says that the groups before have left, and before that the right is with them. `AwaitState` of
        // `ExitAsBatchGroupLeader`.
        self.table
            .shared
            .load::<Summon<About>>(&mut writer.seat, state_word(c as u64))
    }

    /// Takes the right out of its slot.
    pub(crate) fn take_right(&self, writer: &mut Writer<Request, Reply, Log, Right>) -> Right
        requires seat { writer.old.seat.table_id ≡ self.now.table.shared.table_id }
        requires held { (r : Right) × (t : Carried Request Reply Log Right)
            × (writer.old.seat.me.1 ≡ (self.now.clients + 1, TheRight r) ∷ t) }
        ensures seat { (writer.new.seat.table_id ≡ writer.old.seat.table_id)
            × (writer.new.client ≡ writer.old.client) × (writer.new.seat.me.0 ≡ writer.old.seat.me.0) }
        ensures taken { (r : Right) (t : Carried Request Reply Log Right)
            → writer.old.seat.me.1 ≡ (self.now.clients + 1, TheRight r) ∷ t
            → (writer.new.seat.me.1 ≡ (self.now.clients + 1, Empty) ∷ t) × (result ≡ r) }
    {
        // The last slot, TheRight -> Empty: only the leader of the oldest group has this slot, so the right is still
        // there.
        match self.table.shared.exchange(
            &mut writer.seat,
            self.clients as usize + 1,
            LineSlot::Empty,
        ) {
            LineSlot::TheRight(right) => right,
            _ => unreachable!(),
        }
    }

    /// Puts the right into its slot.
    fn put_right(&self, writer: &mut Writer<Request, Reply, Log, Right>, right: Right)
        requires seat { writer.old.seat.table_id ≡ self.now.table.shared.table_id }
        requires held { (t : Carried Request Reply Log Right)
            × (writer.old.seat.me.1 ≡ (self.now.clients + 1, Empty) ∷ t) }
        ensures seat { (writer.new.seat.table_id ≡ writer.old.seat.table_id)
            × (writer.new.client ≡ writer.old.client) × (writer.new.seat.me.0 ≡ writer.old.seat.me.0) }
        ensures put { (t : Carried Request Reply Log Right)
            → writer.old.seat.me.1 ≡ (self.now.clients + 1, Empty) ∷ t
            → writer.new.seat.me.1 ≡ (self.now.clients + 1, TheRight right) ∷ t }
    {
        // The last slot, Empty -> TheRight: the next group's leader takes the right as soon as it is called, so it is
        // there before.
        match self.table.shared.exchange(
            &mut writer.seat,
            self.clients as usize + 1,
            LineSlot::TheRight(right),
        ) {
            LineSlot::Empty => {}
            _ => unreachable!(),
        }
    }

    /// Gives the right back to the list, or on to the leader of the next group. The leader's own group has `count`
    /// members.
    fn pass_on(
        &self,
        writer: &mut Writer<Request, Reply, Log, Right>,
        newest_member: u64,
        count: usize,
        walk: &mut Vec<(u64, u64)>,
    )
        requires piped { piped_of self.now ≡ true }
        requires seat { (writer.old.seat.table_id ≡ self.now.table.shared.table_id) × (vec_len walk.old ≡ 0)
            × (walk.old.items ≡ []) × (self.now.clients ≤ vec_capacity walk.old) }
        requires ready { ServesWith self.now.clients writer.old.client (λ g right. (newest_member ≡ newest (line_of g))
            × Log.serves (about_of self.now) right g.to × (count ≡ length (line_of g))) writer.old.seat.me }
        ensures seat { (writer.new.seat.table_id ≡ writer.old.seat.table_id)
            × (writer.new.client ≡ writer.old.client) × (walk.new.items ≡ []) × (vec_len walk.new ≡ 0)
            × (vec_capacity walk.new ≡ vec_capacity walk.old) }
        ensures passed { ForServing writer.old.client writer.old.seat.me (λ d mine g t.
            At writer.old.client (Settling d) mine writer.new.seat.me × (writer.new.seat.me.1 ≡ t)) }
    {
        let found = self.leave_second(writer, newest_member);
        if found == newest_member {
            return;
        }
        self.survey(writer, found, 0, walk);
        let (next, code) = walk[walk.len() - count - 1];
        walk.clear();
        self.clear_second(writer, next, code);
        self.call_next(writer, next);
    }

    /// Gives the right back where no group came after the leader's own, whose newest member is `newest_member`. Returns
    /// the newest writer of the second list that it found.
    fn leave_second(
        &self,
        writer: &mut Writer<Request, Reply, Log, Right>,
        newest_member: u64,
    ) -> u64
        requires piped { piped_of self.now ≡ true }
        requires seat { writer.old.seat.table_id ≡ self.now.table.shared.table_id }
        requires serves { ServesWith self.now.clients writer.old.client (λ g right. (newest_member ≡ newest (line_of g))
            × Log.serves (about_of self.now) right g.to) writer.old.seat.me }
        ensures seat { Stays writer.new writer.old }
        ensures left { ForServing writer.old.client writer.old.seat.me (λ d mine g t.
            (result ≡ newest_member → At writer.old.client (Settling d) mine writer.new.seat.me
            × (writer.new.seat.me.1 ≡ t)) × (result ≢ newest_member → WalksSecond (table_of self.now).slots
            writer.old.client d mine g result writer.old.seat.me writer.new.seat.me)) }
    {
        // Serving -> Away where no group came after this one: the second list is empty from here on, and the next group
        // has the right at once, so this one is in the memtable before. Serving still where a group came, whose leader
        // waits until it is called. The exchange of `ExitAsMemTableWriter`.
        self.table
            .shared
            .compare_exchange::<LeaveSecond>(&mut writer.seat, 1, newest_member, 0)
    }

    /// Clears the link, in the second list, of the next group's leader.
    fn clear_second(&self, writer: &mut Writer<Request, Reply, Log, Right>, next: u64, code: u64)
        requires piped { piped_of self.now ≡ true }
        requires seat { (writer.old.seat.table_id ≡ self.now.table.shared.table_id) × (0 < next)
            × (next ≤ self.now.clients) × (code < 2 ^ 56) }
        requires next { (d : Debt Request Reply) × (mine : Answers Request Reply) × (g : Squad Request Reply)
            × (walk pre : Queue Request) × (x : QueuedWriter Request)
            × AtWith writer.old.client (Settling d) mine (Serving g walk) writer.old.seat.me
            × (walk ≡ pre ++ x ∷ line_of g) × (x.by ≡ next) × (x.code ≡ code) }
        ensures seat { Stays writer.new writer.old }
        ensures cleared { (d : Debt Request Reply) (mine : Answers Request Reply) (g : Squad Request Reply)
            (walk pre : Queue Request) (x : QueuedWriter Request)
            → AtWith writer.old.client (Settling d) mine (Serving g walk) writer.old.seat.me
            → walk ≡ pre ++ x ∷ line_of g → x.by ≡ next → AtWith writer.old.client (Settling d) mine (Passing g x)
            writer.new.seat.me × (writer.new.seat.me.1 ≡ writer.old.seat.me.1) }
    {
        let cleared = Older { client: 0, code };
        // Serving -> Passing: the next leader's walk of the second list must end at itself. If it had the right before
        // this, it would walk on to writers of this group, which may have linked again by then.
        // `next_leader->link_older = nullptr` of `ExitAsMemTableWriter`.
        self.table
            .shared
            .store::<ClearSecond>(&mut writer.seat, older_word(next), cleared.pack());
    }

    /// Gives the right on to the next group's leader.
    fn call_next(&self, writer: &mut Writer<Request, Reply, Log, Right>, next: u64)
        requires seat { (writer.old.seat.table_id ≡ self.now.table.shared.table_id) × (0 < next)
            × (next ≤ self.now.clients) }
        requires passes { (st : LineStage Request Reply) × (mine : Answers Request Reply) × (g : Squad Request Reply)
            × (x : QueuedWriter Request) × (right : Right) × (t : Carried Request Reply Log Right)
            × AtWith writer.old.client st mine (Passing g x) writer.old.seat.me
            × (writer.old.seat.me.1 ≡ (self.now.clients + 1, TheRight right) ∷ t) × (x.by ≡ next)
            × Log.serves (about_of self.now) right g.to }
        ensures seat { Stays writer.new writer.old }
        ensures called { (st : LineStage Request Reply) (mine : Answers Request Reply) (g : Squad Request Reply)
            (x : QueuedWriter Request) (y : ℕ
            × LineSlot Request Reply Log Right) (t : Carried Request Reply Log Right)
            → AtWith writer.old.client st mine (Passing g x) writer.old.seat.me → writer.old.seat.me.1 ≡ y ∷ t
            → At writer.old.client st mine writer.new.seat.me × (writer.new.seat.me.1 ≡ t) }
    {
        // Passing -> Away: the next leader has the right from here on. Nobody else says so, so without this it and all
        // groups behind it would wait for ever. `SetState(next_leader, STATE_MEMTABLE_WRITER_LEADER)` of
        // `ExitAsMemTableWriter`.
        self.table
            .shared
            .store::<CallNext>(&mut writer.seat, state_word(next), STATE_LEADS_TABLE);
        self.bells.ring(next);
    }
}
