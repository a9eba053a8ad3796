//! How a writer that is in the list looks, or waits, for its role and for its reply.
ghost use Rattle.std.specs.Prelude.{◌≡◌, ℕ, ◌<◌, ◌≤◌, List, [], ◌∷◌, Some, None, IfSome};
ghost use Rattle.line_rule.specs.declared.content.LineSlot.TheVariants.{Empty, Told, TheLog};
ghost use Rattle.line_rule.specs.declared.view.LineStage.TheVariants.{Idle, Waiting, Helping, Collecting};
ghost use Rattle.line_rule.specs.declared.view.LineEvent.{LineEvent};
ghost use Rattle.line_rule.specs.Rule.{logs_picked, kept_picked, drops_picked};
ghost use Rattle.line_rule.specs.Plays.{At, Elected};
ghost use Rattle.line_writers.specs.Roles.{Becomes, Turns, HasReply};
ghost use Rattle.line_writers.specs.Seats.{client_of, law_of, kept_of, drops_of, Belongs, IsIn, HasRole, Stays, answers_told};
ghost use Rattle.line_writers.specs.declared.second.PipelinedRole.TheVariants.{Parallel};
ghost use Rattle.line_writers.specs.declared.writer.Task.TheVariants.{Helps};
ghost use Rattle.line_writers.specs.Groups.{Answers};

use crate::line_writers::WriterList;
use crate::second::PipelinedRole;
use crate::writer::{Role, Task, Writer};
use base_waiting::Pauses;
use line_rule::{
    GivesRun, HasGroupingItem, LineSlot, LogOfGroups, PickedAbout, ReadReply, ReadState,
    ReturnSlot, STATE_DONE, STATE_LEADS_LOG, STATE_PARALLEL, state_word,
};
use std::marker::Brand;
use std::rt;
use std::sync::Wait;

impl<
    Request: HasGroupingItem,
    Reply: GivesRun,
    Log: LogOfGroups<Request, Reply, Right>,
    Right,
> WriterList<Request, Reply, Log, Right> {
    /// The pauses of a wait that begins. What one wait in the list learns of yields all others know.
    pub fn pauses(&self) -> Pauses<'_> {
        self.bells.pauses()
    }

    /// Waits until the writer, which is in the list, either leads, or has its request done, or has left the queue with
    /// a reply while writes were stalled.
    pub fn await_role<R: Wait + rt::Clock>(
        &self,
        rt: &R,
        writer: &mut Writer<Request, Reply, Log, Right>,
    ) -> Role<Log, Reply>
        requires { Belongs self.now writer.old
            × ((q : Request)
            × IsIn (law_of Reply.run_of Log.LogOfGroups self.now) q (answers_told writer.old) writer.old) }
        ensures client { client_of writer.new ≡ client_of writer.old }
        // A writer that leads has the log, which covers all that was handled before. One that is done has the reply to
        // its own request.
        ensures role { Belongs self.now writer.new × ((q : Request)
            → IsIn (law_of Reply.run_of Log.LogOfGroups self.now) q (answers_told writer.old) writer.old
            → HasRole (law_of Reply.run_of Log.LogOfGroups self.now) (kept_of Log.kept self.now)
            (drops_of Log.drops self.now) q (answers_told writer.old) result writer.new) }
    {
        match writer.task {
            Task::Awaits => self.await_alone::<Brand, R>(rt, writer),
            Task::Leads => Role::LogLeader(self.claim::<Brand>(writer)),
            Task::Helps => Role::Done(self.await_reply::<Brand, R>(rt, writer)),
            Task::Queues => unreachable!(),
            Task::Serves => unreachable!(),
        }
    }

    /// Waits for the role; a member that should work in parallel with its leader goes on to wait for its reply.
    fn await_alone<About: PickedAbout<Log::About>, R: Wait + rt::Clock>(
        &self,
        rt: &R,
        writer: &mut Writer<Request, Reply, Log, Right>,
    ) -> Role<Log, Reply>
        requires start { About.number ≡ self.now.table.shared.key.log }
        requires about { About.about ≡ Some self.now.table.shared.key.about }
        requires seat { (writer.old.seat.table_id ≡ self.now.table.shared.table_id)
            × (0 < writer.old.client) × (writer.old.client ≤ self.now.clients) }
        requires waits { (q : Request) × (past : List (LineEvent Request Reply)) × (mine : Answers Request Reply)
            × At writer.old.client (Waiting q past) mine writer.old.seat.me × (writer.old.seat.me.1 ≡ []) }
        ensures seat { Stays writer.new writer.old }
        ensures role { (q : Request) (past : List (LineEvent Request Reply)) (mine : Answers Request Reply)
            → At writer.old.client (Waiting q past) mine writer.old.seat.me → writer.old.seat.me.1 ≡ []
            → Becomes (logs_picked Reply.run_of Log.LogOfGroups About.number About.about)
            (kept_picked Log.kept About.about) (drops_picked Log.drops About.about)
            writer.old.client q mine result writer.new.seat.me }
    {
        match self.await_from::<About, R>(rt, writer) {
            PipelinedRole::LogLeader(log) => Role::LogLeader(log),
            PipelinedRole::Parallel => Role::Done(self.await_reply::<About, R>(rt, writer)),
            PipelinedRole::Done(reply) => Role::Done(reply),
            _ => unreachable!(),
        }
    }

    /// Waits for the writer's role.
    pub(crate) fn await_from<About: PickedAbout<Log::About>, R: Wait + rt::Clock>(
        &self,
        rt: &R,
        writer: &mut Writer<Request, Reply, Log, Right>,
    ) -> PipelinedRole<Log, Right, Reply>
        requires start { About.number ≡ self.now.table.shared.key.log }
        requires about { About.about ≡ Some self.now.table.shared.key.about }
        requires seat { (writer.old.seat.table_id ≡ self.now.table.shared.table_id)
            × (0 < writer.old.client) × (writer.old.client ≤ self.now.clients) }
        requires waits { (q : Request) × (past : List (LineEvent Request Reply)) × (mine : Answers Request Reply)
            × At writer.old.client (Waiting q past) mine writer.old.seat.me × (writer.old.seat.me.1 ≡ []) }
        ensures seat { Stays writer.new writer.old }
        ensures role { (q : Request) (past : List (LineEvent Request Reply)) (mine : Answers Request Reply)
            → At writer.old.client (Waiting q past) mine writer.old.seat.me → writer.old.seat.me.1 ≡ []
            → Turns (logs_picked Reply.run_of Log.LogOfGroups About.number About.about)
            (kept_picked Log.kept About.about) (drops_picked Log.drops About.about)
            writer.old.client writer.new.task q mine result writer.new.seat.me }
        ensures parallel { result ≡ Parallel → writer.new.task ≡ Helps }
    {
        let pauses = self.pauses();
        // Until a look shows a role, the writer is as it was.
        for _ in rt.forever() {
            if let Some(role) = self.poll_from::<About>(writer) {
                return role;
            }
            self.bells.pause(rt, &pauses, writer.client as u64);
        }
        unreachable!()
    }

    /// Looks once for the writer's role. Where a look shows none the writer is as it was, so the caller may look again
    /// whenever it likes.
    pub(crate) fn poll_from<About: PickedAbout<Log::About>>(
        &self,
        writer: &mut Writer<Request, Reply, Log, Right>,
    ) -> Option<PipelinedRole<Log, Right, Reply>>
        requires start { About.number ≡ self.now.table.shared.key.log }
        requires about { About.about ≡ Some self.now.table.shared.key.about }
        requires seat { (writer.old.seat.table_id ≡ self.now.table.shared.table_id)
            × (0 < writer.old.client) × (writer.old.client ≤ self.now.clients) }
        requires waits { (q : Request) × (past : List (LineEvent Request Reply)) × (mine : Answers Request Reply)
            × At writer.old.client (Waiting q past) mine writer.old.seat.me × (writer.old.seat.me.1 ≡ []) }
        ensures seat { Stays writer.new writer.old }
        ensures none { result ≡ None → writer.new ≡ writer.old }
        ensures role { (q : Request) (past : List (LineEvent Request Reply)) (mine : Answers Request Reply)
            → At writer.old.client (Waiting q past) mine writer.old.seat.me → writer.old.seat.me.1 ≡ []
            → IfSome result (λ role. Turns (logs_picked Reply.run_of Log.LogOfGroups About.number About.about)
            (kept_picked Log.kept About.about) (drops_picked Log.drops About.about)
            writer.old.client writer.new.task q mine role writer.new.seat.me) }
        ensures parallel { result ≡ Some Parallel → writer.new.task ≡ Helps }
    {
        let c = writer.client;
        // Waiting -> Fresh at `STATE_LEADS_LOG`, with the log; Waiting -> Helping at `STATE_PARALLEL`;
        // Waiting -> Collecting at `STATE_DONE`, with the reply; Waiting still at another state. What the writer gets
        // was in its slot before the state said so. `AwaitState` of `JoinBatchGroup`.
        let state = self
            .table
            .shared
            .load::<ReadState<About>>(&mut writer.seat, state_word(c as u64));
        if state == STATE_DONE {
            return Some(PipelinedRole::Done(self.collect(writer)));
        }
        if state == STATE_LEADS_LOG {
            return Some(PipelinedRole::LogLeader(self.claim::<About>(writer)));
        }
        if state == STATE_PARALLEL {
            // It is asked only once: from now on only its reply comes.
            writer.task = Task::Helps;
            return Some(PipelinedRole::Parallel);
        }
        None
    }

    /// Waits for the reply of a writer that was asked to work in parallel with its leader.
    pub(crate) fn await_reply<About: PickedAbout<Log::About>, R: Wait + rt::Clock>(
        &self,
        rt: &R,
        writer: &mut Writer<Request, Reply, Log, Right>,
    ) -> Reply
        requires about { About.about ≡ Some self.now.table.shared.key.about }
        requires seat { (writer.old.seat.table_id ≡ self.now.table.shared.table_id)
            × (0 < writer.old.client) × (writer.old.client ≤ self.now.clients) }
        requires helps { (q : Request) × (mine : Answers Request Reply)
            × At writer.old.client (Helping q) mine writer.old.seat.me × (writer.old.seat.me.1 ≡ []) }
        ensures seat { Stays writer.new writer.old }
        ensures reply { (q : Request) (mine : Answers Request Reply)
            → At writer.old.client (Helping q) mine writer.old.seat.me → writer.old.seat.me.1 ≡ []
            → HasReply (kept_picked Log.kept About.about) writer.old.client q mine result writer.new.seat.me }
    {
        let pauses = self.pauses();
        // Until a look shows the reply, the member is as it was.
        for _ in rt.forever() {
            if let Some(reply) = self.poll_reply::<About>(writer) {
                return reply;
            }
            self.bells.pause(rt, &pauses, writer.client as u64);
        }
        unreachable!()
    }

    /// Looks once for the reply of a writer that was asked to work in parallel with its leader. Where there is none yet
    /// the writer is as it was.
    pub(crate) fn poll_reply<About: PickedAbout<Log::About>>(
        &self,
        writer: &mut Writer<Request, Reply, Log, Right>,
    ) -> Option<Reply>
        requires about { About.about ≡ Some self.now.table.shared.key.about }
        requires seat { (writer.old.seat.table_id ≡ self.now.table.shared.table_id)
            × (0 < writer.old.client) × (writer.old.client ≤ self.now.clients) }
        requires helps { (q : Request) × (mine : Answers Request Reply)
            × At writer.old.client (Helping q) mine writer.old.seat.me × (writer.old.seat.me.1 ≡ []) }
        ensures seat { Stays writer.new writer.old }
        ensures none { result ≡ None → writer.new ≡ writer.old }
        ensures reply { (q : Request) (mine : Answers Request Reply)
            → At writer.old.client (Helping q) mine writer.old.seat.me → writer.old.seat.me.1 ≡ []
            → IfSome result (λ p. HasReply (kept_picked Log.kept About.about) writer.old.client q mine p
            writer.new.seat.me) }
    {
        let c = writer.client;
        // Helping -> Collecting at `STATE_DONE`, with the reply, and Helping still at `STATE_PARALLEL`: until then the
        // leader has the slot. `AwaitState` of `CompleteParallelMemTableWriter`.
        let state = self
            .table
            .shared
            .load::<ReadReply<About>>(&mut writer.seat, state_word(c as u64));
        if state == STATE_DONE {
            return Some(self.collect(writer));
        }
        None
    }

    /// Takes the log out of its slot.
    pub(crate) fn claim<About: PickedAbout<Log::About>>(
        &self,
        writer: &mut Writer<Request, Reply, Log, Right>,
    ) -> Log
        requires seat { writer.old.seat.table_id ≡ self.now.table.shared.table_id }
        requires elected { (q : Request) × (mine : Answers Request Reply)
            × Elected (logs_picked Reply.run_of Log.LogOfGroups About.number About.about)
            writer.old.client q mine writer.old.seat.me }
        ensures seat { Stays writer.new writer.old }
        ensures leads { (q : Request) (mine : Answers Request Reply)
            → Elected (logs_picked Reply.run_of Log.LogOfGroups About.number About.about)
            writer.old.client q mine writer.old.seat.me
            → Becomes (logs_picked Reply.run_of Log.LogOfGroups About.number About.about)
            (kept_picked Log.kept About.about) (drops_picked Log.drops About.about)
            writer.old.client q mine (Role.LogLeader result) writer.new.seat.me }
    {
        // Slot 0, TheLog -> Empty: only a leader has this slot, and the leader before put the log there before it gave
        // it on.
        match self
            .table
            .shared
            .exchange(&mut writer.seat, 0, LineSlot::Empty)
        {
            LineSlot::TheLog(log) => {
                // The slot that comes up now has the writer's own request, which it takes next.
                writer.seat.turn();
                log
            }
            _ => unreachable!(),
        }
    }

    /// Takes the reply out of the writer's own slot, and gives the slot back.
    fn collect(&self, writer: &mut Writer<Request, Reply, Log, Right>) -> Reply
        requires seat { (writer.old.seat.table_id ≡ self.now.table.shared.table_id)
            × (writer.old.client ≤ self.now.clients) }
        requires told { (p : Reply) × (mine : Answers Request Reply)
            × At writer.old.client Collecting mine writer.old.seat.me
            × (writer.old.seat.me.1 ≡ (writer.old.client, Told p) ∷ []) }
        ensures seat { Stays writer.new writer.old }
        ensures reply { writer.old.seat.me.1 ≡ (writer.old.client, Told result) ∷ [] }
        ensures idle { (mine : Answers Request Reply) → At writer.old.client Collecting mine writer.old.seat.me
            → At writer.old.client Idle mine writer.new.seat.me × (writer.new.seat.me.1 ≡ []) }
    {
        let shared = &self.table.shared;
        let c = writer.client;
        // The slot, Told -> Empty: the leader put the reply there before it said so, and touches the slot no more.
        match shared.exchange(&mut writer.seat, c as usize, LineSlot::Empty) {
            LineSlot::Told(reply) => {
                // Collecting -> Idle: the empty slot goes back to the list by a step, which a load is too. Without it
                // the writer could never begin again.
                shared.load::<ReturnSlot>(&mut writer.seat, state_word(c as u64));
                reply
            }
            _ => unreachable!(),
        }
    }
}
