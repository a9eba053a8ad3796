//! A client's write, from the outside in: `write` checks it and takes its memory, and `submit` waits in the line, where
//! `enter` links the request. A client that becomes a leader there (`lead`) serves its group (`answer_group`): it asks
//! the write controller and has the group logged (`serve`, `log_phase`), has it put into the table, and gives the log
//! on (`leave`, `hand_on`).

ghost use Rattle.std.specs.Prelude.{◌≡◌, ◌⊎◌, ◌+◌, ◌≤◌, true, false, ℕ, length, List, [], ◌∷◌, ◌++◌, Ok, Err, None, IfOk, IfErr, IfSome, is_none};
ghost use Rattle.table_rule.specs.Histories.{Begins};
ghost use Rattle.line_rule.specs.declared.view.QueuedWriter.{QueuedWriter};
ghost use Rattle.line_rule.specs.declared.view.Handling.{Handling};
ghost use Rattle.line_rule.specs.Chain.{of};
ghost use Rattle.line_writers.specs.Seats.{IsChosen, about_of, clients_of};
ghost use Rattle.model_base.specs.Tokens.{holds_stop};
ghost use Rattle.engine_controller.specs.Passes.{seen_by, asked_by};
ghost use Rattle.engine_rule.specs.Asked.{HasAsked};
ghost use Rattle.engine_rule.specs.Entries.{SeesMore};
ghost use Rattle.engine_parts.specs.declared.requests.Request.{Request as Asked};
ghost use Rattle.engine_parts.specs.declared.requests.Answer.{Answer as Told};
ghost use Rattle.engine_groups.specs.Law.{LeadershipIsStaged, LeadershipCovers};
ghost use Rattle.engine_parts.specs.Numbering.{AreHelpers, others_in};
ghost use Rattle.engine_parts.specs.Staged.{IsStaged};
ghost use Rattle.engine_parts.specs.Handled.{AreHandled, handled_with};
ghost use Rattle.engine_groups.specs.Clients.{IsClientOf, IsIdle, IsSeated, IsAnswered, IsAnsweredInGroup, IsLeftOut, told_of, own_commits, opened_log};
ghost use Rattle.engine_groups.specs.Serving.{IsToServe, IsServed, HasWaited};
ghost use Rattle.engine_groups.specs.Leaving.{IsToEnd};

use crate::engine::{EngineClient, GroupEngine};
use crate::laws;
use crate::leader::Leadership;
use crate::leading::publish_alone;
use crate::seeing::await_above;
use base_devices::Clock;
use engine_calls::{Gate, Receipt, Refused};
use engine_parts::{
    Answer, Delay, Request, SealedAnswer, SealedRequest, ask, log_phase, may_be_apart, note_all,
    refuse_held_up, refused_by,
};
use line_writers::Role;
use log_batch::{Batch, Measure, refusal_at_once};
use log_writer::GroupLog;
use model_base::{Item, Refusal, WriteOptions};
use std::rt;
use std::snapshot::Snapshot;
use std::sync::Wait;
use table_calls::Table;
use table_nodes::{Nodes, Parts};

impl<
    Log: GroupLog,
    Versions: Table<Nodes, Parts>,
    Time: Clock + Drop,
    Watch: Gate + Drop,
> GroupEngine<Log, Versions, Time, Watch> {
    ghost use Rattle.model_base.specs.Batch as model;
    ghost use Rattle.model_accounts.specs.Accounts.{Wrote, Refuses};
    ghost use Rattle.engine_parts.specs.declared.log.OpenLog.{OpenLog as Opened};
    ghost use Rattle.engine_parts.specs.Logs.{Wrote as WroteLog};
    ghost use Rattle.model_base.specs.LogContents.{GroupCall, IsLoggedBy};
    ghost use Rattle.engine_groups.specs.Clients.{account_in, settings_of};

    /// Writes a batch under a run of sequences of its own, and waits until reads see it.
    pub fn write<R: Wait + rt::Clock>(
        &self,
        rt: &R,
        client: &mut EngineClient<Log, Versions, Time>,
        batch: Batch,
        options: WriteOptions,
    ) -> Result<Receipt, Refused>
        requires { IsClientOf Versions.Table self.now client.old }
        ensures belongs { IsClientOf Versions.Table self.now client.new }
        ensures ok { IfOk result (λ r. Wrote (settings_of Versions.Table self.now)
            (account_in Versions.Table client.old) batch.records options r.run.first r.group_last
            (account_in Versions.Table client.new)) }
        ensures back { IfOk result (λ r. (r.batch ≡ record batch { sequence = r.run.first })
            × (r.run.last + 1 ≡ r.run.first + model.count_of batch.records)) }
        // a batch that goes into the log was written by a call of the log writer that the client knows of since, and
        // that synced where the batch had to be synced
        ensures logged { IfOk result (λ r. options.no_log ≡ false → (calls : List GroupCall)
            × (log : Opened Log ⟦<Log as GroupLog>⟧)
            × WroteLog (opened_log self.now) calls log
            × ((account_in Versions.Table client.new).seen.logged ≤ length calls)
            × IsLoggedBy calls (account_in Versions.Table client.old).seen.logged
            (account_in Versions.Table client.new).seen.logged r.run.first batch.records options.sync) }
        ensures err { IfErr result (λ e. Refuses (settings_of Versions.Table self.now)
            (account_in Versions.Table client.old) batch.records options e.why
            (account_in Versions.Table client.new)) }
        ensures unchanged { IfErr result (λ e. e.batch ≡ batch) }
    {
        let measure = Measure::of(&batch, self.families);
        let stopping = self.controller.is_stopping(&client.pass);
        // The refusals that need no memory, no device and no other client come first.
        if let Some(why) = refusal_at_once(measure, options, self.batch_bytes, stopping) {
            return Err(Refused { batch, why });
        }
        // All memory is taken before the client joins the line, so that nothing can run out of memory once the batch
        // is in the log. Else a batch could be in the log and not in the table.
        let Ok(nodes) = Nodes::make(self.alloc, &batch) else {
            return Err(Refused {
                batch,
                why: Refusal::NoMemory,
            });
        };
        if stopping {
            // A client that holds a stop token never waits in the line, since it would wait for itself. This batch may
            // not wait (`no_slowdown`), or else it was refused above.
            let look = self.controller.look(rt, &mut client.pass);
            return Err(refused_by(look, batch));
        }
        // The run will be above all that the client has seen published by now.
        let shown = self.table.last(&mut client.seat);
        let request = Request {
            batch,
            nodes,
            options,
            // It gets one as it is linked.
            note: None,
            since: None,
            shown,
        };
        // It is there between two calls, and comes back with the answer.
        let Some(envelope) = client.envelope.take() else {
            unreachable!()
        };
        let (told, envelope) = self.submit(rt, client, envelope.ask(request)).open();
        client.envelope = Some(envelope);
        let Answer {
            answer,
            delay: _,
            note,
            read: _,
        } = told;
        // It is above all, too, that had been shown to those who took tokens or gave them back before the leader of the
        // group decided.
        let most = shown.max(self.shown_by(&note));
        let pauses = self.list.pauses();
        await_above(rt, &pauses, most, &answer);
        // The client gets its answer only once its own reads see the whole group.
        self.see(rt, client, &answer, note);
        answer
    }

    /// Puts a request into the list, and waits for its answer. Where writes are stalled, a request that may not wait
    /// may be refused without a group.
    fn submit<R: Wait + rt::Clock>(
        &self,
        rt: &R,
        client: &mut EngineClient<Log, Versions, Time>,
        request: SealedRequest,
    ) -> SealedAnswer
        requires client { IsIdle Versions.Table self.now client.old }
        requires write { request.since ≡ None }
        // a client that holds a stop token never waits in the list
        requires free { holds_stop (asked_by client.old.pass) ≡ false }
        ensures fits { IsIdle Versions.Table self.now client.new }
        ensures answered { IsAnsweredInGroup self.now.controller (opened_log self.now)
            (Versions.opening self.now.table).start request result client.old client.new
            ⊎ IsLeftOut self.now.controller request result client.old client.new }
        ensures seen { Begins (Versions.account client.old.seat).seen (Versions.account client.new.seat).seen
            × SeesMore client.old.number (seen_by client.old.pass) (seen_by client.new.pass) }
    {
        let item = Item {
            size: request.as_request().batch.size(),
            options: request.as_request().options,
            alone: false,
        };
        if let Err(answer) = self.enter(rt, client, item, request) {
            return answer;
        }
        self.gate.linked(client.number);
        match self.await_own_role(rt, &mut client.writer, &mut client.seat) {
            Role::Done(reply) => reply,
            Role::LogLeader(leadership) => {
                let staged = leadership.turn.is_none();
                // A sync takes no longer for more batches, and those of the previous group's clients may be on their
                // way.
                self.let_others_link(rt, &mut client.writer, item.options.sync, staged);
                self.lead(rt, client, leadership)
            }
        }
    }

    /// Leads a group, and returns the leader's own reply.
    fn lead<R: Wait + rt::Clock>(
        &self,
        rt: &R,
        client: &mut EngineClient<Log, Versions, Time>,
        leadership: Leadership<Log, Versions, Time>,
    ) -> SealedAnswer
        requires seated { IsSeated Versions.Table self.now client.old }
        requires has_asked { HasAsked client.old.number (own_commits client.old.number (told_of client.old))
            (seen_by client.old.pass) }
        requires leads { (own : QueuedWriter Asked) × (seen : List (Handling Asked Told))
            × IsChosen own seen (told_of client.old) client.old.writer × (own.asked.since ≡ None)
            × (of client.old.number seen ≡ told_of client.old)
            × AreHandled self.now.controller (opened_log self.now) (Versions.opening self.now.table).start seen
            × LeadershipCovers Versions.Table (about_of self.now.list) leadership seen }
        ensures fits { IsIdle Versions.Table self.now client.new }
        ensures answered { (own : QueuedWriter Asked) (seen : List (Handling Asked Told))
            → IsChosen own seen (told_of client.old) client.old.writer
            → IsAnswered self.now.controller (opened_log self.now)
            (Versions.opening self.now.table).start own.asked result client.old client.new }
        ensures seen { Begins (Versions.account client.old.seat).seen (Versions.account client.new.seat).seen
            × SeesMore client.old.number (seen_by client.old.pass) (seen_by client.new.pass) }
    {
        let (mut leadership, end) = self.answer_group(rt, client, leadership);
        // No member got a run, so none goes into the table.
        let Some(end) = end else {
            return self.leave(client, leadership);
        };
        let turn = leadership.turn;
        match turn {
            // The right to launch is apart: the log goes on first, so that the next group is logged while this one
            // goes into the table.
            None => {
                leadership.turn = None;
                self.hand_on(rt, client, leadership, end)
            }
            // The right is here: the group goes into the table before the log goes on.
            Some(turn) => {
                let turn = publish_alone(
                    rt,
                    &self.gate,
                    &self.table,
                    client.number,
                    &mut client.seat,
                    turn,
                    &mut client.layout.parts,
                    end,
                );
                leadership.turn = Some(turn);
                self.leave(client, leadership)
            }
        }
    }

    /// Takes the requests of the leader's group from the list, and serves them. `IsToEnd` says what is left to do.
    fn answer_group<R: Wait + rt::Clock>(
        &self,
        rt: &R,
        client: &mut EngineClient<Log, Versions, Time>,
        leadership: Leadership<Log, Versions, Time>,
    ) -> (Leadership<Log, Versions, Time>, Option<u64>)
        requires seated { IsSeated Versions.Table self.now client.old }
        requires has_asked { HasAsked client.old.number (own_commits client.old.number (told_of client.old))
            (seen_by client.old.pass) }
        requires leads { (own : QueuedWriter Asked) × (seen : List (Handling Asked Told))
            × IsChosen own seen (told_of client.old) client.old.writer × (own.asked.since ≡ None)
            × (of client.old.number seen ≡ told_of client.old)
            × AreHandled self.now.controller (opened_log self.now) (Versions.opening self.now.table).start seen
            × LeadershipCovers Versions.Table (about_of self.now.list) leadership seen }
        ensures ends { (own : QueuedWriter Asked) × (seen : List (Handling Asked Told))
            × IsChosen own seen (told_of client.old) client.old.writer
            × IsToEnd Versions.Table self.now client.old.number client.old.start (told_of client.old) own seen
            client.new result.0 result.1 }
        ensures same { (client.new.number ≡ client.old.number) × (client.new.start ≡ client.old.start)
            × (client.new.seat ≡ client.old.seat) × (client.new.table ≡ client.old.table) }
        ensures seen { SeesMore client.old.number (seen_by client.old.pass) (seen_by client.new.pass) }
    {
        laws::codes_stand_for_items();
        self.list.group(
            &mut client.writer,
            &mut client.lists.requests,
            &mut client.lists.room,
        );
        self.serve(rt, client, leadership)
    }

    /// Asks the write controller about the leader's group, and writes the group to the log as soon as writes aren't
    /// held up. Where they are, a group that may not wait is refused as a whole, and any other stalls writes while it
    /// waits.
    fn serve<R: Wait + rt::Clock>(
        &self,
        rt: &R,
        client: &mut EngineClient<Log, Versions, Time>,
        mut leadership: Leadership<Log, Versions, Time>,
    ) -> (Leadership<Log, Versions, Time>, Option<u64>)
        requires served { IsToServe Versions.Table self.now client.old }
        requires leadership { (handled : List (Handling Asked Told))
            × LeadershipCovers Versions.Table (about_of self.now.list) leadership handled }
        ensures served { IsServed Versions.Table self.now client.old client.new }
        ensures leadership { (handled : List (Handling Asked Told))
            (st : LeadershipCovers Versions.Table (about_of self.now.list) leadership handled)
            → LeadershipIsStaged Versions.Table (about_of self.now.list) result.0 result.1
            client.new.layout.parts.parts st.published
            (handled ++ handled_with client.old.lists.requests.list.items client.new.lists.replies.list.items) }
        ensures turn { result.0.turn ≡ leadership.turn }
        // A group that may wait waits at least as long as its delay answered.
        ensures waited { HasWaited client.old.number client.old.lists.requests.list.items (seen_by client.new.pass)
            (Time.paused leadership.held.value.clock) (Time.paused result.0.held.value.clock) }
        ensures staged { IsStaged client.old.number (clients_of self.now.list) leadership.held.value.path.last
            result.0.held.value.path.last result.1
            client.new.layout.members.items client.new.layout.parts.parts client.new.lists.replies.list.items }
        ensures beside { IfSome result.1 (λ _. AreHelpers (is_none leadership.turn)
            (others_in client.old.lists.requests.list.items) client.new.layout.members.items) }
    {
        let requests = &mut client.lists.requests;
        let replies = &mut client.lists.replies.list;
        let controller = &self.controller;
        let pass = &mut client.pass;
        let asked = leadership.asked;
        let made = leadership.held.path.made;
        let clock = &mut leadership.held.clock;
        // The leader learns what those before it and its members have seen, so that its delay comes after theirs.
        let look = ask(rt, controller, pass, clock, asked, &mut requests.list);
        let mut delay = Delay {
            pass: Snapshot::of(pass),
            went: Snapshot::of(pass),
            made,
        };
        let no_slowdown = requests.list[0].1.as_request().options.no_slowdown;
        let writer = &mut client.writer;
        let room = &mut client.lists.room;
        let proceeds = self.may_go_on(
            rt,
            writer,
            requests,
            room,
            pass,
            clock,
            look,
            &delay,
            no_slowdown,
        );
        // The next leader learns what this one has seen after its wait, so that no two groups share a delay.
        leadership.asked = controller.note(pass);
        let requests = &mut requests.list;
        if !proceeds {
            refuse_held_up(look, &delay, requests, replies);
            note_all(controller, pass, replies);
            return (leadership, None);
        }
        let apart = may_be_apart(leadership.turn.is_none(), self.table.locks());
        let leader = client.number;
        let layout = &mut client.layout;
        let path = &mut leadership.held.path;
        delay.went = Snapshot::of(pass);
        let end = log_phase(path, leader, apart, &mut delay, requests, layout, replies);
        // Each member learns with its answer of the group's delay, and of the look after which the group went on.
        note_all(controller, pass, replies);
        (leadership, end)
    }
}
