//! A client's read of the log, from the outside in: `updates` takes its memory, `ask_log` waits in the line until the
//! client leads alone, and `lead_alone` reads the log (`read_alone`) and gives it on.

ghost use Rattle.std.specs.Prelude.{◌≡◌, ◌≤◌, ℕ, List, [], None, Some, IfOk, IfErr};
ghost use Rattle.table_rule.specs.Histories.{Begins, last_of};
ghost use Rattle.table_calls.specs.Account.{IsReady};
ghost use Rattle.line_rule.specs.declared.view.QueuedWriter.{QueuedWriter};
ghost use Rattle.line_rule.specs.declared.view.Handling.{Handling};
ghost use Rattle.line_rule.specs.Chain.{of};
ghost use Rattle.line_writers.specs.Seats.{Belongs, IsChosen, IsIn, about_of, answers_told, client_of};
ghost use Rattle.engine_controller.specs.Passes.{seen_by};
ghost use Rattle.engine_rule.specs.Asked.{HasAsked};
ghost use Rattle.engine_parts.specs.declared.requests.Request.{Request as Asked};
ghost use Rattle.engine_parts.specs.declared.requests.Answer.{Answer as Told};
ghost use Rattle.engine_parts.specs.Handled.{AreHandled};
ghost use Rattle.engine_parts.specs.Logs.{faults_of};
ghost use Rattle.engine_parts.specs.ReadAnswers.{HasReadTo};
ghost use Rattle.engine_groups.specs.Law.{LeadershipCovers, law_in};
ghost use Rattle.engine_groups.specs.Leaving.{IsFlat, IsToLeave};
ghost use Rattle.engine_groups.specs.Clients.{IsClientOf, IsIdle, IsReadBy, IsSeated, told_of, own_commits, opened_log};

use crate::engine::{EngineClient, GroupEngine};
use crate::laws;
use crate::leader::{Leadership, Right};
use base_devices::Clock;
use engine_calls::{Gate, Since, SinceRefused};
use engine_parts::{Answer, Delay, Request, SealedAnswer, SealedRequest, read_phase};
use line_writers::{Role, Writer};
use log_batch::Batch;
use log_writer::ReadableLog;
use model_base::{Item, WriteOptions};
use std::rt;
use std::snapshot::Snapshot;
use std::sync::Wait;
use table_calls::Table;
use table_nodes::{Nodes, Parts};

/// A read of the log waits like a write that may wait, and is written nowhere.
const PLAIN: WriteOptions = WriteOptions {
    sync: false,
    no_log: false,
    no_slowdown: false,
};

impl<
    Log: ReadableLog,
    Versions: Table<Nodes, Parts>,
    Time: Clock + Drop,
    Watch: Gate + Drop,
> GroupEngine<Log, Versions, Time, Watch> {
    ghost use Rattle.model_base.specs.Tokens.{holds_stop};
    ghost use Rattle.model_accounts.specs.Accounts.{ReadsLog};
    ghost use Rattle.engine_calls.specs.Reading.{FailsFor};
    ghost use Rattle.engine_groups.specs.Clients.{account_in, settings_of};
    ghost use Rattle.std.specs.Prelude.{false};

    /// The log's records that hold the sequence `since` or later ones, up to an end of what is published.
    pub fn updates<R: Wait + rt::Clock>(
        &self,
        rt: &R,
        client: &mut EngineClient<Log, Versions, Time>,
        since: u64,
    ) -> Result<Since, SinceRefused>
        requires { IsClientOf Versions.Table self.now client.old }
        ensures belongs { IsClientOf Versions.Table self.now client.new }
        ensures ok { IfOk result (λ r. (holds_stop (account_in Versions.Table client.old).asked ≡ false)
            × ReadsLog (account_in Versions.Table client.old) since r.at r.records
            (account_in Versions.Table client.new)) }
        ensures err { IfErr result (λ why. FailsFor (settings_of Versions.Table self.now)
            (account_in Versions.Table client.old) why (account_in Versions.Table client.new)) }
    {
        laws::accounts_of_the_reads();
        // A client that holds a stop token never waits in the line: a leader before it would wait for its token.
        if self.controller.is_stopping(&client.pass) {
            return Err(SinceRefused::SelfStop);
        }
        // The line takes a batch, so there is an empty one.
        let batch = Batch::new(self.alloc)?;
        let request = Request {
            batch,
            nodes: Nodes::new(),
            options: PLAIN,
            note: None,
            since: Some(since),
            shown: 0,
        };
        // It is there between two calls, and comes back with the answer.
        let Some(envelope) = client.envelope.take() else {
            unreachable!()
        };
        let (told, envelope) = self.ask_log(rt, client, envelope.ask(request)).open();
        client.envelope = Some(envelope);
        let Answer {
            answer: _,
            delay: _,
            note: _,
            read,
        } = told;
        let Some(read) = read else { unreachable!() };
        read
    }

    /// Puts a request to read the log into the list, waits until the client leads, and reads. Nothing is asked of the
    /// write controller: while writes are stalled, the request waits like any that may wait.
    fn ask_log<R: Wait + rt::Clock>(
        &self,
        rt: &R,
        client: &mut EngineClient<Log, Versions, Time>,
        request: SealedRequest,
    ) -> SealedAnswer
        requires client { IsIdle Versions.Table self.now client.old }
        requires read { (since : ℕ) × (request.since ≡ Some since) }
        requires note { request.note ≡ None }
        ensures fits { IsIdle Versions.Table self.now client.new }
        ensures answered { IsReadBy Versions.Table (opened_log self.now) request result client.old client.new }
        ensures seen { Begins (Versions.account client.old.seat).seen (Versions.account client.new.seat).seen
            × (client.new.pass ≡ client.old.pass) }
    {
        let item = Item {
            size: request.as_request().batch.size(),
            options: request.as_request().options,
            alone: true,
        };
        self.list.link(rt, &mut client.writer, item, request);
        self.gate.linked(client.number);
        let leadership = self.await_lead(rt, &mut client.writer, &mut client.seat);
        self.lead_alone(rt, client, leadership)
    }

    /// Waits until the client leads.
    ///
    /// Its request goes alone, so no other client leads a group that has it. But the list doesn't say that of a
    /// request, so it isn't proved. If another client answered it, the call wouldn't return, and no client would get
    /// that answer.
    fn await_lead<R: Wait + rt::Clock>(
        &self,
        rt: &R,
        writer: &mut Writer<
            SealedRequest,
            SealedAnswer,
            Leadership<Log, Versions, Time>,
            Right<Versions>,
        >,
        seat: &mut Versions::Seat,
    ) -> Leadership<Log, Versions, Time>
        requires list { Belongs self.now.list writer.old
            × ((q : Asked) × IsIn (law_in Versions.Table self.now.list) q (answers_told writer.old) writer.old) }
        requires seat { Versions.ours self.now.table seat.old × IsReady (Versions.account seat.old) }
        ensures client { client_of writer.new ≡ client_of writer.old }
        ensures leads { Belongs self.now.list writer.new × ((q : Asked)
            → IsIn (law_in Versions.Table self.now.list) q (answers_told writer.old) writer.old
            → (own : QueuedWriter Asked) × (seen : List (Handling Asked Told)) × (own.asked ≡ q)
            × IsChosen own seen (answers_told writer.old) writer.new
            × (of (client_of writer.old) seen ≡ answers_told writer.old)
            × law_in Versions.Table self.now.list result seen) }
        ensures seat { Versions.ours self.now.table seat.new × IsReady (Versions.account seat.new)
            × ((Versions.account seat.new).number ≡ (Versions.account seat.old).number)
            × Begins (Versions.account seat.old).seen (Versions.account seat.new).seen }
    {
        match self.await_own_role(rt, writer, seat) {
            Role::LogLeader(leadership) => leadership,
            Role::Done(_) => {
                let pauses = self.list.pauses();
                // A pause changes nothing.
                for _ in rt.forever() {
                    pauses.retry(rt);
                }
                unreachable!()
            }
        }
    }

    /// Reads the log, gives it on, and returns the client's own reply.
    fn lead_alone<R: Wait + rt::Clock>(
        &self,
        rt: &R,
        client: &mut EngineClient<Log, Versions, Time>,
        leadership: Leadership<Log, Versions, Time>,
    ) -> SealedAnswer
        requires seated { IsSeated Versions.Table self.now client.old }
        requires has_asked { HasAsked client.old.number (own_commits client.old.number (told_of client.old))
            (seen_by client.old.pass) }
        requires leads { (own : QueuedWriter Asked) × (seen : List (Handling Asked Told))
            × IsChosen own seen (told_of client.old) client.old.writer
            × ((since : ℕ) × (own.asked.since ≡ Some since))
            × (of client.old.number seen ≡ told_of client.old)
            × AreHandled self.now.controller (opened_log self.now) (Versions.opening self.now.table).start seen
            × LeadershipCovers Versions.Table (about_of self.now.list) leadership seen }
        ensures fits { IsIdle Versions.Table self.now client.new }
        ensures answered { (own : QueuedWriter Asked) (seen : List (Handling Asked Told))
            → IsChosen own seen (told_of client.old) client.old.writer
            → IsReadBy Versions.Table (opened_log self.now) own.asked result client.old client.new }
        ensures seen { Begins (Versions.account client.old.seat).seen (Versions.account client.new.seat).seen
            × (client.new.pass ≡ client.old.pass) }
    {
        let leadership = self.read_alone(rt, client, leadership);
        self.leave(client, leadership)
    }

    /// Takes the client's own request from the list, which goes alone, and reads the log for it. The log's law speaks
    /// of the log alone, and the table's of the table alone. So what is published is read again until it isn't above
    /// what the log has given; it never is.
    fn read_alone<R: Wait + rt::Clock>(
        &self,
        rt: &R,
        client: &mut EngineClient<Log, Versions, Time>,
        mut leadership: Leadership<Log, Versions, Time>,
    ) -> Leadership<Log, Versions, Time>
        requires seated { IsSeated Versions.Table self.now client.old }
        requires has_asked { HasAsked client.old.number (own_commits client.old.number (told_of client.old))
            (seen_by client.old.pass) }
        requires leads { (own : QueuedWriter Asked) × (seen : List (Handling Asked Told))
            × IsChosen own seen (told_of client.old) client.old.writer
            × ((since : ℕ) × (own.asked.since ≡ Some since))
            × (of client.old.number seen ≡ told_of client.old)
            × AreHandled self.now.controller (opened_log self.now) (Versions.opening self.now.table).start seen
            × LeadershipCovers Versions.Table (about_of self.now.list) leadership seen }
        ensures leaves { (own : QueuedWriter Asked) × (seen : List (Handling Asked Told))
            × IsChosen own seen (told_of client.old) client.old.writer
            × (l : IsToLeave Versions.Table self.now client.old.number client.old.start (told_of client.old) own seen
            client.new result)
            × IsFlat Versions.Table self.now client.old.number client.old.start (told_of client.old) own seen client.new
            result l
            × HasReadTo (faults_of (opened_log self.now))
            (last_of client.old.start (Versions.account client.new.seat).seen) l.led.p.read }
        ensures parts { client.new.layout.parts.parts ≡ [] }
        ensures same { (client.new.number ≡ client.old.number) × (client.new.start ≡ client.old.start)
            × (client.new.pass ≡ client.old.pass) × (client.new.table ≡ client.old.table) }
        ensures seen { Begins (Versions.account client.old.seat).seen (Versions.account client.new.seat).seen }
    {
        laws::codes_stand_for_items();
        self.list.group(
            &mut client.writer,
            &mut client.lists.requests,
            &mut client.lists.room,
        );
        let at = self.await_end(rt, &mut client.seat, leadership.held.path.last);
        // No delay was asked for it. The answer has a place for one, which says nothing here.
        let delay = Delay {
            pass: Snapshot::of(&client.pass),
            went: Snapshot::of(&client.pass),
            made: leadership.held.path.made,
        };
        read_phase(
            self.alloc,
            &mut leadership.held.path,
            at,
            &delay,
            &mut client.lists.requests.list,
            &mut client.lists.replies.list,
        );
        leadership
    }

    /// The end of what is published, once it isn't above `last`.
    fn await_end<R: Wait + rt::Clock>(&self, rt: &R, seat: &mut Versions::Seat, last: u64) -> u64
        requires seat { Versions.ours self.now.table seat.old × IsReady (Versions.account seat.old) }
        ensures seat { Versions.ours self.now.table seat.new × IsReady (Versions.account seat.new)
            × ((Versions.account seat.new).number ≡ (Versions.account seat.old).number)
            × Begins (Versions.account seat.old).seen (Versions.account seat.new).seen }
        ensures end { result ≡ last_of (Versions.opening self.now.table).start (Versions.account seat.new).seen }
        ensures low { result ≤ last }
    {
        let pauses = self.list.pauses();
        // The seat has seen no less.
        for _ in rt.forever() {
            let at = self.table.last(seat);
            if at <= last {
                return at;
            }
            pauses.retry(rt);
        }
        unreachable!()
    }
}
