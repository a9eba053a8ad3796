//! How a writer links itself, by one try after the other.
ghost use Rattle.std.specs.Prelude.{◌≡◌, ◌≢◌, ◌^◌, ◌<◌, ◌≤◌, IfOk, IfErr, Some};
ghost use Rattle.line_rule.specs.declared.content.LineSlot.{LineSlot};
ghost use Rattle.line_rule.specs.declared.content.LineSlot.TheVariants.{Empty, Asked};
ghost use Rattle.line_rule.specs.Grouping.{code_by};
ghost use Rattle.line_rule.specs.Rule.{logs_picked};
ghost use Rattle.line_writers.specs.Roles.{IsLinked};
ghost use Rattle.line_writers.specs.Seats.{client_of, about_of, law_of, Belongs, IsOut, IsIn, IsEntering, Stays, answers_told};
ghost use Rattle.line_writers.specs.declared.linking.Linking.TheVariants.{Linked};
ghost use Rattle.line_writers.specs.declared.writer.Task.TheVariants.{Awaits, Leads};
ghost use Rattle.line_writers.specs.Groups.{Answers};

use crate::line_writers::WriterList;
use crate::writer::{Task, Writer};
use line_rule::{
    Begin, GivesRun, HasGroupingItem, LineSlot, Link, LogOfGroups, NameOlder, Older, PickedAbout,
    ReadNewest, STALL, STATE_IN_LIST, Withdraw, code_of, older_word, state_word,
};
use model_base::{Item, MAX_SIZE};
use std::marker::Brand;
use std::rt;
use std::sync::Wait;

/// What one try to link has shown.
pub enum Linking {
    /// The writer is in the list.
    Linked,
    /// Another writer came in between. A further try can be made at once.
    Missed,
    /// Writes are stalled.
    Stalled,
}

impl<
    Request: HasGroupingItem,
    Reply: GivesRun,
    Log: LogOfGroups<Request, Reply, Right>,
    Right,
> WriterList<Request, Reply, Log, Right> {
    /// Puts the writer, which is in no list, at the newest end with its request. `item` is what grouping sees of the
    /// request. The request must be lawful for this list. While writes are stalled this waits.
    pub fn link<R: Wait + rt::Clock>(
        &self,
        rt: &R,
        writer: &mut Writer<Request, Reply, Log, Right>,
        item: Item,
        request: Request,
    )
        requires out { Belongs self.now writer.old × IsOut writer.old }
        requires item { (item ≡ Request.item_of request) × (item.size ≤ MAX_SIZE) }
        requires lawful { Log.lawful (about_of self.now) request }
        ensures client { client_of writer.new ≡ client_of writer.old }
        // The list has the request, or the writer leads at once.
        ensures linked { Belongs self.now writer.new
            × IsIn (law_of Reply.run_of Log.LogOfGroups self.now) request (answers_told writer.old) writer.new }
    {
        self.enter(writer, request);
        let missed = self.pauses();
        let stalled = self.pauses();
        // Until a try links the writer, the request is in its slot, and no other client sees the writer.
        for _ in rt.forever() {
            match self.poll_link(writer, item) {
                Linking::Linked => return,
                Linking::Missed => missed.retry(rt),
                Linking::Stalled => self.bells.pause(rt, &stalled, writer.client as u64),
            }
        }
        unreachable!()
    }

    /// As [`WriterList::link`]; but where writes are stalled the writer stays in no list, and the request comes back.
    pub fn try_link<R: Wait + rt::Clock>(
        &self,
        rt: &R,
        writer: &mut Writer<Request, Reply, Log, Right>,
        item: Item,
        request: Request,
    ) -> Result<(), Request>
        requires out { Belongs self.now writer.old × IsOut writer.old }
        requires item { (item ≡ Request.item_of request) × (item.size ≤ MAX_SIZE) }
        requires lawful { Log.lawful (about_of self.now) request }
        ensures client { client_of writer.new ≡ client_of writer.old }
        ensures belongs { Belongs self.now writer.new }
        ensures linked { IfOk result (λ _. IsIn (law_of Reply.run_of Log.LogOfGroups self.now) request
            (answers_told writer.old) writer.new) }
        ensures back { IfErr result (λ q. (q ≡ request) × IsOut writer.new
            × (answers_told writer.new ≡ answers_told writer.old)) }
    {
        self.enter(writer, request);
        let missed = self.pauses();
        // Until a try links the writer, the request is in its slot, and no other client sees the writer.
        for _ in rt.forever() {
            match self.poll_link(writer, item) {
                Linking::Linked => return Ok(()),
                Linking::Missed => missed.retry(rt),
                Linking::Stalled => return Err(self.withdraw(writer)),
            }
        }
        unreachable!()
    }

    /// Puts the request of a writer that is in no list into the writer's slot. No other client sees the writer yet, so
    /// what follows may take as long as the caller likes: tries of [`WriterList::poll_link`], or
    /// [`WriterList::withdraw`].
    pub fn enter(&self, writer: &mut Writer<Request, Reply, Log, Right>, request: Request)
        requires out { Belongs self.now writer.old × IsOut writer.old }
        ensures client { client_of writer.new ≡ client_of writer.old }
        ensures entering { Belongs self.now writer.new
            × IsEntering request (answers_told writer.old) writer.new }
    {
        let shared = &self.table.shared;
        let c = writer.client;
        // Idle -> Preparing: the state of the writer's last time in the list goes before the link. Once the writer is
        // linked others set its state; this store would undo that, and the writer would wait for ever. The constructor
        // of `Writer` sets `STATE_INIT`.
        shared.store::<Begin>(&mut writer.seat, state_word(c as u64), STATE_IN_LIST);
        // The slot, Empty -> Asked: a leader may take the request from it as soon as the writer is linked. Until then
        // the slot is the writer's own. The constructor of `Writer` sets `batch`.
        match shared.exchange(&mut writer.seat, c as usize, LineSlot::Asked(request)) {
            LineSlot::Empty => {}
            _ => unreachable!(),
        }
    }

    /// Tries once to put the writer, whose request is in its slot, at the newest end. Where it didn't get there, it is
    /// as it was for all others, and the caller may try again whenever it likes. `item` is what grouping sees of the
    /// request, which must be lawful for this list.
    pub fn poll_link(&self, writer: &mut Writer<Request, Reply, Log, Right>, item: Item) -> Linking
        requires entering { Belongs self.now writer.old × ((q : Request)
            × IsEntering q (answers_told writer.old) writer.old × (item ≡ Request.item_of q)
            × Log.lawful (about_of self.now) q) }
        requires small { item.size ≤ MAX_SIZE }
        ensures client { (client_of writer.new ≡ client_of writer.old) × Belongs self.now writer.new }
        ensures linked { (q : Request) → IsEntering q (answers_told writer.old) writer.old → result ≡ Linked
            → IsIn (law_of Reply.run_of Log.LogOfGroups self.now) q (answers_told writer.old) writer.new }
        // It still has the same request to link, and was told the same answers.
        ensures not_yet { (q : Request) → IsEntering q (answers_told writer.old) writer.old → result ≢ Linked
            → IsEntering q (answers_told writer.old) writer.new }
    {
        self.poll_link_from::<Brand>(writer, code_of(item))
    }

    /// One try. The caller picks the log's number at opening and what the law is about, since a step of the table knows
    /// neither.
    fn poll_link_from<About: PickedAbout<Log::About>>(
        &self,
        writer: &mut Writer<Request, Reply, Log, Right>,
        code: u64,
    ) -> Linking
        requires start { About.number ≡ self.now.table.shared.key.log }
        requires about { About.about ≡ Some self.now.table.shared.key.about }
        requires seat { (writer.old.seat.table_id ≡ self.now.table.shared.table_id)
            × (0 < writer.old.client) × (writer.old.client ≤ self.now.clients) × (code < 2 ^ 40) }
        requires entering { (q : Request) × (mine : Answers Request Reply) × IsEntering q mine writer.old
            × (code ≡ code_by Request.item_of q) × Log.lawful self.now.table.shared.key.about q }
        ensures seat { Stays writer.new writer.old }
        ensures linked { (q : Request) (mine : Answers Request Reply) → IsEntering q mine writer.old
            → result ≡ Linked → IsLinked (logs_picked Reply.run_of Log.LogOfGroups About.number About.about)
            writer.old.client writer.new.task q mine writer.new.seat.me }
        ensures not_yet { (q : Request) (mine : Answers Request Reply) → IsEntering q mine writer.old
            → result ≢ Linked → IsEntering q mine writer.new }
    {
        let shared = &self.table.shared;
        let c = writer.client;
        let newest = shared.load::<ReadNewest>(&mut writer.seat, 0);
        if newest == STALL {
            return Linking::Stalled;
        }
        let older = Older {
            client: newest,
            code,
        };
        // Preparing, with this older writer: who finds the writer at the newest end goes on by this link, so it is
        // named before the exchange; after it a leader could follow the link of the writer's last time.
        // `w->link_older = writers` of `LinkOne`.
        shared.store::<NameOlder>(&mut writer.seat, older_word(c as u64), older.pack());
        // Preparing -> Fresh where the list was empty, with the log; Preparing -> Waiting where it wasn't. From here on
        // others see the writer. Preparing still where the newest writer is another by now: the link would leave out
        // who came since, or lead to one that has left. The exchange of `LinkOne`, which returns true where the list
        // was empty.
        let found = shared.compare_exchange::<Link<About>>(&mut writer.seat, 0, newest, c as u64);
        if found != newest {
            return Linking::Missed;
        }
        writer.task = task_of(newest);
        Linking::Linked
    }

    /// Takes the request of a writer that isn't linked yet out of its slot again, so that the writer is in no list with
    /// nothing asked.
    pub fn withdraw(&self, writer: &mut Writer<Request, Reply, Log, Right>) -> Request
        requires entering { Belongs self.now writer.old
            × ((q : Request) × IsEntering q (answers_told writer.old) writer.old) }
        ensures client { (client_of writer.new ≡ client_of writer.old) × Belongs self.now writer.new }
        ensures out { IsOut writer.new × (answers_told writer.new ≡ answers_told writer.old) }
        ensures request { (q : Request) → IsEntering q (answers_told writer.old) writer.old → result ≡ q }
    {
        let shared = &self.table.shared;
        let c = writer.client;
        // The slot, Asked -> Empty: nobody else looks into the slot of a writer that isn't linked, so the request is
        // still there.
        match shared.exchange(&mut writer.seat, c as usize, LineSlot::Empty) {
            LineSlot::Asked(request) => {
                // Preparing -> Idle: the empty slot goes back to the list by a step, which a load is too. Without it
                // the writer could never begin again. `LinkOne` sets the writer's own state to `STATE_COMPLETED`.
                shared.load::<Withdraw>(&mut writer.seat, state_word(c as u64));
                request
            }
            _ => unreachable!(),
        }
    }
}

/// The task of a writer that found `newest` as the newest writer when it linked.
fn task_of(newest: u64) -> Task
    ensures first { newest ≡ 0 → result ≡ Leads }
    ensures behind { newest ≢ 0 → result ≡ Awaits }
{
    if newest == 0 {
        Task::Leads
    } else {
        Task::Awaits
    }
}
