//! How a leader whose group must wait stalls writes: nobody links until it ends that, and meanwhile it may let writers
//! of the queue go that may not be slowed down.
ghost use Rattle.std.specs.Prelude.{◌≡◌, ◌≢◌, ℕ, ◌^◌, ◌<◌, ◌≤◌, false, true, List, [], ◌∷◌, ◌++◌, length, vec_len, vec_capacity, IfSome, None, Some};
ghost use Rattle.line_rule.specs.declared.content.LineSlot.TheVariants.{Empty, Asked, Told};
ghost use Rattle.line_rule.specs.declared.view.QueuedWriter.{QueuedWriter};
ghost use Rattle.line_rule.specs.declared.view.Lead.{Lead};
ghost use Rattle.line_rule.specs.declared.view.LineStage.TheVariants.{Leading, Stalling};
ghost use Rattle.line_rule.specs.declared.view.Stall.TheVariants.{Stopped, Holds};
ghost use Rattle.line_rule.specs.Chain.{newest};
ghost use Rattle.line_rule.specs.Events.{is_hasty};
ghost use Rattle.line_rule.specs.Members.{asks};
ghost use Rattle.line_rule.specs.Plays.{At, in_hand};
ghost use Rattle.line_rule.specs.Rule.{asks_picked};
ghost use Rattle.line_rule.specs.Stalls.{Stops};
ghost use Rattle.line_writers.specs.Rooms.{HasRoom};
ghost use Rattle.line_writers.specs.Seats.{about_of, asks_of, bound_of, client_of, clients_of, table_of, Belongs, HasGroup, Stays, answers_told};
ghost use Rattle.line_writers.specs.Groups.{Queue, Handled, Answers};
ghost use Rattle.line_writers.specs.Stalled.{NoneHasty, ListsRest, EndsWith, EndsBefore, HasStalled, HasBegunStall, HoldsWith, HoldsOne, HoldsNext, OwesOne, TakesNext};

use crate::line_writers::WriterList;
use crate::room::{Requests, Room};
use crate::writer::Writer;
use line_rule::{
    AimStall, Dismiss, GiveBack, GivesRun, HasGroupingItem, Hold, LineSlot, LogOfGroups, Older,
    PassBy, PassFirst, PickedAbout, PutStall, ReadNewest, Resume, STALL, STATE_DONE, item_of,
    older_word, state_word,
};
use std::marker::Brand;
use std::rt;
use std::sync::Wait;

impl<
    Request: HasGroupingItem,
    Reply: GivesRun,
    Log: LogOfGroups<Request, Reply, Right>,
    Right,
> WriterList<Request, Reply, Log, Right> {
    /// Stalls writes, as `WriteThread::BeginWriteStall`: from here on nobody links, until [`WriterList::end_stall`].
    /// The leader has the requests of its whole group, and may be slowed down itself.
    pub fn begin_stall<R: Wait + rt::Clock>(
        &self,
        rt: &R,
        writer: &mut Writer<Request, Reply, Log, Right>,
        requests: &Requests<Request>,
        room: &mut Room,
    )
        requires group { Belongs self.now writer.old × ((own : QueuedWriter Request) × (group left : Queue Request)
            × (seen : Handled Request Reply)
            × HasGroup (asks_of Request.item_of Log.lawful self.now) (clients_of self.now) (bound_of self.now) own group
            left seen (answers_told writer.old) writer.old
            × (length requests.now.list.items ≡ length (asks own group)) × (is_hasty own.code ≡ false)) }
        requires room { HasRoom (clients_of self.now) room.old }
        ensures client { client_of writer.new ≡ client_of writer.old }
        // The leader has the whole queue before it: no writer is passed over yet.
        ensures stalled { Belongs self.now writer.new × ((own : QueuedWriter Request) (group left : Queue Request)
            (seen : Handled Request Reply)
            → HasGroup (asks_of Request.item_of Log.lawful self.now) (clients_of self.now) (bound_of self.now) own group
            left seen (answers_told writer.old) writer.old → (queue : Queue Request)
            × HasBegunStall (asks_of Request.item_of Log.lawful self.now) (clients_of self.now) (bound_of self.now) own
            group left seen (answers_told writer.old) queue room.new writer.new) }
    {
        let newest = self.put_stall(rt, writer);
        self.survey(writer, newest, 0, &mut room.walk);
        // The walk goes over the queue only, the newest writer first.
        room.walk.truncate(room.walk.len() - requests.list.len());
        room.walk.reverse();
        room.stall.newest = newest;
        room.stall.passed = None;
    }

    /// Goes on to the next writer of the queue that may not be slowed down, and takes its request. Returns `None` where
    /// there is none up to the leader's group, or where [`WriterList::keep_queued`] has ended the walk.
    pub fn next_queued(
        &self,
        writer: &mut Writer<Request, Reply, Log, Right>,
        room: &mut Room,
    ) -> Option<Request>
        requires stalled { Belongs self.now writer.old × ((own : QueuedWriter Request)
            × (group left rest : Queue Request) × (seen : Handled Request Reply)
            × HasStalled (asks_of Request.item_of Log.lawful self.now) (clients_of self.now) (bound_of self.now) own
            group left seen (answers_told writer.old) rest room.old writer.old) }
        ensures client { client_of writer.new ≡ client_of writer.old }
        ensures belongs { Belongs self.now writer.new }
        ensures some { IfSome result (λ q. (own : QueuedWriter Request) (group left rest : Queue Request)
            (seen : Handled Request Reply)
            → HasStalled (asks_of Request.item_of Log.lawful self.now) (clients_of self.now) (bound_of self.now) own
            group left seen (answers_told writer.old) rest room.old writer.old
            → TakesNext (asks_of Request.item_of Log.lawful self.now) (clients_of self.now) (bound_of self.now) own
            group left seen (answers_told writer.old) rest q room.new writer.new) }
        ensures none { result ≡ None → (own : QueuedWriter Request) (group left rest : Queue Request)
            (seen : Handled Request Reply)
            → HasStalled (asks_of Request.item_of Log.lawful self.now) (clients_of self.now) (bound_of self.now) own
            group left seen (answers_told writer.old) rest room.old writer.old
            → NoneHasty rest × HasStalled (asks_of Request.item_of Log.lawful self.now) (clients_of self.now)
            (bound_of self.now) own group left seen (answers_told writer.old) [] room.new writer.new }
        // Whoever linked the request had to show this of it.
        ensures lawful { IfSome result (Log.lawful (about_of self.now)) }
    {
        let client = self.pass_over(room)?;
        let (link, request) = self.hold::<Brand>(writer, client);
        room.stall.held = client;
        room.stall.link = link;
        Some(request)
    }

    /// Lets the writer go whose request the leader has: it leaves the queue, and gets this reply. Its request isn't
    /// handled.
    pub fn drop_queued(
        &self,
        writer: &mut Writer<Request, Reply, Log, Right>,
        room: &mut Room,
        reply: Reply,
    )
        requires holds { Belongs self.now writer.old × ((own : QueuedWriter Request) × (group left rest : Queue Request)
            × (seen : Handled Request Reply) × (x : QueuedWriter Request)
            × HoldsOne (asks_of Request.item_of Log.lawful self.now) (clients_of self.now) (bound_of self.now) own
            group left seen (answers_told writer.old) x rest room.old writer.old
            × Log.drops (about_of self.now) x.asked reply) }
        ensures client { client_of writer.new ≡ client_of writer.old }
        ensures stalled { Belongs self.now writer.new × ((own : QueuedWriter Request) (group left rest : Queue Request)
            (seen : Handled Request Reply) (x : QueuedWriter Request)
            → HoldsOne (asks_of Request.item_of Log.lawful self.now) (clients_of self.now) (bound_of self.now) own
            group left seen (answers_told writer.old) x rest room.old writer.old
            → HasStalled (asks_of Request.item_of Log.lawful self.now) (clients_of self.now) (bound_of self.now) own
            group left seen (answers_told writer.old) rest room.new writer.new) }
    {
        let shared = &self.table.shared;
        let held = room.stall.held;
        match shared.exchange(&mut writer.seat, held as usize, LineSlot::Told(reply)) {
            LineSlot::Empty => {}
            _ => unreachable!(),
        }
        self.pass_by(writer, room);
        // Owes -> Stopped: the writer that has left finds its reply in its slot. `SetState(w, STATE_COMPLETED)` there.
        shared.store::<Dismiss>(&mut writer.seat, state_word(held), STATE_DONE);
        self.bells.ring(held);
    }

    /// Gives the request back to the writer whose request the leader has. The writer stays in the queue, and the walk
    /// is ended.
    pub fn keep_queued(
        &self,
        writer: &mut Writer<Request, Reply, Log, Right>,
        room: &mut Room,
        request: Request,
    )
        requires holds { Belongs self.now writer.old × ((own : QueuedWriter Request) × (group left rest : Queue Request)
            × (seen : Handled Request Reply) × (x : QueuedWriter Request)
            × HoldsOne (asks_of Request.item_of Log.lawful self.now) (clients_of self.now) (bound_of self.now) own
            group left seen (answers_told writer.old) x rest room.old writer.old × (x.asked ≡ request)) }
        ensures client { client_of writer.new ≡ client_of writer.old }
        // No writer is left to look at, so the next call of `next_queued` returns `None`.
        ensures stalled { Belongs self.now writer.new × ((own : QueuedWriter Request) (group left rest : Queue Request)
            (seen : Handled Request Reply) (x : QueuedWriter Request)
            → HoldsOne (asks_of Request.item_of Log.lawful self.now) (clients_of self.now) (bound_of self.now) own
            group left seen (answers_told writer.old) x rest room.old writer.old
            → HasStalled (asks_of Request.item_of Log.lawful self.now) (clients_of self.now) (bound_of self.now) own
            group left seen (answers_told writer.old) [] room.new writer.new) }
    {
        let shared = &self.table.shared;
        let held = room.stall.held;
        match shared.exchange(&mut writer.seat, held as usize, LineSlot::Asked(request)) {
            LineSlot::Empty => {}
            _ => unreachable!(),
        }
        // Holds -> Stopped: the link keeps its value; with this store the writer has its slot again. RocksDB has no
        // such step, since it takes no request: it only looks at the writer.
        shared.store::<GiveBack>(&mut writer.seat, older_word(held), room.stall.link.pack());
        room.walk.clear();
    }

    /// Ends the stall, as `WriteThread::EndWriteStall`: word 0 names the newest writer again, and those that wait to
    /// link are woken. The leader has its group as before the stall.
    pub fn end_stall(&self, writer: &mut Writer<Request, Reply, Log, Right>, room: &mut Room)
        requires stalled { Belongs self.now writer.old × ((own : QueuedWriter Request)
            × (group left rest : Queue Request) × (seen : Handled Request Reply)
            × HasStalled (asks_of Request.item_of Log.lawful self.now) (clients_of self.now) (bound_of self.now) own
            group left seen (answers_told writer.old) rest room.old writer.old) }
        ensures client { client_of writer.new ≡ client_of writer.old }
        ensures room { HasRoom (clients_of self.now) room.new }
        ensures group { Belongs self.now writer.new × ((own : QueuedWriter Request) (group left rest : Queue Request)
            (seen : Handled Request Reply)
            → HasStalled (asks_of Request.item_of Log.lawful self.now) (clients_of self.now) (bound_of self.now) own
            group left seen (answers_told writer.old) rest room.old writer.old
            → HasGroup (asks_of Request.item_of Log.lawful self.now) (clients_of self.now) (bound_of self.now) own group
            left seen (answers_told writer.old) writer.new) }
    {
        // Stopped -> Leading: who links from here on sees the newest writer. `newest_writer_.exchange(..)` there.
        // Nobody else takes the marker away, so this never fails.
        self.table
            .shared
            .compare_exchange::<Resume>(&mut writer.seat, 0, STALL, room.stall.newest);
        room.walk.clear();
        self.ring_clients();
    }

    /// Puts the marker in the place of the newest writer. Returns the newest writer.
    fn put_stall<R: Wait + rt::Clock>(
        &self,
        rt: &R,
        writer: &mut Writer<Request, Reply, Log, Right>,
    ) -> u64
        requires seat { writer.old.seat.table_id ≡ self.now.table.shared.table_id }
        requires leads { (lead : Lead Request Reply) × (mine : Answers Request Reply)
            × At writer.old.client (Leading lead) mine writer.old.seat.me × (lead.taken ≡ lead.group)
            × (is_hasty lead.own.code ≡ false) }
        ensures seat { Stays writer.new writer.old }
        ensures stopped { (lead : Lead Request Reply) (mine : Answers Request Reply)
            → At writer.old.client (Leading lead) mine writer.old.seat.me
            → Stops (table_of self.now).slots result writer.old.client lead mine writer.old.seat.me writer.new.seat.me }
    {
        let shared = &self.table.shared;
        let pauses = self.pauses();
        // Until the exchange succeeds the leader leads as before, and others link.
        for _ in rt.forever() {
            let newest = shared.load::<ReadNewest>(&mut writer.seat, 0);
            // Leading -> Aimed: the marker must name the newest writer before anybody can see it. `LinkOne` stores the
            // dummy's `link_older` there.
            shared.store::<AimStall>(&mut writer.seat, older_word(0), newest);
            // Aimed -> Stopped, or back to Leading where somebody has come since: from here on nobody links. The
            // exchange of `LinkOne` there.
            let found = shared.compare_exchange::<PutStall>(&mut writer.seat, 0, newest, STALL);
            if found == newest {
                return newest;
            }
            pauses.retry(rt);
        }
        unreachable!()
    }

    /// Passes over the writers of the queue that may be slowed down. Returns the first one that may not.
    fn pass_over(&self, room: &mut Room) -> Option<u64>
        requires walk { (newer rest : Queue Request) × ListsRest (clients_of self.now) rest room.old
            × EndsBefore rest newer room.old.stall.passed }
        ensures newest { room.new.stall.newest ≡ room.old.stall.newest }
        ensures some { IfSome result (λ k. (newer rest : Queue Request) → ListsRest (clients_of self.now) rest room.old
            → EndsBefore rest newer room.old.stall.passed → (slow : Queue Request) × (x : QueuedWriter Request)
            × (older : Queue Request) × (rest ≡ slow ++ x ∷ older) × NoneHasty slow × (is_hasty x.code ≡ true)
            × (x.by ≡ k) × ListsRest (clients_of self.now) older room.new
            × EndsWith (newer ++ slow) room.new.stall.passed) }
        ensures none { result ≡ None → (newer rest : Queue Request) → ListsRest (clients_of self.now) rest room.old
            → EndsBefore rest newer room.old.stall.passed
            → NoneHasty rest × ListsRest {Request = Request} (clients_of self.now) [] room.new }
    {
        // The writers before those of the walk may be slowed down, and stay; the last of them is `passed`.
        for step in 0..room.walk.len() {
            let Some((client, code)) = room.walk.pop() else {
                unreachable!()
            };
            if item_of(code).options.no_slowdown {
                return Some(client);
            }
            room.stall.passed = Some((client, code));
        }
        None
    }

    /// Takes the request of a writer of the queue, and reads its link. The caller picks what the law is about, since a
    /// load doesn't know it.
    fn hold<About: PickedAbout<Log::About>>(
        &self,
        writer: &mut Writer<Request, Reply, Log, Right>,
        client: u64,
    ) -> (Older, Request)
        requires about { About.about ≡ Some self.now.table.shared.key.about }
        requires seat { (writer.old.seat.table_id ≡ self.now.table.shared.table_id) × (client ≤ self.now.clients) }
        requires next { (w : ℕ) × (lead : Lead Request Reply) × (mine : Answers Request Reply)
            × (newer older : Queue Request) × (x : QueuedWriter Request)
            × At writer.old.client (Stalling lead (Stopped w)) mine writer.old.seat.me
            × (lead.walk ≡ newer ++ x ∷ (older ++ in_hand lead)) × (x.by ≡ client)
            × (newest (older ++ in_hand lead) < 256) }
        ensures seat { Stays writer.new writer.old }
        ensures link { (result.0.client < 256) × (result.0.code < 2 ^ 56) }
        ensures held { (w : ℕ) (lead : Lead Request Reply) (mine : Answers Request Reply) (newer older : Queue Request)
            (x : QueuedWriter Request) → At writer.old.client (Stalling lead (Stopped w)) mine writer.old.seat.me
            → lead.walk ≡ newer ++ x ∷ (older ++ in_hand lead) → x.by ≡ client → newest (older ++ in_hand lead) < 256
            → HoldsNext (asks_picked Request.item_of Log.lawful About.about) writer.old.client w lead mine older x
            result writer.old.seat.me writer.new.seat.me }
    {
        let shared = &self.table.shared;
        // Stopped -> Holds: with this load the leader has the slot of the writer, which can't link, lead or be done
        // meanwhile.
        let word = shared.load::<Hold<About>>(&mut writer.seat, older_word(client));
        let link = Older::of(word);
        match shared.exchange(&mut writer.seat, client as usize, LineSlot::Empty) {
            LineSlot::Asked(request) => (link, request),
            _ => unreachable!(),
        }
    }

    /// Takes the writer whose slot the leader has out of the queue: the link of the next newer one that stays goes past
    /// it, or, where there is none, the word that names the newest writer.
    fn pass_by(&self, writer: &mut Writer<Request, Reply, Log, Right>, room: &mut Room)
        requires told { Belongs self.now writer.old × ((own : QueuedWriter Request) × (group left rest : Queue Request)
            × (seen : Handled Request Reply) × (x : QueuedWriter Request) × (p : Reply)
            × HoldsWith (asks_of Request.item_of Log.lawful self.now) (clients_of self.now) (bound_of self.now) own
            group left seen (answers_told writer.old) (Told p) x rest room.old writer.old
            × Log.drops (about_of self.now) x.asked p) }
        ensures seat { Stays writer.new writer.old }
        ensures owes { (own : QueuedWriter Request) (group left rest : Queue Request)
            (seen : Handled Request Reply) (x : QueuedWriter Request) (p : Reply)
            → HoldsWith (asks_of Request.item_of Log.lawful self.now) (clients_of self.now) (bound_of self.now) own
            group left seen (answers_told writer.old) (Told p) x rest room.old writer.old
            → OwesOne (asks_of Request.item_of Log.lawful self.now) (clients_of self.now) (bound_of self.now) own
            group left seen (answers_told writer.old) x rest p room.new writer.new }
    {
        let shared = &self.table.shared;
        let older = room.stall.link.client;
        match room.stall.passed {
            // Holds -> Owes: the next newer writer that stays is linked to the next older one. `prev->link_older =
            // w->link_older` there.
            Some((client, code)) => {
                let past = Older {
                    client: older,
                    code,
                };
                shared.store::<PassBy>(&mut writer.seat, older_word(client), past.pack());
            }
            // Holds -> Owes: the next older one is the newest writer from here on; `prev` is the dummy there.
            None => {
                shared.store::<PassFirst>(&mut writer.seat, older_word(0), older);
                room.stall.newest = older;
            }
        }
    }

    /// Wakes each client that sleeps: it may be one that waits to link.
    fn ring_clients(&self) {
        // The bells of the clients up to this one have rung.
        for client in 0..self.clients {
            self.bells.ring(client as u64 + 1);
        }
    }
}
