//! How a leader reads the queue and takes the requests of its group.
ghost use Rattle.std.specs.Prelude.{◌≡◌, ℕ, ◌+◌, ◌<◌, ◌≤◌, [], ◌∷◌, vec_len, vec_capacity, length, Some};
ghost use Rattle.std.specs.List.{AllByRecursion};
ghost use Rattle.line_rule.specs.declared.content.LineSlot.{LineSlot};
ghost use Rattle.line_rule.specs.declared.content.LineSlot.TheVariants.{Empty, Asked};
ghost use Rattle.line_rule.specs.declared.view.QueuedWriter.{QueuedWriter};
ghost use Rattle.line_rule.specs.declared.view.Lead.{Lead};
ghost use Rattle.line_rule.specs.declared.view.LineStage.TheVariants.{Fresh, Leading};
ghost use Rattle.line_rule.specs.Before.{Carried};
ghost use Rattle.line_rule.specs.Chain.{pairs};
ghost use Rattle.line_rule.specs.Grouping.{item_of};
ghost use Rattle.line_rule.specs.Rule.{asks_for, asks_picked};
ghost use Rattle.line_rule.specs.Plays.{At, SeesTo, Builds, lead_with_one_more};
ghost use Rattle.line_rule.specs.Members.{asks};
ghost use Rattle.line_writers.specs.Roles.{Chosen, HasRead, CodesFit, NextIs, Grouped, Gathering, Built};
ghost use Rattle.line_writers.specs.Rooms.{HasRoom, TakesRequests};
ghost use Rattle.line_writers.specs.Seats.{about_of, asks_of, bound_of, client_of, clients_of, Belongs, IsChosen, HasGroup, Stays, answers_told};
ghost use Rattle.line_writers.specs.Groups.{Queue, Handled, Answers};

use crate::line_writers::WriterList;
use crate::room::{Requests, Room};
use crate::writer::Writer;
use line_grouping::fits;
use line_rule::{
    Build, Fetch, GivesRun, HasGroupingItem, LineSlot, LogOfGroups, Older, PickedAbout, ReadOlder,
    item_of, older_word,
};
use std::marker::Brand;

impl<
    Request: HasGroupingItem,
    Reply: GivesRun,
    Log: LogOfGroups<Request, Reply, Right>,
    Right,
> WriterList<Request, Reply, Log, Right> {
    /// Takes the requests of the leader's group in link order, its own first. The group is what the grouping rule
    /// gives, under the list's bound, for the whole queue at one moment of this call: right after the last of the
    /// events that the leader knows from here on. A writer that links later doesn't change it. Each request is lawful
    /// for this list.
    pub fn group(
        &self,
        writer: &mut Writer<Request, Reply, Log, Right>,
        requests: &mut Requests<Request>,
        room: &mut Room,
    )
        requires leads { Belongs self.now writer.old
            × ((own : QueuedWriter Request) × (seen : Handled Request Reply)
            × IsChosen own seen (answers_told writer.old) writer.old) }
        requires room { HasRoom (clients_of self.now) room.old × TakesRequests (clients_of self.now) requests.old }
        ensures room { HasRoom (clients_of self.now) room.new
            × (vec_capacity requests.new.list ≡ vec_capacity requests.old.list) }
        ensures client { client_of writer.new ≡ client_of writer.old }
        // No group may pass over a writer that had come: each writer that waits knows its own coming among the events
        // that the leader knows.
        ensures group { Belongs self.now writer.new × ((own : QueuedWriter Request) (seen : Handled Request Reply)
            → IsChosen own seen (answers_told writer.old) writer.old → (group left : Queue Request)
            × HasGroup (asks_of Request.item_of Log.lawful self.now) (clients_of self.now) (bound_of self.now) own group
            left seen (answers_told writer.old) writer.new × (requests.new.list.items ≡ asks own group)) }
        // Whoever linked a request had to show this of it.
        ensures lawful { AllByRecursion (λ (x : ℕ
            × Request). Log.lawful (about_of self.now) x.1) requests.new.list.items }
        ensures few { length requests.new.list.items ≤ clients_of self.now }
    {
        self.group_from::<Brand>(writer, self.group_bytes, &mut requests.list, room);
    }

    /// The caller picks the bound and what the law is about, since a load knows neither.
    fn group_from<About: PickedAbout<Log::About>>(
        &self,
        writer: &mut Writer<Request, Reply, Log, Right>,
        max: u64,
        requests: &mut Vec<(u32, Request)>,
        room: &mut Room,
    )
        requires max { (About.number ≡ max) × (max ≡ self.now.table.shared.key.group_bytes) }
        requires about { About.about ≡ Some self.now.table.shared.key.about }
        requires seat { (writer.old.seat.table_id ≡ self.now.table.shared.table_id)
            × (0 < writer.old.client) × (writer.old.client ≤ self.now.clients) }
        requires leads { (own : QueuedWriter Request) × (seen : Handled Request Reply)
            × (mine : Answers Request Reply)
            × Chosen writer.old.client own seen mine writer.old.seat.me }
        requires room { HasRoom (clients_of self.now) room.old × (vec_len requests.old ≡ 0)
            × (requests.old.items ≡ []) × (clients_of self.now ≤ vec_capacity requests.old) }
        ensures seat { Stays writer.new writer.old }
        ensures room { HasRoom (clients_of self.now) room.new
            × (vec_capacity requests.new ≡ vec_capacity requests.old) }
        ensures group { (own : QueuedWriter Request) (seen : Handled Request Reply) (mine : Answers Request Reply)
            → Chosen writer.old.client own seen mine writer.old.seat.me → (group left : Queue Request)
            × Grouped (asks_of Request.item_of Log.lawful self.now) self.now.clients max writer.old.client own group
            left seen mine writer.new.seat.me × (requests.new.items ≡ asks own group) }
    {
        let first = self.build::<About>(writer);
        self.survey(writer, first, 0, &mut room.walk);
        let Some((by, code)) = room.walk.pop() else {
            unreachable!()
        };
        let request = self.own_request(writer);
        requests.push_reserved((by as u32, request));
        self.gather(writer, max, code, &mut room.walk, requests);
        room.walk.clear();
    }

    /// Reads the number of the newest writer. This step builds the group.
    fn build<About: PickedAbout<Log::About>>(
        &self,
        writer: &mut Writer<Request, Reply, Log, Right>,
    ) -> u64
        requires bound { self.now.table.shared.key.group_bytes ≡ About.number }
        requires about { About.about ≡ Some self.now.table.shared.key.about }
        requires seat { writer.old.seat.table_id ≡ self.now.table.shared.table_id }
        requires leads { (own : QueuedWriter Request) × (seen : Handled Request Reply)
            × (mine : Answers Request Reply)
            × At writer.old.client (Fresh own seen) mine writer.old.seat.me }
        ensures seat { Stays writer.new writer.old }
        ensures built { (own : QueuedWriter Request) (seen : Handled Request Reply)
            (mine : Answers Request Reply)
            → At writer.old.client (Fresh own seen) mine writer.old.seat.me
            → Builds (asks_picked Request.item_of Log.lawful About.about) self.now.table.shared.table_id.slots
            About.number writer.old.client own seen mine result writer.old.seat.me writer.new.seat.me }
    {
        // Fresh -> Leading: the group is taken from the queue that begins at this newest writer. It is one load, since
        // the rule is of one queue, and more writers may have come at a second one. The load of `newest_writer_` in
        // `EnterAsBatchGroupLeader`.
        self.table.shared.load::<Build<About>>(&mut writer.seat, 0)
    }

    /// Walks the writers that were read, from the newest one (`first`) to the oldest one, whose link names `end`. The
    /// walk lists each writer's client and code.
    pub(crate) fn survey(
        &self,
        writer: &mut Writer<Request, Reply, Log, Right>,
        first: u64,
        end: u64,
        walk: &mut Vec<(u64, u64)>,
    )
        requires seat { (writer.old.seat.table_id ≡ self.now.table.shared.table_id) × (vec_len walk.old ≡ 0)
            × (walk.old.items ≡ []) × (self.now.clients ≤ vec_capacity walk.old) }
        requires read { HasRead end self.now.table.shared.table_id.slots writer.old.client first writer.old.seat.me }
        ensures seat { (writer.new.seat.table_id ≡ writer.old.seat.table_id)
            × (writer.new.client ≡ writer.old.client) × (writer.new.seat.me ≡ writer.old.seat.me)
            × (vec_capacity walk.new ≡ vec_capacity walk.old) }
        ensures walk { (line : Queue Request) → SeesTo end writer.old.client writer.old.seat.me line
            → walk.new.items ≡ pairs line }
        ensures codes { CodesFit walk.new.items }
    {
        let shared = &self.table.shared;
        let mut at = first;
        // The walk has the writers from the newest one down to the one before `at`.
        for step in 0..self.clients {
            let word = shared.load::<ReadOlder>(&mut writer.seat, older_word(at));
            let older = Older::of(word);
            walk.push_reserved((at, older.code));
            at = older.client;
            if at == end {
                return;
            }
        }
        unreachable!()
    }

    /// Takes the leader's own request.
    fn own_request(&self, writer: &mut Writer<Request, Reply, Log, Right>) -> Request
        requires seat { writer.old.seat.table_id ≡ self.now.table.shared.table_id }
        requires held { (q : Request) × (t : Carried Request Reply Log Right)
            × (writer.old.seat.me.1 ≡ (writer.old.client, Asked q) ∷ t) }
        ensures seat { (writer.new.seat.table_id ≡ writer.old.seat.table_id)
            × (writer.new.client ≡ writer.old.client) × (writer.new.seat.me.0 ≡ writer.old.seat.me.0) }
        ensures taken { (q : Request) (t : Carried Request Reply Log Right)
            → writer.old.seat.me.1 ≡ (writer.old.client, Asked q) ∷ t
            → (writer.new.seat.me.1 ≡ (writer.old.client, Empty) ∷ t) × (result ≡ q) }
    {
        let c = writer.client;
        // The slot, Asked -> Empty: a leader has its own slot since it leads, so its request is still there.
        match self
            .table
            .shared
            .exchange(&mut writer.seat, c as usize, LineSlot::Empty)
        {
            LineSlot::Asked(request) => request,
            _ => unreachable!(),
        }
    }

    /// Takes the requests of the writers of the walk, from its oldest writer on, while they fit.
    fn gather(
        &self,
        writer: &mut Writer<Request, Reply, Log, Right>,
        max: u64,
        leader_code: u64,
        walk: &mut Vec<(u64, u64)>,
        asked: &mut Vec<(u32, Request)>,
    )
        requires seat { (writer.old.seat.table_id ≡ self.now.table.shared.table_id)
            × (0 < writer.old.client) × (writer.old.client ≤ self.now.clients) }
        requires walk { Gathering (asks_for Request.item_of Log.lawful self.now.table.shared.key.about) self.now.clients
            max
            leader_code writer.old.client writer.old.seat.me walk.old.items asked.old.items }
        requires room { (vec_len walk.old ≡ length walk.old.items) × (vec_len walk.old + 1 ≤ vec_capacity asked.old)
            × (vec_len asked.old ≡ 1) }
        ensures seat { (writer.new.seat.table_id ≡ writer.old.seat.table_id)
            × (writer.new.client ≡ writer.old.client) × (vec_capacity asked.new ≡ vec_capacity asked.old)
            × (vec_capacity walk.new ≡ vec_capacity walk.old) }
        ensures gathered { (own : QueuedWriter Request) (group left : Queue Request) (seen : Handled Request Reply)
            (mine : Answers Request Reply) → Built (asks_of Request.item_of Log.lawful self.now) max writer.old.client
            own group left seen mine writer.old.seat.me
            → Grouped (asks_of Request.item_of Log.lawful self.now) self.now.clients max writer.old.client own group
            left seen mine writer.new.seat.me × (asked.new.items ≡ asks own group) }
    {
        let leader = item_of(leader_code);
        let mut sum = leader.size;
        // The writers that were taken so far go together, and `sum` is the sum of their sizes; the walk has the
        // writers that came after them.
        for step in 0..walk.len() {
            let Some((by, code)) = walk.pop() else {
                unreachable!()
            };
            let item = item_of(code);
            if !fits(max, leader, sum, item) {
                return;
            }
            sum += item.size;
            let request = self.fetch(writer, by);
            asked.push_reserved((by as u32, request));
        }
    }

    /// Takes the request of the oldest writer whose request the leader does not have yet.
    fn fetch(&self, writer: &mut Writer<Request, Reply, Log, Right>, member: u64) -> Request
        requires seat { (writer.old.seat.table_id ≡ self.now.table.shared.table_id) × (member ≤ self.now.clients) }
        requires next { (lead : Lead Request Reply) × (mine : Answers Request Reply)
            × (pre : Queue Request) × (x : QueuedWriter Request)
            × NextIs writer.old.client lead mine pre x writer.old.seat.me × (x.by ≡ member) }
        ensures seat { Stays writer.new writer.old }
        ensures taken { (lead : Lead Request Reply) (mine : Answers Request Reply) (pre : Queue Request)
            (x : QueuedWriter Request)
            → NextIs writer.old.client lead mine pre x writer.old.seat.me → x.by ≡ member
            → At writer.old.client (Leading (lead_with_one_more lead x)) mine writer.new.seat.me
            × (writer.new.seat.me.1 ≡ (x.by, Empty) ∷ writer.old.seat.me.1) × (result ≡ x.asked) }
    {
        let shared = &self.table.shared;
        // Leading, with one request more: with this load the leader has the member's slot, while the member can only
        // wait until it is told. `w->write_group = write_group` of `EnterAsBatchGroupLeader`.
        shared.load::<Fetch>(&mut writer.seat, older_word(member));
        // The slot, Asked -> Empty: the member put its request there before it linked.
        match shared.exchange(&mut writer.seat, member as usize, LineSlot::Empty) {
            LineSlot::Asked(request) => request,
            _ => unreachable!(),
        }
    }
}
