//! The events of the log, from electing a leader to handing the log on.

ghost use Rattle.std.specs.Prelude.{◌≡◌, ◌<◌, ◌≤◌, ◌+◌, ◌++◌, ◌∷◌, [], if◌then◌else◌, length, slice_set, slice_index_or, vec_len, vec_capacity};
ghost use Rattle.replay_core.specs.declared.writer.Writer.{Writer};
ghost use Rattle.replay_core.specs.Runs.{with_answer};

use crate::leaving::{note_group, note_refused, remove_range};
use crate::ordinals::count_entries;
use crate::phases::LogPhase;
use crate::room::push_within;
use crate::runs::give_runs;
use crate::state::State;
use crate::writer::{Answer, Writer};
use line_grouping::group_len;
use model_base::Refusal;

impl State<'_> {
    ghost use Rattle.model_core.specs.Core as core;
    ghost use Rattle.model_core.specs.Step as event;
    ghost use Rattle.std.specs.Prelude.{◌==◌, ◌&&◌, nat_lt, false, slice_get, take, length, drop, map, slice_index_or, is_some};
    ghost use Rattle.replay_core.specs.declared.writer.Writer.{Writer};
    ghost use Rattle.model_base.specs.Calls.{refused};
    ghost use Rattle.replay_core.specs.Shown.{shown_writer, plans_in};
    ghost use Rattle.model_base.specs.Grouping.{group_len};
    ghost use Rattle.std.specs.Option.{option_map_or};
    ghost use Rattle.replay_core.specs.Phases.{is_built};
    ghost use Rattle.replay_core.specs.Steps.{HandLeaves, Steps};
    ghost use Rattle.replay_core.specs.Leads.{leads_at, leads_front};

    /// The log is free, and the client is first in the queue. It leads.
    pub(crate) fn elect(&mut self, client: u32) -> bool
        ensures steps { Steps (λ o s. event.elect s client s.log) self.old result self.new }
        ensures unchanged { result ≡ false → self.new ≡ self.old }
        ensures plans { plans_in self.new ≡ plans_in self.old }
    {
        let queue = self.in_second + self.in_hand;
        if !self.log.is_free() {
            return false;
        }
        if !self.leads(client, queue) {
            return false;
        }
        self.log = LogPhase::Led(client);
        true
    }

    /// The client leads. Its group leaves the queue.
    pub(crate) fn build(&mut self, client: u32) -> bool
        ensures steps { Steps (λ o s. event.build o s client s.log) self.old result self.new }
        ensures unchanged { result ≡ false → self.new ≡ self.old }
        ensures plans { plans_in self.new ≡ plans_in self.old }
    {
        if !self.log.is_led_by(client) {
            return false;
        }
        self.in_hand = self.group_size();
        self.log = LogPhase::Built;
        true
    }

    /// How many writers of the queue the next group takes.
    fn group_size(&self) -> usize
        ensures rule { 0 < length (drop (self.now.in_second + self.now.in_hand) self.now.items.items)
            → result ≡ group_len self.now.options.group_bytes
            (drop (self.now.in_second + self.now.in_hand) self.now.items.items) }
        ensures within { self.now.in_second + self.now.in_hand + result ≤ vec_len self.now.linked }
    {
        let queue = self.in_second + self.in_hand;
        if queue < self.items.len() {
            group_len(&self.items[queue..], self.options.group_bytes)
        } else {
            0
        }
    }

    /// The client's group is built, and the log hasn't failed. Runs are given in order, and a member whose run doesn't
    /// fit is refused. Where no run fits, all members leave.
    pub(crate) fn log_group(&mut self, client: u32) -> bool
        ensures steps { Steps (λ o s. event.log_group s client s.log) self.old result self.new }
        ensures unchanged { result ≡ false → self.new ≡ self.old }
        ensures plans { plans_in self.new ≡ plans_in self.old }
    {
        if !self.has_built(client) {
            return false;
        }
        let alone = self.is_alone();
        if alone {
            return false;
        }
        if self.log_failed {
            return false;
        }
        let unlogged = self.is_unlogged();
        let before = self.entries.len();
        let start = self.in_second;
        let end = start + self.in_hand;
        self.assigned = give_runs(
            &mut self.linked[start..end],
            &mut self.entries,
            &self.accepted,
            self.assigned,
        );
        count_entries(&mut self.accepted, &self.entries[before..]);
        let given = self.entries.len() - before;
        if given == 0 {
            self.leave_hand();
            return true;
        }
        self.log = LogPhase::InLog;
        note_logged(&mut self.groups, given as u64, unlogged);
        true
    }

    /// The client's group is built, and the log fails. All its members are refused, and the log has failed.
    pub(crate) fn fault(&mut self, client: u32) -> bool
        ensures steps { Steps (λ o s. event.fault s client s.log) self.old result self.new }
        ensures unchanged { result ≡ false → self.new ≡ self.old }
        ensures plans { plans_in self.new ≡ plans_in self.old }
    {
        if !self.has_built(client) {
            return false;
        }
        if self.is_alone() {
            return false;
        }
        self.refuse_group(Refusal::LogFault { count: 1 });
        self.log_failed = true;
        true
    }

    /// The client's group is built and must not be slowed down. All its members are refused.
    pub(crate) fn refuse(&mut self, client: u32, why: Refusal) -> bool
        ensures steps { Steps (λ o s. event.refuse s client why s.log) self.old result self.new }
        ensures unchanged { result ≡ false → self.new ≡ self.old }
        ensures plans { plans_in self.new ≡ plans_in self.old }
    {
        if !self.has_built(client) {
            return false;
        }
        if !self.is_no_slowdown() {
            return false;
        }
        self.refuse_group(why);
        true
    }

    /// The client has built a group of its own, which reads the log. It is answered at the published sequence.
    pub(crate) fn read_log(&mut self, client: u32) -> bool
        ensures steps { Steps (λ o s. event.read_log s client s.log) self.old result self.new }
        ensures unchanged { result ≡ false → self.new ≡ self.old }
        ensures plans { plans_in self.new ≡ plans_in self.old }
    {
        if !self.has_built(client) {
            return false;
        }
        if !self.is_reader() {
            return false;
        }
        if self.has_answer() {
            return false;
        }
        set_answer(
            &mut self.linked,
            self.in_second,
            Answer::ReadAt { at: self.last },
        );
        true
    }

    /// The client has read the log, alone. It leaves with its answer, and the log is free.
    pub(crate) fn exit_reader(&mut self, client: u32) -> bool
        ensures steps { Steps (λ o s. event.exit_reader s client s.log) self.old result self.new }
        ensures unchanged { result ≡ false → self.new ≡ self.old }
        ensures plans { plans_in self.new ≡ plans_in self.old }
    {
        if !self.has_built(client) {
            return false;
        }
        if !self.is_reader() {
            return false;
        }
        if !self.has_answer() {
            return false;
        }
        self.leave_hand();
        true
    }

    /// Pipelined: the client's group is logged, and the end of the group is marked.
    pub(crate) fn boundary(&mut self, client: u32) -> bool
        ensures steps { Steps (λ o s. event.boundary o s client s.log) self.old result self.new }
        ensures unchanged { result ≡ false → self.new ≡ self.old }
        ensures plans { plans_in self.new ≡ plans_in self.old }
    {
        if !self.log.is_in_log() {
            return false;
        }
        if !self.options.pipelined {
            return false;
        }
        if !self.leads_hand(client) {
            return false;
        }
        self.log = LogPhase::Marked;
        true
    }

    /// The marked group goes to the end of the second queue.
    pub(crate) fn to_second(&mut self, client: u32) -> bool
        ensures steps { Steps (λ o s. event.to_second s client s.log) self.old result self.new }
        ensures unchanged { result ≡ false → self.new ≡ self.old }
        ensures plans { plans_in self.new ≡ plans_in self.old }
    {
        if !self.log.is_marked() {
            return false;
        }
        if !self.leads_hand(client) {
            return false;
        }
        push_within(&mut self.second, self.in_hand);
        self.in_second += self.in_hand;
        self.in_hand = 0;
        self.log = LogPhase::Handed(client);
        true
    }

    /// The log is free for the next leader.
    pub(crate) fn next(&mut self, client: u32) -> bool
        ensures steps { Steps (λ o s. event.next s client s.log) self.old result self.new }
        ensures unchanged { result ≡ false → self.new ≡ self.old }
        ensures plans { plans_in self.new ≡ plans_in self.old }
    {
        if !self.log.is_handed_by(client) {
            return false;
        }
        self.log = LogPhase::Free;
        true
    }

    /// Whether the group in hand must not be slowed down, by its leader's options.
    pub(crate) fn is_no_slowdown(&self) -> bool
        requires { self.now.in_second < length self.now.linked.items }
        ensures { (d : Writer)
            → result ≡ (slice_index_or self.now.linked.items self.now.in_second d).options.no_slowdown }
    {
        self.linked[self.in_second].options.no_slowdown
    }

    /// Whether the group in hand reads the log, by its leader.
    pub(crate) fn is_alone(&self) -> bool
        requires { self.now.in_second < length self.now.linked.items }
        ensures { (d : Writer)
            → result ≡ is_some (slice_index_or self.now.linked.items self.now.in_second d).since }
    {
        self.linked[self.in_second].since.is_some()
    }

    /// Whether the group in hand is one writer, which reads the log.
    fn is_reader(&self) -> bool
        requires { self.now.in_second < length self.now.linked.items }
        ensures { (d : Writer) → result ≡ (self.now.in_hand == 1
            && is_some (slice_index_or self.now.linked.items self.now.in_second d).since) }
    {
        self.in_hand == 1 && self.is_alone()
    }

    /// Whether the leader of the group in hand has its answer.
    fn has_answer(&self) -> bool
        requires { self.now.in_second < length self.now.linked.items }
        ensures { (d : Writer)
            → result ≡ is_some (slice_index_or self.now.linked.items self.now.in_second d).answer }
    {
        self.linked[self.in_second].answer.is_some()
    }

    /// Whether the group in hand stays out of the log, by its leader's options.
    fn is_unlogged(&self) -> bool
        requires { self.now.in_second < length self.now.linked.items }
        ensures { (d : Writer) → result ≡ (slice_index_or self.now.linked.items self.now.in_second d).options.no_log }
    {
        self.linked[self.in_second].options.no_log
    }

    /// All members of the group in hand leave with a refusal, and the log is free.
    fn refuse_group(&mut self, why: Refusal)
        ensures left { HandLeaves (core.all_answered (refused why)) self.old self.new }
        ensures plans { plans_in self.new ≡ plans_in self.old }
    {
        let start = self.in_second;
        let len = self.in_hand;
        note_refused(&mut self.done, &self.linked[start..start + len], why);
        remove_range(&mut self.linked, start, len);
        remove_range(&mut self.items, start, len);
        self.in_hand = 0;
        self.log = LogPhase::Free;
    }

    /// The group in hand leaves with its answers, and the log is free.
    pub(crate) fn leave_hand(&mut self)
        ensures left { HandLeaves (λ ws. ws) self.old self.new }
        ensures plans { plans_in self.new ≡ plans_in self.old }
    {
        let start = self.in_second;
        let len = self.in_hand;
        note_group(&mut self.done, &self.linked[start..start + len]);
        remove_range(&mut self.linked, start, len);
        remove_range(&mut self.items, start, len);
        self.in_hand = 0;
        self.log = LogPhase::Free;
    }

    /// Whether the client leads a group that is built.
    pub(crate) fn has_built(&self, client: u32) -> bool
        ensures { result ≡ (is_built self.now.log && leads_front client self.now.in_second self.now.in_hand
            self.now.linked.items) }
    {
        self.log.is_built() && self.leads_hand(client)
    }

    /// Whether the client leads the group in hand.
    pub(crate) fn leads_hand(&self, client: u32) -> bool
        ensures { result ≡ leads_front client self.now.in_second self.now.in_hand self.now.linked.items }
    {
        self.in_hand > 0 && self.leads(client, self.in_second)
    }

    /// Whether the writer at a place is the client's.
    pub(crate) fn leads(&self, client: u32, place: usize) -> bool
        ensures { result ≡ leads_at client place self.now.linked.items }
    {
        match self.linked.get(place) {
            Some(writer) => writer.client == client,
            None => false,
        }
    }
}

/// Gives the writer at a place its answer.
fn set_answer(writers: &mut Vec<Writer>, place: usize, answer: Answer)
    requires { place < length writers.old.items }
    ensures set { (d : Writer) → writers.new.items
        ≡ slice_set writers.old.items place (with_answer answer (slice_index_or writers.old.items place d)) }
    ensures len { vec_len writers.new ≡ vec_len writers.old }
    ensures capacity { vec_capacity writers.new ≡ vec_capacity writers.old }
{
    writers[place].answer = Some(answer);
}

/// Notes how many entries a group has, if the group is logged.
fn note_logged(groups: &mut Vec<u64>, given: u64, unlogged: bool)
    ensures noted { vec_len groups.old < vec_capacity groups.old
        → groups.new.items ≡ (if unlogged then groups.old.items else groups.old.items ++ given ∷ []) }
    ensures upper { vec_len groups.new ≤ vec_len groups.old + 1 }
    ensures capacity { vec_capacity groups.new ≡ vec_capacity groups.old }
{
    if !unlogged {
        push_within(groups, given);
    }
}
