//! The events of the memtable, from launching a group to its leaving.

ghost use Rattle.std.specs.Prelude.{◌≡◌, false};
ghost use Rattle.replay_core.specs.Leads.{last_after, finished_last};

use crate::leaving::{note_group, remove_range};
use crate::marks::{clear_marks, mark_of, set_mark};
use crate::phases::{LogPhase, Mark, TablePhase};
use crate::state::State;
use crate::writer::Answer;

impl State<'_> {
    ghost use Rattle.model_core.specs.Core as core;
    ghost use Rattle.model_core.specs.Step as event;
    ghost use Rattle.std.specs.Prelude.{◌==◌, ◌&&◌, ◌||◌, not, fold, drop, length, ◌<◌};
    ghost use Rattle.std.specs.List.{list_any, list_all};
    ghost use Rattle.replay_core.specs.Leads.{leads_front, has_run, last_after};
    ghost use Rattle.replay_core.specs.TableGroup.{table_start_in, table_len_in, table_group_in};
    ghost use Rattle.replay_core.specs.Phases.{is_finished};
    ghost use Rattle.replay_core.specs.Shown.{plans_in};
    ghost use Rattle.replay_core.specs.Mirrors.{Mirrors, mark_of};
    ghost use Rattle.replay_core.specs.Steps.{Steps};

    /// Nothing is launched, and the client leads the group that comes next. That group is launched.
    pub(crate) fn launch(&mut self, client: u32) -> bool
        ensures steps { Steps (λ o s. event.launch o s client s.table) self.old result self.new }
        ensures unchanged { result ≡ false → self.new ≡ self.old }
        ensures plans { plans_in self.new ≡ plans_in self.old }
    {
        if !self.table.is_still() {
            return false;
        }
        if !self.leads_table(client) {
            return false;
        }
        clear_marks(&mut self.marks);
        self.last_finished = None;
        self.table = TablePhase::Launched;
        true
    }

    /// The client has a run in the launched group, and inserts its entry.
    pub(crate) fn insert(&mut self, client: u32) -> bool
        ensures steps { Steps (λ o s. event.insert o s client s.table) self.old result self.new }
        ensures unchanged { result ≡ false → self.new ≡ self.old }
        ensures plans { plans_in self.new ≡ plans_in self.old }
    {
        if !self.table.is_launched() {
            return false;
        }
        if !self.has_runner(client) {
            return false;
        }
        if mark_of(&self.marks, client).is_inserted() {
            return false;
        }
        set_mark(&mut self.marks, client, Mark::Inserted);
        true
    }

    /// The client has inserted, and is finished.
    pub(crate) fn finish(&mut self, client: u32) -> bool
        ensures steps { Steps (λ o s. event.finish s client s.table) self.old result self.new }
        ensures unchanged { result ≡ false → self.new ≡ self.old }
        ensures plans { plans_in self.new ≡ plans_in self.old }
    {
        if !self.table.is_launched() {
            return false;
        }
        let mark = mark_of(&self.marks, client);
        if !mark.is_inserted() {
            return false;
        }
        if mark.is_finished() {
            return false;
        }
        set_mark(&mut self.marks, client, Mark::Finished);
        self.last_finished = Some(client);
        true
    }

    /// All members with runs have finished, the client as the last one. The group's last sequence is published.
    pub(crate) fn publish(&mut self, client: u32) -> bool
        ensures steps { Steps (λ o s. event.publish o s client s.table) self.old result self.new }
        ensures unchanged { result ≡ false → self.new ≡ self.old }
        ensures plans { plans_in self.new ≡ plans_in self.old }
    {
        if !self.table.is_launched() {
            return false;
        }
        if !finished_last(client, self.last_finished) {
            return false;
        }
        if !self.all_finished() {
            return false;
        }
        self.last = self.group_last();
        self.table = TablePhase::Published;
        true
    }

    /// The client leads the published group. Its members leave with their answers. Or the client has read the log, and
    /// leaves.
    pub(crate) fn exit(&mut self, client: u32) -> bool
        ensures steps { Steps (λ o s. event.exit o s client s.table) self.old result self.new }
        ensures unchanged { result ≡ false → self.new ≡ self.old }
        ensures plans { plans_in self.new ≡ plans_in self.old }
    {
        if !self.table.is_published() {
            return self.exit_reader(client);
        }
        if !self.leads_table(client) {
            return self.exit_reader(client);
        }
        if self.options.pipelined {
            self.leave_second();
            self.table = TablePhase::Still;
            return true;
        }
        self.leave_hand();
        self.table = TablePhase::Still;
        true
    }

    /// The first group of the second queue leaves with its answers.
    fn leave_second(&mut self)
        requires { 0 < length self.old.second.items }
        ensures left { (o : core.Options) (s : core.State) → Mirrors o self.old s
            → Mirrors o self.new (record (event.leave s (core.first_group s.second)) { second = drop 1 s.second }) }
        ensures plans { plans_in self.new ≡ plans_in self.old }
    {
        let len = self.second[0].min(self.in_second);
        note_group(&mut self.done, &self.linked[..len]);
        remove_range(&mut self.linked, 0, len);
        remove_range(&mut self.items, 0, len);
        self.second.remove(0);
        self.in_second -= len;
    }

    /// Where the group that is in the table, or goes there next, begins among the linked writers.
    fn table_start(&self) -> usize
        ensures { result ≡ table_start_in self.now }
    {
        if self.options.pipelined {
            0
        } else {
            self.in_second
        }
    }

    /// How many writers that group has.
    fn table_len(&self) -> usize
        ensures { result ≡ table_len_in self.now }
    {
        if self.options.pipelined {
            match self.second.first() {
                Some(len) => *len,
                None => 0,
            }
        } else if self.log.is_in_log() {
            self.in_hand
        } else {
            0
        }
    }

    /// Whether the client leads the group in the table.
    fn leads_table(&self, client: u32) -> bool
        ensures { result ≡ leads_front client (table_start_in self.now) (table_len_in self.now) self.now.linked.items }
    {
        self.table_len() > 0 && self.leads(client, self.table_start())
    }

    /// Whether the client has a run in the group in the table.
    fn has_runner(&self, client: u32) -> bool
        ensures { result ≡ list_any (λ w. w.client == client && has_run w.answer) (table_group_in self.now) }
    {
        let start = self.table_start();
        let len = self.table_len();
        self.linked
            .iter()
            .skip(start)
            .take(len)
            .any(|writer| writer.client == client && writer.has_run())
    }

    /// Whether all members with runs of the group in the table have finished.
    fn all_finished(&self) -> bool
        ensures { result
            ≡ list_all (λ w. not (has_run w.answer) || is_finished (mark_of self.now.marks.items w.client))
            (table_group_in self.now) }
    {
        let start = self.table_start();
        let len = self.table_len();
        self.linked.iter().skip(start).take(len).all(|writer| !writer.has_run()
            || mark_of(&self.marks, writer.client).is_finished())
    }

    /// The last sequence of the group in the table.
    fn group_last(&self) -> u64
        ensures { result ≡ fold (λ n w. last_after n w.answer) self.now.last (table_group_in self.now) }
    {
        let start = self.table_start();
        let len = self.table_len();
        self.linked
            .iter()
            .skip(start)
            .take(len)
            .fold(self.last, |last, writer| last_after(last, writer.answer))
    }
}

/// Whether the client finished last.
fn finished_last(client: u32, last_finished: Option<u32>) -> bool
    ensures { result ≡ finished_last client last_finished }
{
    match last_finished {
        Some(last) => last == client,
        None => false,
    }
}

/// The last sequence of the answer's run, or `last` if the answer has none.
fn last_after(last: u64, answer: Option<Answer>) -> u64
    ensures { result ≡ last_after last answer }
{
    match answer {
        Some(Answer::Accepted(run)) => run.last,
        _ => last,
    }
}
