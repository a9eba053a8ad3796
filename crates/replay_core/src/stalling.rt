//! The events of a leader that stalls writes.

ghost use Rattle.std.specs.Prelude.{◌≡◌, ◌≤◌, length};
ghost use Rattle.replay_core.specs.Leads.{writers_before};

use crate::leaving::{note_refused, remove_range};
use crate::phases::LogPhase;
use crate::state::State;
use crate::writer::Writer;
use model_base::Refusal;

impl State<'_> {
    ghost use Rattle.std.specs.Prelude.{false};
    ghost use Rattle.model_core.specs.Core as core;
    ghost use Rattle.model_core.specs.Step as event;
    ghost use Rattle.replay_core.specs.Shown.{plans_in};
    ghost use Rattle.replay_core.specs.Steps.{Steps};

    /// The client's group is built and may be slowed down. From here on writes are stalled.
    pub(crate) fn stall(&mut self, client: u32) -> bool
        ensures steps { Steps (λ o s. event.stall s client s.log) self.old result self.new }
        ensures unchanged { result ≡ false → self.new ≡ self.old }
        ensures plans { plans_in self.new ≡ plans_in self.old }
    {
        if !self.has_built(client) {
            return false;
        }
        if self.is_alone() {
            return false;
        }
        if self.is_no_slowdown() {
            return false;
        }
        self.log = LogPhase::Stalled;
        true
    }

    /// The client stalls writes. From here on they go on.
    pub(crate) fn unstall(&mut self, client: u32) -> bool
        ensures steps { Steps (λ o s. event.unstall s client s.log) self.old result self.new }
        ensures unchanged { result ≡ false → self.new ≡ self.old }
        ensures plans { plans_in self.new ≡ plans_in self.old }
    {
        if !self.log.is_stalled() {
            return false;
        }
        if !self.leads_hand(client) {
            return false;
        }
        self.log = LogPhase::Built;
        true
    }

    /// Writes are stalled, and the client's writer is in the queue and must not be slowed down. It leaves the queue,
    /// with this refusal.
    pub(crate) fn leave_queue(&mut self, client: u32, why: Refusal) -> bool
        ensures steps { Steps (λ o s. event.leave_queue s client why s.log) self.old result self.new }
        ensures unchanged { result ≡ false → self.new ≡ self.old }
        ensures plans { plans_in self.new ≡ plans_in self.old }
    {
        if !self.log.is_stalled() {
            return false;
        }
        let queue = self.in_second + self.in_hand;
        let ahead = writers_before(&self.linked[queue..], client);
        let place = queue + ahead;
        if place >= self.linked.len() {
            return false;
        }
        if !self.linked[place].options.no_slowdown {
            return false;
        }
        note_refused(&mut self.done, &self.linked[place..place + 1], why);
        remove_range(&mut self.linked, place, 1);
        remove_range(&mut self.items, place, 1);
        true
    }
}

/// How many writers there are before the first one of the client; all, if there is none.
fn writers_before(writers: &[Writer], client: u32) -> usize
    ensures before { result ≡ writers_before client writers.now }
    ensures few { result ≤ length writers.now }
{
    let mut before = 0usize;
    // None of the writers so far is the client's, and `before` counts them.
    for writer in writers {
        if writer.client == client {
            return before;
        }
        before += 1;
    }
    before
}
