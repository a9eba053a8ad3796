//! The events of clients: `link`, `complete` and `read`.

ghost use Rattle.std.specs.Prelude.{◌≡◌, false, None, Some, [], slice_get};
ghost use Rattle.std.specs.Option.{option_map_or};
ghost use Rattle.model_base.specs.Progress.{first_missing};
ghost use Rattle.replay_plans.specs.Ahead.{read_families};
ghost use Rattle.model_core.specs.Core as core;
ghost use Rattle.replay_core.specs.Replies.{reply_at};

use crate::leaving::{done_of, set_done};
use crate::room::push_both;
use crate::seats::{answer, next_call, settle, wait};
use crate::state::State;
use crate::writer::{CoreReply, Writer};
use log_batch::{HEADER_LEN, refusal_at_once};
use model_base::{Item, Refusal, WriteOptions};
use replay_plans::{
    Ahead, ClientPlan, Lines, commit_at, is_read, measure_batch, missing_family, updates_at,
};

impl State<'_> {
    ghost use Rattle.std.specs.Prelude.{find, ◌==◌, ◌+◌, ◌<◌, true, vec_len};
    ghost use Rattle.std.specs.Option.{option_and_then};
    ghost use Rattle.replay_plans.specs.declared.plan.ClientPlan.{ClientPlan};
    ghost use Rattle.replay_plans.specs.Ahead.{IsAhead, commit_of};
    ghost use Rattle.replay_core.specs.declared.state.Seat.{Seat};
    ghost use Rattle.replay_core.specs.Mirrors.{Mirrors, MirrorsStep};
    ghost use Rattle.model_core.specs.Core as core;
    ghost use Rattle.model_core.specs.Step as event;
    ghost use Rattle.replay_core.specs.Shown.{plans_in};
    ghost use Rattle.replay_core.specs.Steps.{Steps};

    /// The client is idle, and its next call is a commit or a read of the log. A commit is refused at once, or its
    /// batch goes to the end of the queue, as a read of the log does. While writes are stalled a commit can only be
    /// refused, as one is then that must not be slowed down, and a read can't come.
    pub(crate) fn link(&mut self, client: u32) -> bool
        ensures steps { Steps (λ o s. event.link o s client (core.client_at s client)) self.old result self.new }
        ensures unchanged { result ≡ false → self.new ≡ self.old }
        ensures plans { plans_in self.new ≡ plans_in self.old }
    {
        let Some(place) = self.place_of(client) else {
            return false;
        };
        let Some(ahead) = next_call(&self.plans[place], &self.seats[place]) else {
            return false;
        };
        let Some(options) = commit_at(&self.plans[place], ahead.call) else {
            return self.link_read(client, place, ahead);
        };
        let batch = Lines {
            from: ahead.from,
            to: ahead.call,
        };
        let families = self.options.families;
        let measured = measure_batch(&self.plans[place], batch, families);
        let early = refusal_at_once(measured, options, self.options.batch_bytes, false);
        let refusal = self.log.refusal_in(options, early);
        if !self.log.may_link(refusal) {
            return false;
        }
        match refusal {
            Some(why) => answer(&mut self.seats[place], ahead, CoreReply::Refused { why }),
            None => {
                wait(&mut self.seats[place], ahead);
                push_both(
                    &mut self.linked,
                    &mut self.items,
                    new_writer(client, options, batch, measured.count),
                    item_of(options, measured.size, false),
                );
            }
        }
        true
    }

    /// The client is idle, and its next call is at this line, which is no commit. If it is a read of the log, that goes
    /// to the end of the queue, with an empty batch. While writes are stalled it can't come.
    fn link_read(&mut self, client: u32, place: usize, ahead: Ahead) -> bool
        requires number { client ≡ place + 1 }
        requires known { place < vec_len self.old.plans }
        ensures steps { (o : core.Options) (s : core.State) (found : core.Client) (plan : ClientPlan) (seat : Seat)
            → Mirrors o self.old s → core.client_at s client ≡ Some found → found.idle ≡ true
            → slice_get (plans_in self.old) place ≡ Some plan → slice_get self.old.seats.items place ≡ Some seat
            → IsAhead plan seat.next ahead found.calls found (core.next_call found)
            → option_and_then commit_of (slice_get plan ahead.call) ≡ None
            → MirrorsStep (event.link o s client (Some found)) o s result self.new }
        ensures unchanged { result ≡ false → self.new ≡ self.old }
        ensures plans { plans_in self.new ≡ plans_in self.old }
    {
        let Some(since) = updates_at(&self.plans[place], ahead.call) else {
            return false;
        };
        if !self.log.may_link(None) {
            return false;
        }
        let none = Lines {
            from: ahead.call,
            to: ahead.call,
        };
        wait(&mut self.seats[place], ahead);
        push_both(
            &mut self.linked,
            &mut self.items,
            new_reader(client, since, none),
            item_of(PLAIN, HEADER_LEN as u64, true),
        );
        true
    }

    /// The client's writer has left with its answer. The client gets it as its reply, and is idle again. After an
    /// accepted commit its batch is empty.
    pub(crate) fn complete(&mut self, client: u32) -> bool
        ensures steps { Steps (λ o s. event.complete s client
            (find (λ (w : core.Writer). w.client == client) s.leaving))
            self.old result self.new }
        ensures unchanged { result ≡ false → self.new ≡ self.old }
        ensures plans { plans_in self.new ≡ plans_in self.old }
    {
        let Some(place) = self.place_of(client) else {
            return false;
        };
        let Some(writer) = done_of(&self.done, client) else {
            return false;
        };
        let Some(answer) = writer.answer else {
            return false;
        };
        set_done(&mut self.done, client, None);
        settle(&mut self.seats[place], answer);
        true
    }

    /// The client is idle, and its next call is a read. It is answered at the published sequence, or refused, where it
    /// names a family that there isn't.
    pub(crate) fn read(&mut self, client: u32) -> bool
        ensures steps { Steps (λ o s. event.read o s client (core.client_at s client)) self.old result self.new }
        ensures unchanged { result ≡ false → self.new ≡ self.old }
        ensures plans { plans_in self.new ≡ plans_in self.old }
    {
        let Some(place) = self.place_of(client) else {
            return false;
        };
        let Some(ahead) = next_call(&self.plans[place], &self.seats[place]) else {
            return false;
        };
        if !is_read(&self.plans[place], ahead.call) {
            return false;
        }
        let families = self.options.families;
        let reply = read_reply(&self.plans[place], ahead.call, families, self.last);
        answer(&mut self.seats[place], ahead, reply);
        true
    }
}

/// The reply to the read at a line of a plan, at this published sequence.
fn read_reply(plan: &ClientPlan<'_>, line: usize, families: u32, last: u64) -> CoreReply
    ensures { result ≡ reply_at last (first_missing families
        (option_map_or read_families (slice_get plan.now line) [])) }
{
    match missing_family(plan, line, families) {
        Some(family) => CoreReply::Refused {
            why: Refusal::NoFamily { family },
        },
        None => CoreReply::ReadAt { at: last },
    }
}

/// A read of the log waits like a write that may wait.
const PLAIN: WriteOptions = WriteOptions {
    sync: false,
    no_log: false,
    no_slowdown: false,
};

/// A writer without an answer.
fn new_writer(client: u32, options: WriteOptions, batch: Lines, count: u64) -> Writer
    ensures { result ≡ record {
      client = client;
      options = options;
      batch = batch;
      count = count;
      since = None;
      answer = None;
    } }
{
    Writer {
        client,
        options,
        batch,
        count,
        since: None,
        answer: None,
    }
}

/// A writer that reads the log, without an answer.
fn new_reader(client: u32, since: u64, batch: Lines) -> Writer
    ensures { result ≡ record {
      client = client;
      options = core.plain_options;
      batch = batch;
      count = 0;
      since = Some since;
      answer = None;
    } }
{
    Writer {
        client,
        options: PLAIN,
        batch,
        count: 0,
        since: Some(since),
        answer: None,
    }
}

/// What grouping sees of a writer.
fn item_of(options: WriteOptions, size: u64, alone: bool) -> Item
    ensures { result ≡ record { size = size; options = options; alone = alone } }
{
    Item {
        size,
        options,
        alone,
    }
}
