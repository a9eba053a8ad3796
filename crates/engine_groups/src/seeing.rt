//! What a client waits for once it has its answer.

ghost use Rattle.std.specs.Prelude.{◌≡◌, true, ◌≤◌, IfOk, IfSome};
ghost use mathlib.Core.List.{IsPrefix};
ghost use Rattle.table_rule.specs.Histories.{Begins, last_of};
ghost use Rattle.model_base.specs.Tokens.{shown_by_tokens};
ghost use Rattle.engine_controller.specs.Passes.{seen_by, seen_by_note, GoesOn, IsNoteOf};
ghost use Rattle.engine_groups.specs.Clients.{IsClientOf};
ghost use Rattle.engine_parts.specs.Runs.{IsAbove};

use crate::engine::{EngineClient, GroupEngine};
use base_devices::Clock;
use base_waiting::Pauses;
use engine_calls::{Gate, Receipt, Refused};
use engine_controller::Note;
use log_writer::GroupLog;
use model_base::Refusal;
use std::rt;
use std::sync::Wait;
use table_calls::Table;
use table_nodes::{Nodes, Parts};

/// Waits until an answer speaks of sequences above `shown`. Up to `shown` the client had seen what is published when
/// it made the call, or others had who took tokens or gave them back before the group's leader decided.
///
/// It never waits: runs are given one after the other, and what is published got its runs before. But where groups go
/// into the table in a stage of their own, no rule speaks of the log and of the table at the same moment, so it isn't
/// proved that an answer is above `shown`. If an answer weren't, the call wouldn't return, and no client would get
/// that answer.
pub(crate) fn await_above<R: Wait + rt::Clock>(
    rt: &R,
    pauses: &Pauses<'_>,
    shown: u64,
    answer: &Result<Receipt, Refused>,
)
    ensures { IsAbove shown answer.now }
{
    // A pause changes neither `shown` nor the answer.
    for _ in rt.forever() {
        if is_above(shown, answer) {
            return;
        }
        pauses.retry(rt);
    }
    unreachable!()
}

/// Whether an answer's run is above a sequence, or, where no sequences were left for it, the sequence after which
/// there was no room isn't below it. It is true of any other refusal.
fn is_above(shown: u64, answer: &Result<Receipt, Refused>) -> bool
    ensures { result ≡ true → IsAbove shown answer.now }
{
    match answer {
        Ok(receipt) => shown < receipt.run.first,
        Err(refused) => match refused.why {
            Refusal::SequenceFull { last } => shown <= last,
            _ => true,
        },
    }
}

impl<
    Log: GroupLog,
    Versions: Table<Nodes, Parts>,
    Time: Clock + Drop,
    Watch: Gate + Drop,
> GroupEngine<Log, Versions, Time, Watch> {
    /// Up to which sequence, at most, clients had been shown what is published as they took tokens or gave them back,
    /// by the calls that an answer's note shows; 0 where it has none.
    pub(crate) fn shown_by(&self, note: &Option<Note>) -> u64
        ensures { IfSome note.now (λ n. result ≡ shown_by_tokens (seen_by_note n)) }
    {
        match note {
            Some(note) => self.controller.shown_by(note),
            None => 0,
        }
    }

    /// Lets the client see what its answer speaks of: its published group, and the delay of that group, or the leader's
    /// look because of which it was refused.
    pub(crate) fn see<R: Wait + rt::Clock>(
        &self,
        rt: &R,
        client: &mut EngineClient<Log, Versions, Time>,
        answer: &Result<Receipt, Refused>,
        note: Option<Note>,
    )
        requires client { IsClientOf Versions.Table self.now client.old }
        requires note { IfSome note (IsNoteOf self.now.controller) }
        ensures fits { IsClientOf Versions.Table self.now client.new }
        ensures same { (client.new.number ≡ client.old.number) × (client.new.start ≡ client.old.start)
            × (client.new.writer ≡ client.old.writer) × (client.new.table ≡ client.old.table) }
        ensures seen { Begins (Versions.account client.old.seat).seen (Versions.account client.new.seat).seen
            × GoesOn client.old.number (seen_by client.old.pass) (seen_by client.new.pass) }
        ensures published { IfOk answer.now (λ r. r.group_last
            ≤ last_of (Versions.opening self.now.table).start (Versions.account client.new.seat).seen) }
        ensures noted { IfSome note (λ n. IsPrefix (seen_by_note n) (seen_by client.new.pass)) }
    {
        self.await_answer(rt, client, answer);
        if let Some(note) = note {
            self.controller.learn(rt, &mut client.pass, note);
        }
    }

    /// Waits until the client has seen its group published, if its batch was accepted.
    fn await_answer<R: Wait + rt::Clock>(
        &self,
        rt: &R,
        client: &mut EngineClient<Log, Versions, Time>,
        answer: &Result<Receipt, Refused>,
    )
        requires { IsClientOf Versions.Table self.now client.old }
        ensures fits { IsClientOf Versions.Table self.now client.new }
        ensures same { (client.new.number ≡ client.old.number) × (client.new.start ≡ client.old.start)
            × (client.new.writer ≡ client.old.writer) × (client.new.pass ≡ client.old.pass)
            × (client.new.table ≡ client.old.table) }
        ensures seen { Begins (Versions.account client.old.seat).seen (Versions.account client.new.seat).seen }
        ensures published { IfOk answer.now (λ r. r.group_last
            ≤ last_of (Versions.opening self.now.table).start (Versions.account client.new.seat).seen) }
    {
        if let Ok(receipt) = answer {
            self.await_seen(rt, client, receipt.group_last);
        }
    }

    /// Waits until the client has seen what is published up to a sequence.
    fn await_seen<R: Wait + rt::Clock>(
        &self,
        rt: &R,
        client: &mut EngineClient<Log, Versions, Time>,
        last: u64,
    )
        requires { IsClientOf Versions.Table self.now client.old }
        ensures fits { IsClientOf Versions.Table self.now client.new }
        ensures same { (client.new.number ≡ client.old.number) × (client.new.start ≡ client.old.start)
            × (client.new.writer ≡ client.old.writer) × (client.new.pass ≡ client.old.pass)
            × (client.new.table ≡ client.old.table) }
        ensures seen { Begins (Versions.account client.old.seat).seen (Versions.account client.new.seat).seen }
        ensures reached { last ≤ last_of (Versions.opening self.now.table).start
            (Versions.account client.new.seat).seen }
    {
        self.table.await_seen(rt, &mut client.seat, last);
    }
}
