//! Clients that write at once, each on a thread of its own. All members of a group work in parallel with their leader.

ghost use Rattle.std.specs.Prelude.{◌≡◌, ◌+◌, ◌<◌, ◌≤◌, vec_capacity, length};
ghost use Rattle.line_writers.specs.Rooms.{AreReady};
ghost use Rattle.line_writers.specs.Seats.{clients_of};
ghost use Rattle.tests_line_stages.specs.Clients.{IsPipelined, IsLeader, IsSentOn, MayWrite, HasAsked, AllMayWrite};

use super::clients::{Counted, ask};
use super::leading::{grouped, launched, note_group, right_for, sent, served};
use crate::client::StagePlayer;
use crossbeam_utils::Backoff;
use line_rule::STALL;
use line_writers::PipelinedRole;
use model_base::{Item, MAX_SIZE};
use std::sync::Wait;
use std::sync::atomic::AtomicU64;
use std::sync::atomic::Ordering::SeqCst;
use std::thread::Threads;
use std::{rt, thread};
use tests_line::{CountLog, CountReply, note, sized};

// Waits until all members have worked.
fn await_members<R: Wait + rt::Clock>(rt: &R, pending: &AtomicU64) {
    let backoff = Backoff::new();
    // `pending` is how many members have not worked yet.
    for _ in rt.forever() {
        if pending.load(SeqCst) == 0 {
            return;
        }
        backoff.snooze();
    }
    unreachable!()
}

// Serves the client's group, which was sent on, once it is the oldest. All members work in parallel with the leader.
fn serve<R: Wait + rt::Clock>(
    rt: &R,
    list: &Counted,
    client: &mut StagePlayer,
    numbers: (u64, u64),
    pending: &AtomicU64,
) -> CountReply
    requires sent { IsSentOn list.now client.old }
    requires pipelined { IsPipelined list.now }
    ensures { MayWrite list.now client.old.writer.client client.new }
{
    let mut right = right_for(rt, list, client);
    let helpers = client.members.len();
    note_group(&mut right, numbers, helpers);
    pending.store(helpers as u64, SeqCst);
    launched(list, client);
    await_members(rt, pending);
    served(list, client, right)
}

fn lead<R: Wait + rt::Clock>(
    rt: &R,
    list: &Counted,
    client: &mut StagePlayer,
    counter: CountLog,
    pending: &AtomicU64,
) -> CountReply
    requires leads { IsLeader list.now client.old.writer }
    requires ready { AreReady (clients_of list.now) client.old.lists
        × (clients_of list.now ≤ vec_capacity client.old.members) }
    requires pipelined { IsPipelined list.now }
    ensures { MayWrite list.now client.old.writer.client client.new }
{
    grouped(list, &mut client.writer, &mut client.lists);
    let numbers = sent(rt, list, client, counter);
    serve(rt, list, client, numbers, pending)
}

// Waits for its role until it is done: works in parallel with its leader, or leads, where it should.
fn finish<R: Wait + rt::Clock>(
    rt: &R,
    list: &Counted,
    client: &mut StagePlayer,
    pending: &AtomicU64,
)
    requires asked { HasAsked list.now client.old.writer.client client.old }
    requires pipelined { IsPipelined list.now }
    ensures { MayWrite list.now client.old.writer.client client.new }
{
    // The client's request is in the list, and it has done all that it was asked to do in parallel with its leader.
    for _ in rt.forever() {
        match list.await_pipelined_role(rt, &mut client.writer) {
            PipelinedRole::Done(answer) => {
                note(&mut client.told, answer);
                return;
            }
            PipelinedRole::LogLeader(counter) => {
                let answer = lead(rt, list, client, counter, pending);
                note(&mut client.told, answer);
                return;
            }
            PipelinedRole::Parallel => {
                pending.fetch_sub(1, SeqCst);
            }
            PipelinedRole::MemLeader(_) => unreachable!(),
        }
    }
    unreachable!()
}

// Writes `times` times.
fn write_often<R: Wait + rt::Clock>(
    rt: &R,
    list: &Counted,
    client: &mut StagePlayer,
    item: Item,
    times: u64,
    pending: &AtomicU64,
)
    requires out { MayWrite list.now client.old.writer.client client.old }
    requires item { item.size ≤ MAX_SIZE }
    requires pipelined { IsPipelined list.now }
    ensures { MayWrite list.now client.old.writer.client client.new }
{
    // The client is in no list, and has got the replies to its first `time` writes.
    for time in 0..times {
        ask(rt, list, &mut client.writer, item);
        finish(rt, list, client, pending);
    }
}

// All clients write `times` times at once. Their sizes are the clients' numbers.
pub(super) fn write_at_once<R: Threads + Wait + rt::Clock + Sync>(
    rt: &R,
    list: &Counted,
    clients: &mut [StagePlayer],
    times: u64,
    pending: &AtomicU64,
)
    requires out { AllMayWrite list.now clients.old × (0 < length clients.old) × (length clients.old < STALL) }
    requires pipelined { IsPipelined list.now }
    ensures { AllMayWrite list.now clients.new × (length clients.new ≡ length clients.old) }
{
    let threads = clients.len();
    let each = |i: usize, client: &mut StagePlayer|
        requires { MayWrite list.now (i + 1) client.now × (i < STALL) × IsPipelined list.now }
        ensures { MayWrite list.entry.now (i + 1) client.exit.now }
    { write_often(rt, list, client, sized(i as u64 + 1), times, pending) };
    thread::for_each_mut(rt, clients, threads, &each);
}
