//! All clients, each in a thread of its own.

ghost use Rattle.std.specs.Prelude.{◌≡◌, ◌+◌, ◌<◌, ◌≤◌, ◌^◌, length, map, IfOk, OnErr};
ghost use Rattle.std.specs.List.{AllByRecursion};
ghost use Rattle.model_accounts.specs.Closing.{AreOurs};
ghost use Rattle.run_threads.specs.Jobs.{FitBatches, AreNew, HaveReplied, HaveEntries};
ghost use Rattle.run_threads.specs.Jobs.{AreNone, IsRoom, IsReady, IsDone, AreReady, AreDone};

use crate::batches::{ClientBatches, CurrentBatch};
use crate::client::run_client;
use crate::jobs::{Job, empty, fill};
use engine_calls::{Engine, Gate};
use model_base::NoMemory;
use run_batches::BatchList;
use run_command_list::CommandList;
use run_outcome::Reply;
use std::alloc::Global;
use std::sync::Wait;
use std::thread::Threads;
use std::{rt, thread};

/// How many bytes of room a client's list has at first for each of its commits: a batch's header and its flag take 13,
/// and the rest is for a short record. A list with longer records grows.
const BYTES_A_COMMIT: usize = 32;

/// Runs the commands of all clients, each client's in a thread of its own, or in the caller's where none can be made.
/// The replies and the batches are in order of the clients' numbers.
///
/// A client that finds no memory stops there. If there is no memory for the run itself, that is returned before any
/// call, with the clients as they were.
pub fn run_clients<E: Engine + Sync, G: Gate + Sync, R: Threads + Wait + rt::Clock + Sync>(
    rt: &R,
    alloc: Global,
    engine: &E,
    clients: &mut Vec<E::Client>,
    script: &[CommandList],
    gate: &G,
) -> Result<(Vec<Vec<Reply>>, Vec<ClientBatches>), NoMemory>
where
    E::Client: Send,
    requires ours { AreOurs (E.belongs engine.now) E.account (E.settings engine.now).clients clients.old.items }
    requires new { AreNew E.account (E.settings engine.now).start (E.settings engine.now).opening clients.old.items }
    requires script { length script.now ≡ (E.settings engine.now).clients }
    requires few { length script.now < 2 ^ 32 }
    requires fits { FitBatches script.now }
    ensures ours { AreOurs (E.belongs engine.now) E.account (E.settings engine.now).clients clients.new.items }
    // Of each client the replies are a transcript of its commands in each trace of which it may have seen what it has
    // seen.
    ensures run { IfOk result (λ told. HaveReplied (E.settings engine.now) script.now told.0.items
        (map E.account clients.new.items)) }
    ensures accepted { IfOk result (λ told. HaveEntries told.1.items (map E.account clients.new.items)) }
    // Nobody has called anything then.
    ensures err { OnErr result (clients.new ≡ clients.old) }
{
    let mut replies = room_for(alloc, script)?;
    let mut batches = batches_for(alloc, script)?;
    let mut jobs = Vec::with_capacity(alloc, script.len())?;
    fill(clients, &mut replies, &mut batches, &mut jobs);
    work_all(rt, alloc, engine, gate, script, jobs.as_mut_slice());
    empty(&mut jobs, clients, &mut replies, &mut batches);
    jobs.destroy_empty();
    Ok((replies, batches))
}

/// For each client, room for one reply to each of its commands.
fn room_for(alloc: Global, script: &[CommandList]) -> Result<Vec<Vec<Reply>>, NoMemory>
    ensures { IfOk result (λ room. IsRoom script.now room.items) }
{
    let mut all = Vec::new(alloc);
    // Each client so far has room for a reply to each of its commands.
    for commands in script {
        all.push(Vec::with_capacity(alloc, commands.len())?)?;
    }
    Ok(all)
}

/// For each client an empty list of batches, with room for those of its commits. A list that grew during the run would
/// lie between the memory that calls ask for, and would cut what is left of the memory into pieces.
fn batches_for(alloc: Global, script: &[CommandList]) -> Result<Vec<ClientBatches>, NoMemory>
    ensures count { IfOk result (λ all. length all.items ≡ length script.now) }
    ensures none { IfOk result (λ all. AllByRecursion AreNone all.items) }
{
    let mut all = Vec::new(alloc);
    // Each client so far has no batch.
    for commands in script {
        let commits = commands.commit_count();
        let bytes = commits.checked_mul(BYTES_A_COMMIT).ok_or(NoMemory)?;
        let mut list = BatchList::new(alloc);
        list.reserve(commits, bytes)?;
        all.push(ClientBatches {
            list,
            current: CurrentBatch::Nothing,
        })?;
    }
    Ok(all)
}

/// Runs each client in a thread of its own.
fn work_all<E: Engine + Sync, G: Gate + Sync, R: Threads + Wait + rt::Clock + Sync>(
    rt: &R,
    alloc: Global,
    engine: &E,
    gate: &G,
    script: &[CommandList],
    jobs: &mut [Job<E::Client>],
)
where
    E::Client: Send,
    requires { AreReady (E.belongs engine.now) E.account (E.settings engine.now) script.now jobs.old }
    ensures { AreDone (E.belongs engine.now) E.account (E.settings engine.now) script.now jobs.new }
{
    let threads = jobs.len();
    if threads == 0 {
        return;
    }
    let each = |i: usize, job: &mut Job<E::Client>|
        requires { IsReady (E.belongs engine.now) E.account (E.settings engine.now) script.now i job.now }
        ensures { IsDone (E.belongs engine.entry.now) E.account (E.settings engine.entry.now) script.entry.now i
            job.exit.now }
    { work(rt, alloc, engine, gate, script, i, job) };
    thread::for_each_mut(rt, jobs, threads, &each);
}

/// Runs one client.
fn work<E: Engine, G: Gate, R: Wait + rt::Clock>(
    rt: &R,
    alloc: Global,
    engine: &E,
    gate: &G,
    script: &[CommandList],
    i: usize,
    job: &mut Job<E::Client>,
)
    requires { IsReady (E.belongs engine.now) E.account (E.settings engine.now) script.now i job.old }
    ensures { IsDone (E.belongs engine.now) E.account (E.settings engine.now) script.now i job.new }
{
    run_client(
        rt,
        alloc,
        engine,
        gate,
        &mut job.client,
        i as u32 + 1,
        &script[i],
        &mut job.replies,
        &mut job.batches,
    );
}
