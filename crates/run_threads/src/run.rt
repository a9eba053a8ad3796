//! The whole run.

ghost use Rattle.std.specs.Prelude.{◌≡◌, ◌^◌, ◌<◌, ℕ, List, Option, length, map, IfOk, IfSome};
ghost use Rattle.model_base.specs.History as model;
ghost use Rattle.model_base.specs.Recovery.{Logged};
ghost use Rattle.model_base.specs.Settings.{with_kept};
ghost use Rattle.model_accounts.specs.Closing.{AreOurs};
ghost use Rattle.run_threads.specs.Answers.{accepted_in, ShowsEntries};
ghost use Rattle.run_threads.specs.Jobs.{FitBatches, AreNew};
ghost use Rattle.run_threads.specs.Histories.{MakeUp};
ghost use Rattle.run_threads.specs.Runs.{ComesTo};

use crate::batches::ClientBatches;
use crate::clients::run_clients;
use crate::history::{history_of, lists_of};
use crate::state::state_of;
use base_maps::FamilyMap;
use engine_calls::{Clients, Closed, Engine, Gate};
use model_accounts::closed_runs_are_legal;
use model_base::NoMemory;
use run_command_list::CommandList;
use run_outcome::{History, Reply};
use std::alloc::Global;
use std::rt;
use std::sync::Wait;
use std::thread::Threads;

/// What a run of clients over a write path leaves: the log, and the values of the outcome.
pub enum ClientsEnd<L> {
    /// There was no memory for the run. No client has called anything.
    NotRun {
        log: L,
    },
    /// All clients have run, but there was no memory to put together the outcome. `last` is the last published
    /// sequence.
    Untold {
        log: L,
        last: u64,
    },
    /// All clients have run: the last published sequence, the replies of each client, the accepted batches in order of
    /// their sequences, and the map after them.
    Told {
        log: L,
        last: u64,
        transcripts: Vec<Vec<Reply>>,
        history: History,
        state: FamilyMap,
    },
}

/// Runs a script's clients over a write path, closes it, and puts together the outcome. The map from before the run is
/// handed in.
///
/// The write path is closed also where there is no memory.
pub fn run_engine<E: Engine + Sync, G: Gate + Sync, R: Threads + Wait + rt::Clock + Sync>(
    rt: &R,
    alloc: Global,
    engine: E,
    clients: Clients<E::Client, E::Room>,
    opening: FamilyMap,
    script: &[CommandList],
    gate: &G,
) -> ClientsEnd<E::Log>
where
    E::Client: Send,
    requires ours { AreOurs (E.belongs engine) E.account (E.settings engine).clients clients.clients.items }
    requires new { AreNew E.account (E.settings engine).start (E.settings engine).opening clients.clients.items }
    requires opening { opening ≡ (E.settings engine).opening }
    requires script { length script.now ≡ (E.settings engine).clients }
    requires few { length script.now < 2 ^ 32 }
    requires fits { FitBatches script.now }
    requires room { E.closes engine clients.room }
    // Where memory was short for the outcome itself, the replies that the clients had are still those of a legal
    // outcome, and the log is its log.
    // It is said for whatever the log had kept before, where that is known.
    ensures { (kept : Option (List Logged)) → IfSome kept (E.had engine)
        → ComesTo (with_kept kept (E.settings engine)) script.now (E.wrote engine) E.fault E.faults result }
{
    let Clients { mut clients, room } = clients;
    let ran = run_clients(rt, alloc, &engine, &mut clients, script, gate);
    closed_runs_are_legal();
    let Closed { log, last } = engine.close(rt, Clients { clients, room });
    let Ok((transcripts, batches)) = ran else {
        return ClientsEnd::NotRun { log };
    };
    let Ok((history, state)) = history_and_map(alloc, opening, batches) else {
        return ClientsEnd::Untold { log, last };
    };
    ClientsEnd::Told {
        log,
        last,
        transcripts,
        history,
        state,
    }
}

/// The history of all clients' batches, and the map that it makes of the map from before it.
fn history_and_map(
    alloc: Global,
    opening: FamilyMap,
    batches: Vec<ClientBatches>,
) -> Result<(History, FamilyMap), NoMemory>
    requires { length batches.items < 2 ^ 32 }
    ensures history { (start : ℕ) (entries : List model.Entry) → MakeUp start (map accepted_in batches.items) entries
        → IfOk result (λ made. ShowsEntries made.0 entries) }
    ensures state { (start : ℕ) (entries : List model.Entry) → MakeUp start (map accepted_in batches.items) entries
        → IfOk result (λ made. made.1 ≡ model.map_over opening entries) }
{
    let lists = lists_of(alloc, batches)?;
    let history = history_of(alloc, lists)?;
    let state = state_of(opening, &history)?;
    Ok((history, state))
}
