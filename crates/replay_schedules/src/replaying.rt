//! A schedule of events, run on the write path's core.

ghost use Rattle.std.specs.Prelude.{◌≡◌, ◌≤◌, ◌-◌, ◌^◌, length, IfOk};
ghost use Rattle.run_scripts.specs.Schedules.{schedule_of};
ghost use Rattle.run_scripts.specs.Scripts.{FitsBatches, HasClientsCommands};
ghost use Rattle.replay_schedules.specs.Replayed.{ShowsReplayed, replayed_of};

use crate::history::history_of;
use crate::maps::map;
use crate::plans::plans_of;
use crate::replies::transcripts_of;
use base_maps::FamilyMap;
use log_batch::Batch;
use model_base::{MAX_CLIENTS, NoMemory};
use replay_core::{CoreOptions, Counts, State, replay};
use run_outcome::{HistoryEntry, Reply};
use run_scripts::Schedule;
use std::alloc::Global;

/// The result of a schedule.
#[derive(Drop)]
pub struct Replayed {
    /// How many of its events came, and how many could not come at their places.
    pub counts: Counts,
    /// The replies that each client got to its commits and reads so far, in order of the clients' numbers.
    pub transcripts: Vec<Vec<Reply>>,
    /// The batches that were given runs, in order of their sequences.
    pub history: Vec<HistoryEntry<Batch>>,
    /// The published sequence; `map` is the map at it.
    pub last: u64,
    pub map: FamilyMap,
    /// How many groups were logged.
    pub groups: u64,
}

/// Runs a schedule on the core of its script's clients, of which there are 1 to 64. Their commands are those that a
/// script may have, and all that each client adds fits one batch of 16 MiB.
pub fn replay_schedule(
    alloc: Global,
    schedule: Schedule,
    options: CoreOptions,
) -> Result<Replayed, NoMemory>
    requires some { 1 ≤ length schedule.script.clients.items }
    requires few { length schedule.script.clients.items ≤ MAX_CLIENTS }
    requires fits { FitsBatches schedule.script }
    requires commands { HasClientsCommands schedule.script }
    requires last { options.last ≤ 2 ^ 56 - 1 }
    // It is said of both kinds of core: in a single stage and pipelined.
    ensures { IfOk result (λ shown. ShowsReplayed shown (replayed_of options (schedule_of schedule))) }
{
    let Schedule { script, events } = schedule;
    let plans = plans_of(alloc, &script)?;
    let mut core = State::new(alloc, plans, options)?;
    let counts = replay(&mut core, &events);
    Ok(Replayed {
        counts,
        transcripts: transcripts_of(alloc, &core)?,
        history: history_of(alloc, &core)?,
        last: core.last(),
        map: map(&core, alloc)?,
        groups: core.logged().len() as u64,
    })
}
