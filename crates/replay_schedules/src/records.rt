//! The records of the log that the core's groups make.

ghost use Rattle.std.specs.Prelude.{◌≡◌, ◌≤◌, ◌++◌, ◌∷◌, [], length, min, take, IfOk, OnOk};
ghost use Rattle.std.specs.List.{AllByRecursion};
ghost use Rattle.model_base.specs.Batch as model;
ghost use Rattle.model_base.specs.Since as log;
ghost use Rattle.model_base.specs.History.{RunsFollow, is_logged};
ghost use Rattle.model_core.specs.Core as machine;
ghost use Rattle.log_batch.specs.Contents.{with_additions};
ghost use Rattle.replay_plans.specs.Plans.{records_of};
ghost use Rattle.replay_core.specs.Shown.{plans_in};
ghost use Rattle.replay_core.specs.Within.{IsWithinPlans};
ghost use Rattle.replay_schedules.specs.Records.{joined, logged_in, logged_shown, records_over, run_over};
ghost use Rattle.replay_schedules.specs.Replaying.{InEachShown};

use crate::history::add_lines;
use crate::maps::batch_lines;
use base_bytes::{Bytes, RecordList};
use log_batch::{Batch, Run};
use model_base::{Flag, NoMemory};
use replay_core::State;
use replay_plans::Lines;
use run_outcome::HistoryEntry;
use std::alloc::Global;

/// The records of the core's logged groups whose last sequence is `since` or a later one, but not above `at`.
pub fn records_since(
    alloc: Global,
    core: &State<'_>,
    since: u64,
    at: u64,
) -> Result<RecordList, NoMemory>
    ensures { InEachShown core.now (λ s. IfOk result
        (λ records. records ≡ log.since since at (log.records_in [] (machine.log_groups s)))) }
{
    let mut records = RecordList::new(alloc);
    let counts = core.logged();
    let mut rest = core.entries();
    // The records are those of the groups so far, and `rest` has the entries of the others.
    for count in counts {
        let (group, behind) = split_group(rest, *count);
        add_record(alloc, &mut records, core, group, since, at)?;
        rest = behind;
    }
    Ok(records)
}

/// The entries up to the last one of a logged group that has so many, and those after it. Entries that aren't logged
/// may stand between the group's own.
fn split_group(
    entries: &[HistoryEntry<Lines>],
    count: u64,
) -> (&[HistoryEntry<Lines>], &[HistoryEntry<Lines>])
    ensures whole { entries.now ≡ result.0.now ++ result.1.now }
    ensures counted { length (logged_in result.0.now) ≡ min count (length (logged_in entries.now)) }
{
    entries.split_at(end_of_group(entries, count))
}

/// How many entries there are up to the last one of such a group.
fn end_of_group(entries: &[HistoryEntry<Lines>], count: u64) -> usize
    ensures within { result ≤ length entries.now }
    ensures counted { length (logged_in (take result entries.now)) ≡ min count (length (logged_in entries.now)) }
{
    let mut end = 0usize;
    let mut found = 0u64;
    // So many of the entries so far are logged as were found.
    for entry in entries {
        if found == count {
            return end;
        }
        if goes_to_log(entry.flag) {
            found += 1;
        }
        end += 1;
    }
    end
}

fn goes_to_log(flag: Flag) -> bool
    ensures { result ≡ is_logged flag }
{
    match flag {
        Flag::Log | Flag::Sync => true,
        Flag::NoLog => false,
    }
}

/// Adds the record of a group, if its last sequence is `since` or a later one, but not above `at`.
fn add_record(
    alloc: Global,
    records: &mut RecordList,
    core: &State<'_>,
    group: &[HistoryEntry<Lines>],
    since: u64,
    at: u64,
) -> Result<(), NoMemory>
    ensures { AllByRecursion (IsWithinPlans (plans_in core.now)) group.now
        → RunsFollow (logged_shown (plans_in core.now) group.now) → OnOk result (records.new
        ≡ records.old ++ log.since since at (log.records_in [] (logged_shown (plans_in core.now) group.now ∷ []))) }
{
    let Some(run) = run_of(group) else {
        return Ok(());
    };
    if run.last < since {
        return Ok(());
    }
    if at < run.last {
        return Ok(());
    }
    let bytes = record_of(alloc, core, group, run.first)?;
    records.push(bytes)
}

/// The run of a group: from the first sequence of its first logged entry to the last one of its last. There is none, if
/// it has no such entry.
fn run_of(group: &[HistoryEntry<Lines>]) -> Option<Run>
    ensures { result ≡ run_over group.now }
{
    let mut run = None;
    // This is the run of the entries so far.
    for entry in group {
        if goes_to_log(entry.flag) {
            run = Some(join(run, entry.run));
        }
    }
    run
}

/// A run, or the run of some entries and then this one.
fn join(before: Option<Run>, run: Run) -> Run
    ensures { result ≡ joined before run }
{
    Run {
        first: match before {
            Some(before) => before.first,
            None => run.first,
        },
        last: run.last,
    }
}

/// The bytes of the record with a group's logged entries and this first sequence.
fn record_of(
    alloc: Global,
    core: &State<'_>,
    group: &[HistoryEntry<Lines>],
    first: u64,
) -> Result<Bytes, NoMemory>
    ensures { IfOk result
        (λ bytes. bytes ≡ model.batch first (records_over (plans_in core.now) group.now)) }
{
    let mut batch = Batch::new(alloc)?;
    // The batch has the records of the logged entries so far.
    for entry in group {
        if goes_to_log(entry.flag) {
            add_entry(&mut batch, core, entry)?;
        }
    }
    batch.set_sequence(first);
    Ok(Bytes::copy(alloc, batch.bytes())?)
}

/// Adds an entry's records to a batch.
fn add_entry(
    batch: &mut Batch,
    core: &State<'_>,
    entry: &HistoryEntry<Lines>,
) -> Result<(), NoMemory>
    ensures { OnOk result (batch.new
        ≡ with_additions batch.old (records_of (plans_in core.now) entry.now.client entry.now.batch)) }
{
    match batch_lines(core, entry) {
        Some(lines) => add_lines(batch, lines),
        None => Ok(()),
    }
}
