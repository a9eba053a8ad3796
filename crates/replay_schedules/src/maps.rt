//! The maps that entries of the history make.

ghost use Rattle.std.specs.Prelude.{◌≡◌, [], IfOk, OnOk};
ghost use Rattle.std.specs.Option.{option_map_or};
ghost use Rattle.model_base.specs.Map.{after_records};
ghost use Rattle.model_core.specs.Core as core;
ghost use Rattle.model_core.specs.CoreLaw.{IsCore};
ghost use Rattle.run_command_list.specs.Views.{command_of};
ghost use Rattle.replay_plans.specs.Plans.{between, records_of};
ghost use Rattle.replay_core.specs.Shown.{plans_in};
ghost use Rattle.replay_core.specs.Shows.{Shows};
ghost use Rattle.replay_schedules.specs.Maps.{records_added, after_entries, after_line, map_up_to};

use crate::reading::MapUpTo;
use base_maps::FamilyMap;
use log_effects::write_record;
use model_base::NoMemory;
use replay_core::State;
use replay_plans::Lines;
use run_command_list::CommandView;
use run_outcome::HistoryEntry;
use std::alloc::Global;

/// The map at the sequence that was published last.
pub fn map(state: &State<'_>, alloc: Global) -> Result<FamilyMap, NoMemory>
    ensures { (o : core.Options) (s : core.State) → IsCore o s → Shows state.now o s
        → IfOk result (λ m. m ≡ core.published_map s) }
{
    map_at(state, alloc, state.last())
}

/// The map after the entries whose runs end at a sequence or before, as a read at that sequence sees it.
pub fn map_at(state: &State<'_>, alloc: Global, at: u64) -> Result<FamilyMap, NoMemory>
    ensures { (o : core.Options) (s : core.State) → IsCore o s → Shows state.now o s
        → IfOk result (λ m. m ≡ map_up_to at s.entries) }
{
    let mut read = MapUpTo::new(alloc);
    read.move_to(state, at)?;
    Ok(read.into_map())
}

/// Writes entries into a map, in order.
pub(crate) fn write_entries(
    map: &mut FamilyMap,
    state: &State<'_>,
    entries: &[HistoryEntry<Lines>],
) -> Result<(), NoMemory>
    ensures { OnOk result (map.new ≡ after_entries (plans_in state.now) map.old entries.now) }
{
    // The map is that after the entries so far.
    for entry in entries {
        write_entry(map, state, entry)?;
    }
    Ok(())
}

/// Writes the records of an entry into a map.
fn write_entry(
    map: &mut FamilyMap,
    state: &State<'_>,
    entry: &HistoryEntry<Lines>,
) -> Result<(), NoMemory>
    ensures { OnOk result
        (map.new ≡ after_records map.old (records_of (plans_in state.now) entry.now.client entry.now.batch)) }
{
    match batch_lines(state, entry) {
        Some(lines) => write_lines(map, lines),
        None => Ok(()),
    }
}

/// The commands of a client's plan that make an entry's batch, if there is such a client. What they add are the
/// batch's records.
pub fn batch_lines<'a, 'b>(
    state: &'a State<'b>,
    entry: &HistoryEntry<Lines>,
) -> Option<&'a [CommandView<'b>]>
    ensures { option_map_or (λ lines. records_added lines.now) result []
        ≡ records_of (plans_in state.now) entry.now.client entry.now.batch }
{
    let place = (entry.client as usize).checked_sub(1)?;
    let plan = state.plans().get(place)?;
    Some(lines_between(plan.lines(), entry.batch))
}

/// The commands from one place on and before another, as far as there are any.
fn lines_between<'a, 'b>(lines: &'a [CommandView<'b>], batch: Lines) -> &'a [CommandView<'b>]
    ensures { result.now ≡ between batch.from batch.to lines.now }
{
    let to = batch.to.min(lines.len());
    if batch.from < to {
        &lines[batch.from..to]
    } else {
        &[]
    }
}

/// Writes the records that commands add into a map.
fn write_lines(map: &mut FamilyMap, lines: &[CommandView<'_>]) -> Result<(), NoMemory>
    ensures { OnOk result (map.new ≡ after_records map.old (records_added lines.now)) }
{
    // The map has the records that the lines so far add.
    for line in lines {
        write_line(map, line)?;
    }
    Ok(())
}

/// Applies to a map the record that a command adds, if it adds one.
fn write_line(map: &mut FamilyMap, line: &CommandView<'_>) -> Result<(), NoMemory>
    ensures { OnOk result (map.new ≡ after_line map.old (command_of line.now)) }
{
    match line.record() {
        Some(view) => write_record(map, view),
        None => Ok(()),
    }
}
