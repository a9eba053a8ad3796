//! The history of batches on the core.

ghost use Rattle.std.specs.Prelude.{◌≡◌, IfOk, OnOk};
ghost use Rattle.std.specs.List.{AllZip};
ghost use Rattle.std.specs.Option.{option_map_or};
ghost use Rattle.run_outcome.specs.Shows.{ShowsEntry};
ghost use Rattle.log_batch.specs.Contents.{Contents, with_addition, with_additions};
ghost use Rattle.run_command_list.specs.Kinds.{record_added};
ghost use Rattle.run_command_list.specs.Views.{command_of};
ghost use Rattle.replay_core.specs.Shown.{plans_in};
ghost use Rattle.replay_schedules.specs.Maps.{records_added};
ghost use Rattle.replay_schedules.specs.Replaying.{InEachShown, entry_by};

use crate::maps::batch_lines;
use log_batch::{AddError, Batch};
use model_base::NoMemory;
use replay_core::State;
use replay_plans::Lines;
use run_command_list::CommandView;
use run_outcome::HistoryEntry;
use std::alloc::Global;

/// The history of the core's entries, each with its batch.
pub fn history_of(alloc: Global, core: &State<'_>) -> Result<Vec<HistoryEntry<Batch>>, NoMemory>
    ensures { InEachShown core.now (λ s. IfOk result (λ history. AllZip ShowsEntry history.items s.entries)) }
{
    let entries = core.entries();
    let mut history = Vec::with_capacity(alloc, entries.len())?;
    // The history has the entries so far, each with its batch.
    for entry in entries {
        history.push(entry_of(alloc, core, entry)?)?;
    }
    Ok(history)
}

/// An entry of the history, with its batch.
fn entry_of(
    alloc: Global,
    core: &State<'_>,
    entry: &HistoryEntry<Lines>,
) -> Result<HistoryEntry<Batch>, NoMemory>
    ensures { IfOk result (λ shown. shown ≡ entry_by (plans_in core.now) entry.now) }
{
    let mut batch = match batch_lines(core, entry) {
        Some(lines) => batch_of(alloc, lines)?,
        None => Batch::new(alloc)?,
    };
    batch.set_sequence(entry.run.first);
    Ok(HistoryEntry {
        client: entry.client,
        ordinal: entry.ordinal,
        run: entry.run,
        flag: entry.flag,
        batch,
    })
}

/// The batch with what these lines add.
fn batch_of(alloc: Global, lines: &[CommandView<'_>]) -> Result<Batch, NoMemory>
    ensures { IfOk result (λ batch. batch.records ≡ records_added lines.now) }
{
    let mut batch = Batch::new(alloc)?;
    add_lines(&mut batch, lines)?;
    Ok(batch)
}

/// Adds to a batch what these lines add.
pub(crate) fn add_lines(batch: &mut Batch, lines: &[CommandView<'_>]) -> Result<(), NoMemory>
    ensures { OnOk result (batch.new ≡ with_additions batch.old (records_added lines.now)) }
{
    // The batch has what the lines so far add.
    for line in lines {
        add_line(batch, line)?;
    }
    Ok(())
}

/// Adds to a batch the record that a line adds, if it adds one. A batch that would be too large is answered with
/// `NoMemory`.
fn add_line(batch: &mut Batch, line: &CommandView<'_>) -> Result<(), NoMemory>
    ensures { OnOk result
        (batch.new ≡ option_map_or (with_addition batch.old) (record_added (command_of line.now)) batch.old) }
{
    let Some(view) = line.record() else {
        return Ok(());
    };
    match batch.add(view) {
        Ok(()) => Ok(()),
        Err(AddError::NoMemory | AddError::TooLarge { .. }) => Err(NoMemory),
    }
}
