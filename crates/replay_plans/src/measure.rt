//! How large the batches are that lines of a plan make.

ghost use Rattle.std.specs.Prelude.{◌≡◌, ◌<◌, ◌≤◌, ◌+◌, ◌-◌, ◌^◌, length, min};
ghost use Rattle.std.specs.Option.{option_or};
ghost use Rattle.model_base.specs.Batch.{size_of_batch};
ghost use Rattle.log_batch.specs.Measures.{measure_of};
ghost use Rattle.run_command_list.specs.Kinds.{record_added};
ghost use Rattle.run_command_list.specs.Views.{command_of};
ghost use Rattle.replay_plans.specs.Small.{record_size, record_count, missing_in};
ghost use Rattle.replay_plans.specs.Plans.{added_between};

use crate::plan::{ClientPlan, Lines};
use log_batch::{HEADER_LEN, Measure, RecordView, size_with_record};
use run_command_list::CommandView;

/// Measures the batch of some lines, where there are the families with the numbers below `families`. A size above
/// `u64::MAX` is given as `u64::MAX`.
pub fn measure_batch(plan: &ClientPlan<'_>, batch: Lines, families: u32) -> Measure
    ensures { batch.from ≤ batch.to → batch.to ≤ length plan.now
        → size_of_batch (added_between batch.from batch.to plan.now) < 2 ^ 64
        → result ≡ measure_of families (added_between batch.from batch.to plan.now) }
{
    let mut measure = Measure {
        size: HEADER_LEN as u64,
        count: 0,
        missing: None,
    };
    let end = batch.to.min(plan.len());
    // The measure is that of the lines so far.
    for place in batch.from..end {
        measure = with_line(measure, plan.line(place), families);
    }
    measure
}

/// A batch's measure after the record that a line adds, if it adds one.
fn with_line(measure: Measure, line: &CommandView<'_>, families: u32) -> Measure
    ensures size { measure.size + record_size (record_added (command_of line.now)) < 2 ^ 64
        → result.size ≡ measure.size + record_size (record_added (command_of line.now)) }
    ensures count { measure.count + record_count (record_added (command_of line.now)) < 2 ^ 64
        → result.count ≡ measure.count + record_count (record_added (command_of line.now)) }
    ensures missing { result.missing
        ≡ option_or measure.missing (missing_in families (record_added (command_of line.now))) }
{
    Measure {
        size: measure.size.saturating_add(line_size(line)),
        count: measure.count.saturating_add(line_count(line)),
        missing: measure.missing.or(line_missing(line, families)),
    }
}

/// How many bytes the record that a line adds has. A size above `u64::MAX` is given as `u64::MAX`.
pub(crate) fn line_size(line: &CommandView<'_>) -> u64
    ensures { result ≡ min (record_size (record_added (command_of line.now))) (2 ^ 64 - 1) }
{
    match line.record() {
        Some(view) => size_with_record(0, view),
        None => 0,
    }
}

/// How many sequences the record that a line adds takes.
fn line_count(line: &CommandView<'_>) -> u64
    ensures { result ≡ record_count (record_added (command_of line.now)) }
{
    match line.record() {
        Some(
            RecordView::Value { .. }
            | RecordView::Deletion { .. }
            | RecordView::SingleDeletion { .. },
        ) => 1,
        Some(RecordView::LogData { .. }) | None => 0,
    }
}

/// The family of the record that a line adds, if there isn't that family.
fn line_missing(line: &CommandView<'_>, families: u32) -> Option<u32>
    ensures { result ≡ missing_in families (record_added (command_of line.now)) }
{
    let family = line.record()?.key_family()?;
    (family >= families).then_some(family)
}
