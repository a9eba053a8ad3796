//! Plans whose batches aren't too large.

ghost use Rattle.std.specs.Prelude.{◌≡◌, ◌↔◌, [], true};
ghost use Rattle.std.specs.List.{AllByRecursion};
ghost use Rattle.run_command_list.specs.Views.{command_of};
ghost use Rattle.replay_plans.specs.Small.{AreSmall, IsSmallPlan, fits, size_after};

use crate::measure::line_size;
use crate::plan::ClientPlan;
use log_batch::HEADER_LEN;
use model_base::MAX_SIZE;
use run_command_list::{CommandKind, CommandView};

/// Whether no commit of these plans has a batch of more than 16 MiB, even if no commit before it is accepted. The core
/// requires this of its clients' plans.
pub fn are_small(plans: &[ClientPlan<'_>]) -> bool
    ensures { result ≡ true ↔ AllByRecursion IsSmallPlan plans.now }
{
    // The plans so far are small.
    for plan in plans {
        if !is_small(plan) {
            return false;
        }
    }
    true
}

/// Whether no commit of a plan has a batch that is too large, even if no commit before it is accepted.
fn is_small(plan: &ClientPlan<'_>) -> bool
    ensures { result ≡ true ↔ AreSmall [] plan.now }
{
    let mut size = HEADER_LEN as u64;
    // No commit so far has a batch that is too large, and `size` is the size of the batch after the lines so far.
    for place in 0..plan.len() {
        let line = plan.line(place);
        if !fits(line, size) {
            return false;
        }
        size = size_after(line, size);
    }
    true
}

/// Whether a line may come where the batch has this size. A commit may not, if the batch is too large.
fn fits(line: &CommandView<'_>, size: u64) -> bool
    ensures { result ≡ fits (command_of line.now) size }
{
    match line.kind() {
        CommandKind::Commit => size <= MAX_SIZE,
        _ => true,
    }
}

/// The size of the batch after a line.
fn size_after(line: &CommandView<'_>, size: u64) -> u64
    ensures { result ≡ size_after (command_of line.now) size }
{
    match line.kind() {
        CommandKind::Clear => HEADER_LEN as u64,
        _ => size.saturating_add(line_size(line)),
    }
}
