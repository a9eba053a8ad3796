//! Finds a client's next call: a commit, a read of the map or of the log, or a command about a token.

ghost use Rattle.std.specs.Prelude.{◌≡◌, ◌≤◌, ◌+◌, ◌-◌, ◌∷◌, [], false, List, length, drop, slice_get};
ghost use Rattle.std.specs.Option.{option_map_or, option_and_then};
ghost use Rattle.model_base.specs.Calls.{Call};
ghost use Rattle.model_core.specs.Core as core;
ghost use Rattle.model_base.specs.Progress.{first_missing};
ghost use Rattle.replay_plans.specs.Ahead.{IsAhead, is_read, read_families, commit_of, updates_of};
ghost use Rattle.replay_plans.specs.Plans.{added_between};

use crate::plan::ClientPlan;
use model_base::WriteOptions;
use run_command_list::{CommandKind, CommandView};

/// The line of a client's next call (a commit, a read, or a command about a token), or the plan's length where there
/// is none; and the line at which its batch begins by then.
#[derive(Clone, Copy, Debug)]
pub struct Ahead {
    pub call: usize,
    /// The line after the call, or the plan's length where there is no call.
    pub next: usize,
    pub from: usize,
}

/// Looks for a client's next call, from the line `at` on, where its batch begins at the line `from`. Lines that add to
/// the batch or empty it are passed over.
pub fn look_ahead(plan: &ClientPlan<'_>, at: usize, from: usize) -> Ahead
    ensures { (calls : List Call) (client : core.Client) → from ≤ at → at ≤ length plan.now
        → IsAhead plan.now at result calls client (core.ahead calls (added_between from at plan.now)
        (drop at plan.now) client) }
{
    let end = plan.len();
    let mut begin = from;
    // The lines so far only add to the batch, which begins at `begin`, or empty it.
    for place in at..end {
        match plan.line(place).kind() {
            CommandKind::Addition => {}
            CommandKind::Clear => begin = place + 1,
            CommandKind::Commit | CommandKind::Read | CommandKind::Token => {
                return Ahead {
                    call: place,
                    next: place + 1,
                    from: begin,
                };
            }
        }
    }
    Ahead {
        call: end,
        next: end,
        from: begin,
    }
}

/// The options of the commit at a line, if the line is a commit.
pub fn commit_at(plan: &ClientPlan<'_>, line: usize) -> Option<WriteOptions>
    ensures { result ≡ option_and_then commit_of (slice_get plan.now line) }
{
    if line >= plan.len() {
        return None;
    }
    match plan.line(line) {
        CommandView::Commit { options } => Some(*options),
        _ => None,
    }
}

/// Whether a line is a read of the map.
pub fn is_read(plan: &ClientPlan<'_>, line: usize) -> bool
    ensures { result ≡ option_map_or is_read (slice_get plan.now line) false }
{
    line < plan.len()
        && matches!(
            plan.line(line),
            CommandView::Get { .. } | CommandView::Many { .. } | CommandView::Scan { .. }
        )
}

/// The sequence from which on a line reads the log, if it does.
pub fn updates_at(plan: &ClientPlan<'_>, line: usize) -> Option<u64>
    ensures { result ≡ option_and_then updates_of (slice_get plan.now line) }
{
    if line >= plan.len() {
        return None;
    }
    match plan.line(line) {
        CommandView::Updates { since } => Some(*since),
        _ => None,
    }
}

/// The first family of the keys that a line reads that isn't below `families`, if there is one.
pub fn missing_family(plan: &ClientPlan<'_>, line: usize, families: u32) -> Option<u32>
    ensures { result ≡ first_missing families (option_map_or read_families (slice_get plan.now line) []) }
{
    if line >= plan.len() {
        return None;
    }
    match plan.line(line) {
        CommandView::Get { family, .. } => missing(*family, families),
        CommandView::Scan { family, .. } => missing(*family, families),
        CommandView::Many { keys } => keys.missing_family(families),
        _ => None,
    }
}

/// A family, if it isn't below `families`.
fn missing(family: u32, families: u32) -> Option<u32>
    ensures { result ≡ first_missing families (family ∷ []) }
{
    (family >= families).then_some(family)
}
