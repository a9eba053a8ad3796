//! Runs of sequences for the writers of a group.

ghost use Rattle.std.specs.Prelude.{◌≡◌, ◌<◌, ◌≤◌, ◌+◌, ◌-◌, ◌^◌, ◌∷◌, [], List, length, map, take, vec_len, vec_capacity};
ghost use Rattle.std.specs.List.{AllByRecursion};
ghost use Rattle.model_core.specs.Core as core;
ghost use Rattle.replay_plans.specs.declared.plan.ClientPlan.{ClientPlan};
ghost use Rattle.replay_core.specs.Shown.{shown_entry};
ghost use Rattle.replay_core.specs.Ordinals.{AreCounts};
ghost use Rattle.replay_core.specs.Runs.{GotRuns, IsCounted, without_answer};

use crate::ordinals::accepted_before;
use crate::room::push_within;
use crate::writer::{Answer, Writer};
use log_batch::{flag_of, next_run};
use replay_plans::Lines;
use run_outcome::HistoryEntry;

/// Gives the writers of a group their runs in order, after the sequence `last`, and adds an entry for each that has
/// one. A writer whose run doesn't fit is refused, and later ones whose runs fit get theirs. `counts` says how many
/// entries each client has so far. The result is the sequence given last.
pub(crate) fn give_runs(
    group: &mut [Writer],
    entries: &mut Vec<HistoryEntry<Lines>>,
    counts: &[u64],
    last: u64,
) -> u64
    requires last_fits { last ≤ 2 ^ 56 - 1 }
    requires counts { AreCounts counts.now entries.old.items }
    ensures got { (plans : List ClientPlan) (s : core.State) → AllByRecursion (IsCounted plans) group.old
        → s.entries ≡ map (shown_entry plans) entries.old.items
        → vec_len entries.old + length group.old ≤ vec_capacity entries.old
        → GotRuns plans s s.entries last group.old group.new entries.new.items result }
    ensures writers { map without_answer group.new ≡ map without_answer group.old }
    ensures fits { result ≤ 2 ^ 56 - 1 }
    ensures front { take (vec_len entries.old) entries.new.items ≡ entries.old.items }
    ensures lower { vec_len entries.old ≤ vec_len entries.new }
    ensures upper { vec_len entries.new ≤ vec_len entries.old + length group.old }
    ensures capacity { vec_capacity entries.new ≡ vec_capacity entries.old }
{
    let before = entries.len();
    let mut given = last;
    // The writers so far have their runs or refusals, and `given` is the sequence given last.
    for writer in group.iter_mut() {
        given = give_run(writer, entries, counts, before, given);
    }
    given
}

/// Gives a writer its run after the sequence `last` and adds its entry, or refuses it. The entries from `before` on
/// are those of its own group, and `counts` counts the entries before them. The result is the sequence given last.
fn give_run(
    writer: &mut Writer,
    entries: &mut Vec<HistoryEntry<Lines>>,
    counts: &[u64],
    before: usize,
    last: u64,
) -> u64
    requires known { before ≤ vec_len entries.old }
    requires counts { AreCounts counts.now (take before entries.old.items) }
    requires last_fits { last ≤ 2 ^ 56 - 1 }
    ensures got { (plans : List ClientPlan) (s : core.State) → IsCounted plans writer.old
        → s.entries ≡ map (shown_entry plans) (take before entries.old.items)
        → vec_len entries.old < vec_capacity entries.old
        → GotRuns plans s (map (shown_entry plans) entries.old.items) last (writer.old ∷ [])
        (writer.new ∷ []) entries.new.items result }
    ensures writer { without_answer writer.new ≡ without_answer writer.old }
    ensures fits { result ≤ 2 ^ 56 - 1 }
    ensures front { take before entries.new.items ≡ take before entries.old.items }
    ensures lower { vec_len entries.old ≤ vec_len entries.new }
    ensures upper { vec_len entries.new ≤ vec_len entries.old + 1 }
    ensures capacity { vec_capacity entries.new ≡ vec_capacity entries.old }
{
    let run = match next_run(last, writer.count) {
        Ok(run) => run,
        Err(why) => {
            writer.answer = Some(Answer::Refused { why });
            return last;
        }
    };
    let entry = HistoryEntry {
        client: writer.client,
        ordinal: accepted_before(counts, entries, before, writer.client) + 1,
        run,
        flag: flag_of(writer.options),
        batch: writer.batch,
    };
    push_within(entries, entry);
    writer.answer = Some(Answer::Accepted(run));
    run.last
}
