//! How many accepted batches each client has: a batch's ordinal is one more than the count before it.

ghost use Rattle.std.specs.Prelude.{◌≡◌, ◌<◌, ◌≤◌, ◌+◌, ◌-◌, ◌^◌, ◌++◌, ◌∷◌, [], ◌==◌, List, length, take, count_by};
ghost use Rattle.run_outcome.specs.declared.history_entry.HistoryEntry.{HistoryEntry};
ghost use Rattle.replay_plans.specs.declared.plan.Lines.{Lines};
ghost use Rattle.replay_core.specs.Ordinals.{AreCounts, count_for};

use replay_plans::Lines;
use run_outcome::HistoryEntry;

/// How many of the first `before` entries are a client's. The client's count says it; if the client has no count, the
/// entries are counted.
pub(crate) fn accepted_before(
    counts: &[u64],
    entries: &[HistoryEntry<Lines>],
    before: usize,
    client: u32,
) -> u64
    requires within { before ≤ length entries.now }
    requires counts { AreCounts counts.now (take before entries.now) }
    ensures counted { result ≡ count_by (λ e. e.client == client) (take before entries.now) }
    ensures few { result ≤ before }
{
    match count_for(counts, client) {
        Some(count) => count,
        None => counted_before(entries, before, client),
    }
}

/// How many of the first `before` entries are a client's, counted one after another.
fn counted_before(entries: &[HistoryEntry<Lines>], before: usize, client: u32) -> u64
    requires { before ≤ length entries.now }
    ensures counted { result ≡ count_by (λ e. e.client == client) (take before entries.now) }
    ensures few { result ≤ before }
{
    entries[..before]
        .iter()
        .filter(|entry| entry.client == client)
        .count() as u64
}

/// A client's count.
fn count_for(counts: &[u64], client: u32) -> Option<u64>
    ensures { result ≡ count_for counts.now client }
{
    match (client as usize).checked_sub(1) {
        Some(place) if place < counts.len() => Some(counts[place]),
        _ => None,
    }
}

/// Adds to the clients' counts the entries that come after those counted before.
pub(crate) fn count_entries(counts: &mut [u64], entries: &[HistoryEntry<Lines>])
    ensures { (front : List (HistoryEntry Lines)) → length front + length entries.now < 2 ^ 64
        → AreCounts counts.old front → AreCounts counts.new (front ++ entries.now) }
{
    // The entries so far are counted, each for its client.
    for entry in entries {
        count_one(counts, entry);
    }
}

/// Adds an entry to its client's count, if the client has one.
fn count_one(counts: &mut [u64], entry: &HistoryEntry<Lines>)
    ensures { (front : List (HistoryEntry Lines)) → length front < 2 ^ 64 - 1 → AreCounts counts.old front
        → AreCounts counts.new (front ++ entry.now ∷ []) }
{
    let Some(place) = (entry.client as usize).checked_sub(1) else {
        return;
    };
    if place < counts.len() {
        counts[place] = counts[place].saturating_add(1);
    }
}
