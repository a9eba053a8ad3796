//! The one history of all clients.

ghost use Rattle.std.specs.Prelude.{◌≡◌, ◌<◌, ◌^◌, ℕ, length, filter, ◌==◌, Some, slice_get, IfOk};
ghost use Rattle.std.specs.List.Sorted.{IsNonDecreasingBy};
ghost use Rattle.run_outcome.specs.Histories.{entries_of, entries_of_all};

use crate::entry::entry_of;
use crate::history_entry::HistoryEntry;
use crate::merged::Merged;
use model_base::NoMemory;
use run_batches::{AcceptedBatchRef, BatchList};
use std::alloc::Global;
use std::marker::Model;

/// The accepted batches of all clients in order of their sequences. Contracts see the list of its entries.
///
/// The batches stay in their clients' lists.
#[derive(Drop)]
pub struct History {
    batches: Batches,
}

#[derive(Drop)]
enum Batches {
    /// The batches of a single client are in order, and their history takes no memory of its own.
    OfOne(BatchList),
    OfAll(Merged),
}

impl Model for History {
    ghost use Rattle.std.specs.Prelude.{List};
    ghost use Rattle.log_batch.specs.Contents.{Contents};
    ghost use Rattle.run_outcome.specs.declared.history_entry.HistoryEntry.{HistoryEntry};

    ghost Value = { List (HistoryEntry Contents) };

    ghost use Rattle.run_outcome.specs.Views.{entries_in};

    ghost view = { λ h. entries_in h.batches };
}

impl History {
    /// The history of a single client: its batches in the order that they have.
    pub fn of_one(list: BatchList) -> History
        // A single client's batches are in order already, so nothing is sorted.
        ensures { result ≡ entries_of 1 list }
    {
        History {
            batches: Batches::OfOne(list),
        }
    }

    /// The history of all clients, the first of which has the number 1: their batches in order of their first
    /// sequences.
    pub fn of_all(alloc: Global, lists: Vec<BatchList>) -> Result<History, NoMemory>
        requires few { length lists.items < 2 ^ 32 }
        ensures rising { IfOk result (λ history. IsNonDecreasingBy (λ e. e.run.first) history) }
        // entries with the same first sequence stay in the order that they had
        ensures kept { IfOk result (λ history. (first : ℕ) → filter (λ e. e.run.first == first) history
            ≡ filter (λ e. e.run.first == first) (entries_of_all lists.items)) }
    {
        let merged = Merged::of_lists(alloc, lists)?;
        Ok(History {
            batches: Batches::OfAll(merged),
        })
    }

    /// How many batches there are.
    pub fn len(&self) -> usize
        ensures { result ≡ length self.now }
    {
        match &self.batches {
            Batches::OfOne(list) => list.len(),
            Batches::OfAll(merged) => merged.len(),
        }
    }

    /// The batch at a place, from 0 on.
    pub fn entry(&self, at: usize) -> HistoryEntry<AcceptedBatchRef<'_>>
        requires { at < length self.now }
        // It has its client, its number among that client's batches, and its run.
        ensures { slice_get self.now at ≡ Some result }
    {
        match &self.batches {
            Batches::OfOne(list) => entry_of(1, at, list),
            Batches::OfAll(merged) => merged.entry(at),
        }
    }
}
