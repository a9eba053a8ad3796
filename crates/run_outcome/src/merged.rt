//! The batches of several clients in one order.

ghost use Rattle.std.specs.Prelude.{◌≡◌, ◌<◌, ◌^◌, ℕ, length, filter, ◌==◌, Some, slice_get, IfOk};
ghost use Rattle.std.specs.List.Sorted.{IsNonDecreasingBy};
ghost use Rattle.run_outcome.specs.Histories.{entries_of_all};

use crate::entry::entry_of;
use crate::history_entry::HistoryEntry;
use crate::places::{BatchPlace, places_of};
use model_base::NoMemory;
use run_batches::{AcceptedBatchRef, BatchList};
use std::alloc::Global;
use std::marker::Model;

/// The batches of all clients in order of their first sequences. Contracts see the list of their entries.
///
/// Only the batches' places are sorted: the batches stay in their clients' lists.
#[derive(Drop)]
pub struct Merged {
    lists: Vec<BatchList>,
    order: Vec<BatchPlace>,
}

impl Model for Merged {
    ghost use Rattle.std.specs.Prelude.{List};
    ghost use Rattle.log_batch.specs.Contents.{Contents};
    ghost use Rattle.run_outcome.specs.declared.history_entry.HistoryEntry.{HistoryEntry};

    ghost Value = { List (HistoryEntry Contents) };

    ghost use Rattle.run_outcome.specs.Places.{entries_at, ArePlaces};

    ghost view = { λ m. entries_at m.lists.items m.order.items };

    ghost invariant = { λ m. ArePlaces m.lists.items m.order.items };
}

impl Merged {
    /// Merges all clients' lists, the first of which is that of the client with the number 1.
    pub fn of_lists(alloc: Global, lists: Vec<BatchList>) -> Result<Merged, NoMemory>
        requires { length lists.items < 2 ^ 32 }
        ensures rising { IfOk result (λ merged. IsNonDecreasingBy (λ e. e.run.first) merged) }
        // entries with the same first sequence stay in the order that they had
        ensures kept { IfOk result (λ merged. (first : ℕ) → filter (λ e. e.run.first == first) merged
            ≡ filter (λ e. e.run.first == first) (entries_of_all lists.items)) }
    {
        let mut order = places_of(alloc, &lists)?;
        order.sort_by_key(|place| place.first)?;
        Ok(Merged { lists, order })
    }

    /// How many batches there are.
    pub fn len(&self) -> usize
        ensures { result ≡ length self.now }
    {
        self.order.len()
    }

    /// The batch at a place of the order, from 0 on.
    pub fn entry(&self, at: usize) -> HistoryEntry<AcceptedBatchRef<'_>>
        requires { at < length self.now }
        ensures { slice_get self.now at ≡ Some result }
    {
        let place = &self.order[at];
        let list = &self.lists[place.client as usize - 1];
        entry_of(place.client, place.at as usize, list)
    }
}
