//! The history of all clients.

ghost use Rattle.std.specs.Prelude.{◌≡◌, ◌<◌, ◌^◌, ℕ, List, length, map, IfOk};
ghost use Rattle.model_base.specs.History as model;
ghost use Rattle.run_threads.specs.Answers.{accepted_in, ShowsEntries};
ghost use Rattle.run_threads.specs.Histories.{MakeUp};

use crate::batches::{ClientBatches, CurrentBatch};
use model_base::NoMemory;
use run_batches::BatchList;
use run_outcome::History;
use std::alloc::Global;

/// The one history that the clients' accepted batches make, in order of their sequences.
pub fn history_of(alloc: Global, mut lists: Vec<BatchList>) -> Result<History, NoMemory>
    requires { length lists.items < 2 ^ 32 }
    // It is said where the batches are exactly those of a history. The closing of a write path shows that they are.
    ensures { (start : ℕ) (entries : List model.Entry) → MakeUp start lists.items entries
        → IfOk result (λ shown. ShowsEntries shown entries) }
{
    if lists.len() == 1 {
        return Ok(History::of_one(lists.remove(0)));
    }
    History::of_all(alloc, lists)
}

/// Each client's accepted batches, all of them in its list.
pub fn lists_of(alloc: Global, batches: Vec<ClientBatches>) -> Result<Vec<BatchList>, NoMemory>
    ensures { IfOk result (λ lists. lists.items ≡ map accepted_in batches.items) }
{
    let mut lists = Vec::with_capacity(alloc, batches.len())?;
    // The lists are those of the clients so far.
    for own in batches {
        lists.push(list_of(own)?)?;
    }
    Ok(lists)
}

/// A client's accepted batches, with the last one, if it is still at hand.
fn list_of(batches: ClientBatches) -> Result<BatchList, NoMemory>
    ensures { IfOk result (λ list. list ≡ accepted_in batches) }
{
    let ClientBatches { mut list, current } = batches;
    if let CurrentBatch::Accepted(kept) = &current {
        list.push(kept.flag, &kept.batch)?;
    }
    Ok(list)
}
