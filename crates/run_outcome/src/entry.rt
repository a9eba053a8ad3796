//! The entries of a client's batches.

ghost use Rattle.std.specs.Prelude.{◌≡◌, ◌<◌, length, Some, slice_get};
ghost use Rattle.run_outcome.specs.Histories.{entries_of};

use crate::history_entry::HistoryEntry;
use log_batch::Run;
use run_batches::{AcceptedBatch, AcceptedBatchRef, BatchList};

/// The entry of the batch at a place of a client's list, from 0 on.
pub fn entry_of(client: u32, at: usize, list: &BatchList) -> HistoryEntry<AcceptedBatchRef<'_>>
    requires { at < length list.now }
    ensures { slice_get (entries_of client list.now) at ≡ Some result }
{
    // So the ordinal doesn't overflow.
    prove!(at < list.len());
    let AcceptedBatch { flag, batch } = list.get(at);
    let first = batch.sequence();
    let run = Run {
        first,
        last: first.saturating_add(u64::from(batch.count()).saturating_sub(1)),
    };
    HistoryEntry {
        client,
        ordinal: at as u64 + 1,
        run,
        flag,
        batch,
    }
}
