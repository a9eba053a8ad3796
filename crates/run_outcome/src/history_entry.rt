//! The history's entries.

use log_batch::Run;
use model_base::Flag;

/// An accepted batch with its run of sequences. `B` represents the batch: it is the batch itself with its sequence
/// set, or where it can be found.
#[derive(Clone, Copy, Debug, PartialEq, Eq, Drop)]
pub struct HistoryEntry<B> {
    /// Whose batch it is. Clients are numbered from 1.
    pub client: u32,
    /// The batch's number among the accepted batches of that client, from 1.
    pub ordinal: u64,
    pub run: Run,
    pub flag: Flag,
    pub batch: B,
}
