//! What the calls answer. The answers of reads of the map are in `base_bytes`.

use base_bytes::RecordList;
use log_batch::{Batch, Run};
use model_base::{NoMemory, Refusal};

/// An accepted batch, which is handed back with its sequence set.
#[derive(Drop)]
pub struct Receipt {
    pub run: Run,
    /// The last sequence of its group. From now on, reads of this client see the whole group.
    pub group_last: u64,
    pub batch: Batch,
}

/// A refused batch, which is handed back as it was.
#[derive(Drop)]
pub struct Refused {
    pub batch: Batch,
    pub why: Refusal,
}

/// The log's records from a sequence on.
#[derive(Drop)]
pub struct Since {
    /// The sequence up to which the log was read: the end of a group that is published.
    pub at: u64,
    /// The records, each with its header, as the batch that the log has.
    pub records: RecordList,
}

/// Why the log was not read.
#[derive(Clone, Copy, Debug, PartialEq, Eq)]
pub enum SinceRefused {
    /// The client holds a stop token.
    SelfStop,
    NoMemory,
    /// The log's disk failed, and this is its count of faults. The log can still be written.
    ReadFault { count: u64 },
}

impl From<NoMemory> for SinceRefused {
    ghost use Rattle.engine_calls.specs.declared.answers.SinceRefused.TheVariants.{NoMemory};
    ghost use Rattle.std.specs.Prelude.{◌≡◌};

    ghost from_gives = { λ _ e. e ≡ NoMemory };

    fn from(_: NoMemory) -> SinceRefused {
        SinceRefused::NoMemory
    }
}

/// What is left of a write path that was closed: its log, and the last published sequence.
pub struct Closed<L> {
    pub log: L,
    pub last: u64,
}
