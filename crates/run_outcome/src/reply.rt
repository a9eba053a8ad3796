//! What a client gets as replies.

ghost use Rattle.std.specs.Prelude.{◌≡◌};
ghost use Rattle.base_bytes.specs.Answers.{found_value};
ghost use Rattle.run_outcome.specs.Shows.{found_reply};

use base_bytes::{Bytes, Found, FoundList, PairList, RecordList};
use log_batch::Run;
use model_base::Refusal;
use std::mem::size_of;

/// The reply to a command. A command that adds to a batch or empties it has none.
#[derive(Drop)]
pub enum Reply {
    /// The batch was written under these sequences.
    Accepted(Run),
    /// The batch was not written.
    Refused(Refusal),
    /// The value that was read, and at which sequence.
    Found { at: u64, value: Bytes },
    /// No value was read at this sequence. An optional value above would take eight bytes more.
    Nothing { at: u64 },
    /// What was read of several keys at one sequence, in the order in which the keys were asked for.
    FoundEach { at: u64, values: FoundList },
    /// The keys of a range with their values at a sequence, in the byte order of the keys.
    Rows { at: u64, rows: PairList },
    /// The log's records from a sequence on, and up to which sequence.
    Updates { at: u64, records: RecordList },
    /// The log was not read, since its disk failed. This is the disk's count of faults.
    ReadFault { count: u64 },
    /// The token was taken, or given back.
    Done,
    /// The client has such a token already.
    Held,
    /// The client has no such token.
    NotHeld,
    /// There was no memory. It is a client's last reply.
    NoMemory,
}

// The room for all replies of a run is made before its first call, so that eight bytes more would be taken for each.
const _: () = prove!(size_of::<Reply>() <= 40);

impl Reply {
    ghost use Rattle.run_outcome.specs.Shows.{is_read_fault, lacks_memory};

    /// The reply to a read of a key at a sequence.
    pub fn found(at: u64, found: Found) -> Reply
        ensures { result ≡ found_reply at (found_value found) }
    {
        match found {
            Found::Value(value) => Reply::Found { at, value },
            Found::Absent => Reply::Nothing { at },
        }
    }

    /// Whether the call found no memory.
    pub fn lacks_memory(&self) -> bool
        ensures { result ≡ lacks_memory self.now }
    {
        matches!(self, Reply::NoMemory)
    }

    /// Whether it says that a read of the log failed.
    pub fn is_read_fault(&self) -> bool
        ensures { result ≡ is_read_fault self.now }
    {
        matches!(self, Reply::ReadFault { .. })
    }
}
