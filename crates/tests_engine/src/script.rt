//! The calls that a client of a test makes, and their answers.

use log_batch::Run;
use model_base::{Refusal, WriteOptions};

/// A call of a client.
#[derive(Drop, Clone, Copy)]
pub enum Step {
    /// A batch that puts each of the values at the key before it.
    Write {
        rows: &'static [(&'static [u8], &'static [u8])],
        options: WriteOptions,
    },
    /// The same of keys of a family.
    WriteIn {
        family: u32,
        rows: &'static [(&'static [u8], &'static [u8])],
        options: WriteOptions,
    },
    /// The batch that the last refused write gave back.
    Again {
        options: WriteOptions,
    },
    Read {
        key: &'static [u8],
    },
    /// A read of a family's key.
    ReadIn {
        family: u32,
        key: &'static [u8],
    },
    /// A read of the log from a sequence on.
    Updates {
        since: u64,
    },
    Stop,
    Unstop,
    Slow {
        rate: u64,
    },
    Unslow,
}

/// What a call answered.
#[derive(Clone, Copy, Debug, PartialEq, Eq)]
pub enum StepAnswer {
    /// The batch was written with these sequences, in a group that ends at `group_last`. It came back with this
    /// sequence set.
    Wrote {
        run: Run,
        group_last: u64,
        sequence: u64,
    },
    Refused(Refusal),
    /// A read at this sequence found a value of one byte, which is this.
    Saw {
        at: u64,
        byte: u8,
    },
    /// A read at this sequence found a value that no test writes.
    SawAnother {
        at: u64,
    },
    /// A read at this sequence found no value.
    SawNone {
        at: u64,
    },
    /// A read of a key or of the log had no memory.
    NoMemory,
    /// A read was refused, since there is no such family.
    NoFamily {
        family: u32,
    },
    /// A read of the log up to this sequence gave so many records.
    Gave {
        at: u64,
        records: usize,
    },
    /// A read of the log was refused, since the client holds a stop token.
    SelfStop,
    /// A read of the log was refused by a fault.
    NotRead {
        count: u64,
    },
    /// A token was taken or given back.
    Done,
    /// The client already holds such a token.
    Held,
    /// The client holds no such token.
    NotHeld,
}
