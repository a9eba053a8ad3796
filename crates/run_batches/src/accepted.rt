//! An accepted batch.

ghost use Rattle.std.specs.Prelude.{◌≡◌, ◌<◌, ◌^◌, length};
ghost use Rattle.model_base.specs.Batch as model;
ghost use Rattle.run_batches.specs.OneBatch.{IsBatchOf, IsOneBatch, IsOneBatch-prop};

use base_bytes::{get_fixed32, get_fixed64};
use log_batch::{Records, read_batch};
use model_base::Flag;
use std::marker::Model;

/// Where the count is in a batch's bytes: after its sequence.
const COUNT_AT: usize = 8;

/// An accepted batch, and how it was committed. `B` represents the batch: it is the batch itself with its sequence
/// set, or a part of a list's bytes.
#[derive(Drop)]
pub struct AcceptedBatch<B> {
    pub flag: Flag,
    pub batch: B,
}

/// A batch as a part of a list's bytes. Contracts see its sequence and its records.
#[derive(Drop)]
pub struct AcceptedBatchRef<'a> {
    bytes: &'a [u8],
    ghost holds: { IsOneBatch bytes.now } by { IsOneBatch-prop bytes.now },
}

impl<'a> Model for AcceptedBatchRef<'a> {
    ghost use Rattle.log_batch.specs.Contents.{Contents};

    ghost Value = { Contents };

    ghost view = { λ b. b.holds.contents };
}

impl<'a> AcceptedBatchRef<'a> {
    /// The batch of these bytes.
    pub(crate) fn of(bytes: &'a [u8]) -> AcceptedBatchRef<'a>
        requires { IsOneBatch bytes.now }
        ensures { IsBatchOf bytes.now result }
    {
        AcceptedBatchRef { bytes }
    }

    /// The first sequence of its run.
    pub fn sequence(&self) -> u64
        ensures { result ≡ self.now.sequence }
    {
        get_fixed64(self.bytes, 0)
    }

    /// How many sequences the run has.
    pub fn count(&self) -> u32
        ensures { result ≡ model.count_of self.now.records }
    {
        get_fixed32(self.bytes, COUNT_AT)
    }

    /// Its bytes.
    pub fn bytes(&self) -> &'a [u8]
        ensures { result.now ≡ model.batch self.now.sequence self.now.records }
    {
        self.bytes
    }

    /// Its records in order.
    pub fn records(&self) -> Records<'a>
        ensures value { result ≡ self.now.records }
        ensures bound { length result < 2 ^ 64 }
    {
        match read_batch(self.bytes) {
            Ok(view) => view.records(),
            Err(_) => unreachable!(),
        }
    }
}
