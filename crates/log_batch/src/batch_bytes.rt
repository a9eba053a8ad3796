//! The bytes of a batch of additions.

ghost use Rattle.std.specs.Prelude.{◌≡◌, ◌<◌, ◌≤◌, ◌^◌, ◌-◌, length, min, IfOk, OnOk, OnErr, IsOkUnless};
ghost use Rattle.std.specs.List.{AllByRecursion};
ghost use Rattle.model_base.specs.Batch as model;
ghost use Rattle.log_batch.specs.Contents.{IsBatch, empty, with_addition, size_with, with_additions, size_with_all};
ghost use Rattle.log_batch.specs.OneBatch.{IsBatch-prop};
ghost use Rattle.log_batch.specs.View.{record_of};

use crate::record_bytes::{append_record, size_with_record};
use crate::record_view::sequences_of;
use crate::{AddError, BatchView, RecordView, Records};
use base_bytes::Bytes;
use model_base::{MAX_SIZE, NoMemory};
use std::alloc::Global;
use std::marker::Model;

/// How many bytes the header of a batch has: its sequence and its count.
pub const HEADER_LEN: usize = 12;

/// The place of the count in the header.
pub const COUNT_AT: usize = 8;

/// The bytes of a batch, with its sequence and its count as numbers. Contracts see the sequence and the additions in
/// order.
#[derive(Debug, Drop)]
pub(crate) struct BatchBytes {
    bytes: Bytes,
    sequence: u64,
    count: u32,
    ghost holds: { IsBatch bytes sequence count } by { IsBatch-prop bytes sequence count },
}

impl Model for BatchBytes {
    ghost use Rattle.log_batch.specs.Contents.{Contents};

    ghost Value = { Contents };

    ghost view = { λ b. record { sequence = b.sequence; records = b.holds.records } };
}

impl BatchBytes {
    /// A batch of no additions, with the sequence 0.
    pub(crate) fn new(alloc: Global) -> Result<BatchBytes, NoMemory>
        ensures { IfOk result (λ batch. batch ≡ empty) }
    {
        Ok(BatchBytes {
            bytes: Bytes::copy(alloc, &[0; HEADER_LEN])?,
            sequence: 0,
            count: 0,
        })
    }

    /// Adds a record.
    pub(crate) fn add(&mut self, view: RecordView<'_>) -> Result<(), AddError>
        ensures ok { OnOk result (self.new ≡ with_addition self.old (record_of view.entry)) }
        ensures err { OnErr result (self.new ≡ self.old) }
        ensures too_large { let size = size_with self.old (record_of view.entry) in
            MAX_SIZE < size → result ≡ Err (AddError.TooLarge (min size (2 ^ 64 - 1))) }
        ensures fits { size_with self.old (record_of view.entry) ≤ MAX_SIZE → IsOkUnless result AddError.NoMemory }
    {
        let size = size_with_record(self.size(), view);
        if size > MAX_SIZE {
            return Err(AddError::TooLarge { size });
        }
        let len = self.bytes.len();
        if append_record(&mut self.bytes, view).is_err() {
            self.bytes.truncate(len);
            return Err(AddError::NoMemory);
        }
        self.count += sequences_of(view);
        self.bytes.overwrite(COUNT_AT, &self.count.to_le_bytes());
        Ok(())
    }

    /// Adds the records of a batch that was read.
    pub(crate) fn append(&mut self, other: &BatchView<'_>) -> Result<(), AddError>
        ensures ok { OnOk result (self.new ≡ with_additions self.old other.now.records) }
        ensures err { OnErr result (self.new ≡ self.old) }
        ensures too_large { let size = size_with_all self.old other.now.records in
            MAX_SIZE < size → result ≡ Err (AddError.TooLarge (min size (2 ^ 64 - 1))) }
        // As of `put`: want of memory is the only refusal.
        ensures fits { size_with_all self.old other.now.records ≤ MAX_SIZE → IsOkUnless result AddError.NoMemory }
    {
        let records = other.records();
        let body = records.bytes();
        let size = self.size().saturating_add(body.len() as u64);
        if size > MAX_SIZE {
            return Err(AddError::TooLarge { size });
        }
        if self.bytes.append(body).is_err() {
            return Err(AddError::NoMemory);
        }
        self.count += other.count();
        self.bytes.overwrite(COUNT_AT, &self.count.to_le_bytes());
        Ok(())
    }

    /// Removes all additions, and sets the sequence to 0.
    pub(crate) fn clear(&mut self)
        ensures { self.new ≡ empty }
    {
        self.bytes.truncate(HEADER_LEN);
        self.bytes.overwrite(0, &[0; HEADER_LEN]);
        self.sequence = 0;
        self.count = 0;
    }

    /// The sequence of the first addition that counts.
    pub(crate) fn sequence(&self) -> u64
        ensures { result ≡ self.now.sequence }
    {
        self.sequence
    }

    /// Gives the batch another sequence, and changes nothing else.
    pub(crate) fn set_sequence(&mut self, sequence: u64)
        ensures { self.new ≡ record self.old { sequence = sequence } }
    {
        self.sequence = sequence;
        self.bytes.overwrite(0, &sequence.to_le_bytes());
    }

    /// How many additions count. Each of these takes a sequence.
    pub(crate) fn count(&self) -> u32
        ensures { result ≡ model.count_of self.now.records }
    {
        self.count
    }

    /// How many bytes the batch has.
    pub(crate) fn size(&self) -> u64
        ensures value { result ≡ model.size_of_batch self.now.records }
        ensures limit { result ≤ MAX_SIZE }
    {
        self.bytes.len() as u64
    }

    /// The bytes of the batch.
    pub(crate) fn bytes(&self) -> &[u8]
        // These are the bytes that RocksDB's db/write_batch.cc gives for these records and this sequence.
        ensures { result.now ≡ model.batch self.now.sequence self.now.records }
    {
        self.bytes.as_slice()
    }

    /// The additions in order, as parts of the batch's bytes.
    pub(crate) fn records(&self) -> Records<'_>
        ensures value { result ≡ self.now.records }
        ensures bound { length result < 2 ^ 64 }
        // Each can be read back: the family that it names fits into 32 bits, and so do the lengths of its strings.
        ensures readable { AllByRecursion model.IsReadable self.now.records }
    {
        Records::of_body(&self.bytes.as_slice()[HEADER_LEN..])
    }
}
