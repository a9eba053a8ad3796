//! A batch of additions.

ghost use Rattle.std.specs.Prelude.{◌≡◌, ◌<◌, ◌≤◌, ◌^◌, ◌-◌, length, min, IfOk, OnOk, OnErr, IsOkUnless, None};
ghost use Rattle.std.specs.List.{AllByRecursion};
ghost use Rattle.model_base.specs.Batch as model;
ghost use Rattle.model_base.specs.Map.{named};
ghost use Rattle.log_batch.specs.Contents.{empty, greatest_named, with_addition, size_with, with_additions, size_with_all};
ghost use Rattle.log_batch.specs.View.{record_of};

use crate::batch_bytes::BatchBytes;
use crate::record_view::{greatest_of, named};
use crate::records::greatest_in;
use crate::{AddError, BatchView, RecordView, Records};
use model_base::{MAX_SIZE, NoMemory};
use std::alloc::Global;
use std::marker::Model;

/// The greatest sequence, `kMaxSequenceNumber` of RocksDB's db/dbformat.h.
pub const MAX_SEQUENCE: u64 = (1 << 56) - 1;

/// A batch of additions. Contracts see its sequence and the additions in order.
///
/// Its bytes are a header of 12 bytes, and then the records of the additions. The header is the sequence in eight
/// bytes and the count in four, the lowest byte first.
#[derive(Debug, Drop)]
pub struct Batch {
    parts: BatchBytes,
    /// The greatest family that a record is about. So the records needn't be looked at where it is there.
    greatest: u32,
}

impl Model for Batch {
    ghost use Rattle.std.specs.Prelude.{◌≡◌};
    ghost use Rattle.log_batch.specs.Contents.{Contents, greatest_named};

    ghost Value = { Contents };

    ghost view = { λ b. b.parts };

    ghost invariant = { λ b. b.greatest ≡ greatest_named b.parts.records };
}

impl Batch {
    /// A batch of no additions, with the sequence 0.
    pub fn new(alloc: Global) -> Result<Batch, NoMemory>
        ensures { IfOk result (λ batch. batch ≡ empty) }
    {
        Ok(Batch {
            parts: BatchBytes::new(alloc)?,
            greatest: 0,
        })
    }

    /// Adds a key with its value.
    ///
    /// If the batch would have more than [`MAX_SIZE`] bytes, the addition is refused before anything else, by
    /// `TooLarge` with the size that the batch would have; for this a length of 2^32 or more counts as a varint of
    /// five bytes. A refused addition leaves the batch as it was.
    pub fn put(&mut self, key: &[u8], value: &[u8]) -> Result<(), AddError>
        ensures ok { OnOk result (self.new ≡ with_addition self.old (model.value None key.now value.now)) }
        ensures err { OnErr result (self.new ≡ self.old) }
        // The bound is on the whole batch, with its header. The size is the one that the batch would have, or the
        // greatest `u64`.
        ensures too_large { let size = size_with self.old (model.value None key.now value.now) in
            MAX_SIZE < size → result ≡ Err (AddError.TooLarge (min size (2 ^ 64 - 1))) }
        // Where there is room for it, want of memory is the only refusal.
        ensures fits { size_with self.old (model.value None key.now value.now) ≤ MAX_SIZE
            → IsOkUnless result AddError.NoMemory }
    {
        self.add(RecordView::Value {
            family: None,
            key,
            value,
        })
    }

    /// Adds a deletion of a key. It is refused as by [`Batch::put`].
    pub fn delete(&mut self, key: &[u8]) -> Result<(), AddError>
        ensures ok { OnOk result (self.new ≡ with_addition self.old (model.deletion None key.now)) }
        ensures err { OnErr result (self.new ≡ self.old) }
        ensures too_large { let size = size_with self.old (model.deletion None key.now) in
            MAX_SIZE < size → result ≡ Err (AddError.TooLarge (min size (2 ^ 64 - 1))) }
        ensures fits { size_with self.old (model.deletion None key.now) ≤ MAX_SIZE
            → IsOkUnless result AddError.NoMemory }
    {
        self.add(RecordView::Deletion { family: None, key })
    }

    /// Adds a single deletion of a key. It is refused as by [`Batch::put`].
    pub fn single_delete(&mut self, key: &[u8]) -> Result<(), AddError>
        ensures ok { OnOk result (self.new ≡ with_addition self.old (model.single_deletion None key.now)) }
        ensures err { OnErr result (self.new ≡ self.old) }
        ensures too_large { let size = size_with self.old (model.single_deletion None key.now) in
            MAX_SIZE < size → result ≡ Err (AddError.TooLarge (min size (2 ^ 64 - 1))) }
        ensures fits { size_with self.old (model.single_deletion None key.now) ≤ MAX_SIZE
            → IsOkUnless result AddError.NoMemory }
    {
        self.add(RecordView::SingleDeletion { family: None, key })
    }

    /// Adds a key of a column family with its value. Where the family is 0, the record names none. It is refused as by
    /// [`Batch::put`].
    pub fn put_in(&mut self, family: u32, key: &[u8], value: &[u8]) -> Result<(), AddError>
        ensures ok { OnOk result (self.new ≡ with_addition self.old (model.value (named family) key.now value.now)) }
        ensures err { OnErr result (self.new ≡ self.old) }
        ensures too_large { let size = size_with self.old (model.value (named family) key.now value.now) in
            MAX_SIZE < size → result ≡ Err (AddError.TooLarge (min size (2 ^ 64 - 1))) }
        ensures fits { size_with self.old (model.value (named family) key.now value.now) ≤ MAX_SIZE
            → IsOkUnless result AddError.NoMemory }
    {
        let family = named(family);
        self.add(RecordView::Value { family, key, value })
    }

    /// Adds a deletion of a key of a column family. Where the family is 0, the record names none. It is refused as by
    /// [`Batch::put`].
    pub fn delete_in(&mut self, family: u32, key: &[u8]) -> Result<(), AddError>
        ensures ok { OnOk result (self.new ≡ with_addition self.old (model.deletion (named family) key.now)) }
        ensures err { OnErr result (self.new ≡ self.old) }
        ensures too_large { let size = size_with self.old (model.deletion (named family) key.now) in
            MAX_SIZE < size → result ≡ Err (AddError.TooLarge (min size (2 ^ 64 - 1))) }
        ensures fits { size_with self.old (model.deletion (named family) key.now) ≤ MAX_SIZE
            → IsOkUnless result AddError.NoMemory }
    {
        let family = named(family);
        self.add(RecordView::Deletion { family, key })
    }

    /// Adds a single deletion of a key of a column family. Where the family is 0, the record names none. It is refused
    /// as by [`Batch::put`].
    pub fn single_delete_in(&mut self, family: u32, key: &[u8]) -> Result<(), AddError>
        ensures ok { OnOk result (self.new ≡ with_addition self.old (model.single_deletion (named family) key.now)) }
        ensures err { OnErr result (self.new ≡ self.old) }
        ensures too_large { let size = size_with self.old (model.single_deletion (named family) key.now) in
            MAX_SIZE < size → result ≡ Err (AddError.TooLarge (min size (2 ^ 64 - 1))) }
        ensures fits { size_with self.old (model.single_deletion (named family) key.now) ≤ MAX_SIZE
            → IsOkUnless result AddError.NoMemory }
    {
        let family = named(family);
        self.add(RecordView::SingleDeletion { family, key })
    }

    /// Adds log data, which isn't counted and takes no sequence. It is refused as by [`Batch::put`].
    pub fn log_data(&mut self, blob: &[u8]) -> Result<(), AddError>
        ensures ok { OnOk result (self.new ≡ with_addition self.old (model.log_data blob.now)) }
        ensures err { OnErr result (self.new ≡ self.old) }
        ensures too_large { let size = size_with self.old (model.log_data blob.now) in
            MAX_SIZE < size → result ≡ Err (AddError.TooLarge (min size (2 ^ 64 - 1))) }
        ensures fits { size_with self.old (model.log_data blob.now) ≤ MAX_SIZE → IsOkUnless result AddError.NoMemory }
    {
        self.add(RecordView::LogData { blob })
    }

    /// Adds a record of any kind. It is refused as by [`Batch::put`].
    pub fn add(&mut self, view: RecordView<'_>) -> Result<(), AddError>
        ensures ok { OnOk result (self.new ≡ with_addition self.old (record_of view.entry)) }
        ensures err { OnErr result (self.new ≡ self.old) }
        ensures too_large { let size = size_with self.old (record_of view.entry) in
            MAX_SIZE < size → result ≡ Err (AddError.TooLarge (min size (2 ^ 64 - 1))) }
        ensures fits { size_with self.old (record_of view.entry) ≤ MAX_SIZE → IsOkUnless result AddError.NoMemory }
    {
        let greatest = self.greatest.max(greatest_of(view));
        match self.parts.add(view) {
            Ok(()) => {
                self.greatest = greatest;
                Ok(())
            }
            Err(why) => Err(why),
        }
    }

    /// Appends the records of a batch that was read, in their order (`WriteBatchInternal::Append` of RocksDB's
    /// db/write_batch.cc). The sequence of the batch itself stays. They are refused as by [`Batch::put`]; then none of
    /// them is added.
    pub fn append(&mut self, other: &BatchView<'_>) -> Result<(), AddError>
        ensures ok { OnOk result (self.new ≡ with_additions self.old other.now.records) }
        ensures err { OnErr result (self.new ≡ self.old) }
        ensures too_large { let size = size_with_all self.old other.now.records in
            MAX_SIZE < size → result ≡ Err (AddError.TooLarge (min size (2 ^ 64 - 1))) }
        // As of `put`: want of memory is the only refusal.
        ensures fits { size_with_all self.old other.now.records ≤ MAX_SIZE → IsOkUnless result AddError.NoMemory }
    {
        let greatest = self.greatest.max(greatest_in(other.records()));
        match self.parts.append(other) {
            Ok(()) => {
                self.greatest = greatest;
                Ok(())
            }
            Err(why) => Err(why),
        }
    }

    /// Removes all additions, and sets the sequence to 0.
    pub fn clear(&mut self)
        ensures { self.new ≡ empty }
    {
        self.parts.clear();
        self.greatest = 0;
    }

    /// The sequence of the first addition that counts.
    pub fn sequence(&self) -> u64
        ensures { result ≡ self.now.sequence }
    {
        self.parts.sequence()
    }

    /// Gives the batch another sequence, and changes nothing else.
    pub fn set_sequence(&mut self, sequence: u64)
        ensures { self.new ≡ record self.old { sequence = sequence } }
    {
        self.parts.set_sequence(sequence);
    }

    /// How many additions count. Each of these takes a sequence.
    pub fn count(&self) -> u32
        ensures { result ≡ model.count_of self.now.records }
    {
        self.parts.count()
    }

    /// How many bytes the batch has.
    pub fn size(&self) -> u64
        ensures value { result ≡ model.size_of_batch self.now.records }
        ensures limit { result ≤ MAX_SIZE }
    {
        self.parts.size()
    }

    /// The greatest family that a record of the batch is about, or 0 if they are about none.
    pub fn greatest_family(&self) -> u32
        ensures { result ≡ greatest_named self.now.records }
    {
        self.greatest
    }

    /// The bytes of the batch.
    pub fn bytes(&self) -> &[u8]
        // These are the bytes that RocksDB's db/write_batch.cc gives for these records and this sequence.
        ensures { result.now ≡ model.batch self.now.sequence self.now.records }
    {
        self.parts.bytes()
    }

    /// The additions in order, as parts of the batch's bytes.
    pub fn records(&self) -> Records<'_>
        ensures value { result ≡ self.now.records }
        ensures bound { length result < 2 ^ 64 }
        // Each can be read back: the family that it names fits into 32 bits, and so do the lengths of its strings.
        ensures readable { AllByRecursion model.IsReadable self.now.records }
    {
        self.parts.records()
    }
}
