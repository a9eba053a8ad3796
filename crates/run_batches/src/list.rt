//! The list of batches.

ghost use Rattle.std.specs.Prelude.{◌≡◌, ◌<◌, ◌≤◌, ◌++◌, ◌∷◌, [], length, take, Some, slice_get, slice_index, slice_range, OnOk, OnErr};
ghost use Rattle.run_batches.specs.OneList.{AreBatches, AreBatches-prop};

use crate::layout::{byte_of, bytes_of, flag_of};
use crate::{AcceptedBatch, AcceptedBatchRef};
use log_batch::Batch;
use model_base::{Flag, NoMemory};
use std::alloc::Global;
use std::marker::Model;

/// The accepted batches of a client, from the first on, each with how it was committed. Contracts see the list of
/// them.
#[derive(Drop)]
pub struct BatchList {
    bytes: Vec<u8>,
    ends: Vec<u32>,
    ghost holds: { AreBatches bytes.items ends.items } by { AreBatches-prop bytes.items ends.items },
}

impl Model for BatchList {
    ghost use Rattle.std.specs.Prelude.{List};
    ghost use Rattle.log_batch.specs.Contents.{Contents};
    ghost use Rattle.run_batches.specs.declared.accepted.AcceptedBatch.{AcceptedBatch};

    ghost Value = { List (AcceptedBatch Contents) };

    ghost view = { λ l. l.holds.batches };
}

impl BatchList {
    /// No batches. This takes no memory.
    pub fn new(alloc: Global) -> BatchList
        ensures { result ≡ [] }
    {
        BatchList {
            bytes: Vec::new(alloc),
            ends: Vec::new(alloc),
        }
    }

    /// Makes room for `batches` more batches, which have `bytes` bytes in all: each has its own bytes, and one for its
    /// flag. This only saves growth later: the list asks for more memory by itself.
    pub fn reserve(&mut self, batches: usize, bytes: usize) -> Result<(), NoMemory>
        // Room that is made shows nothing: a caller may leave this out.
        ensures { self.new ≡ self.old }
    {
        self.bytes.reserve(bytes)?;
        self.ends.reserve(batches)?;
        Ok(())
    }

    /// Appends a copy of a batch. Where memory fails, the list stays as it was. There is no memory for a list of 2^32
    /// bytes or more.
    pub fn push(&mut self, flag: Flag, batch: &Batch) -> Result<(), NoMemory>
        // Contracts see one list, and it is the only one whose bytes, by the layout at the head of `lib.rt`, are those
        // that are kept.
        ensures ok { OnOk result (self.new ≡ self.old ++ record { flag = flag; batch = batch.now } ∷ []) }
        ensures err { OnErr result (self.new ≡ self.old) }
    {
        let begin = self.bytes.len();
        let flag = byte_of(flag);
        let own = bytes_of(batch);
        if append(&mut self.bytes, &mut self.ends, flag, own).is_err() {
            self.bytes.truncate(begin);
            return Err(NoMemory);
        }
        Ok(())
    }

    /// How many batches there are.
    pub fn len(&self) -> usize
        ensures { result ≡ length self.now }
    {
        self.ends.len()
    }

    /// The batch at a place, from 0 on.
    pub fn get(&self, at: usize) -> AcceptedBatch<AcceptedBatchRef<'_>>
        requires { at < length self.now }
        // It borrows the list's bytes, and has the batch as it was put there.
        ensures { slice_get self.now at ≡ Some result }
    {
        let part = part_at(&self.bytes, &self.ends, at);
        AcceptedBatch {
            flag: flag_of(part[0]),
            batch: AcceptedBatchRef::of(&part[1..]),
        }
    }
}

/// Appends a flag's byte and a batch's bytes to the bytes, and then their end to the ends. Where memory fails, the
/// ends stay as they were, and a part may be left at the end of the bytes.
fn append(bytes: &mut Vec<u8>, ends: &mut Vec<u32>, flag: u8, batch: &[u8]) -> Result<(), NoMemory>
    ensures ok { OnOk result (bytes.new.items ≡ bytes.old.items ++ flag ∷ batch.now) }
    ensures end { OnOk result (ends.new.items ≡ ends.old.items ++ length bytes.new.items ∷ []) }
    ensures err { OnErr result (take (length bytes.old.items) bytes.new.items ≡ bytes.old.items) }
    ensures no_end { OnErr result (ends.new.items ≡ ends.old.items) }
{
    bytes.push(flag)?;
    bytes.extend_from_slice(batch)?;
    let Ok(end) = u32::try_from(bytes.len()) else {
        return Err(NoMemory);
    };
    ends.push(end)?;
    Ok(())
}

/// The part of the bytes that holds the batch at a place: from where the batch before it ends to where it ends.
fn part_at<'a>(bytes: &'a [u8], ends: &[u32], at: usize) -> &'a [u8]
    requires at_in { at < length ends.now }
    requires rising { slice_index (0 ∷ ends.now) at ≤ slice_index ends.now at }
    requires within { slice_index ends.now at ≤ length bytes.now }
    ensures { result.now ≡ slice_range bytes.now (slice_index (0 ∷ ends.now) at) (slice_index ends.now at) }
{
    let begin = if at == 0 { 0 } else { ends[at - 1] as usize };
    &bytes[begin..ends[at] as usize]
}
