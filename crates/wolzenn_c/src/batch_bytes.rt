//! Reading the bytes of a batch. Nothing is copied, and no memory is taken.

ghost use Rattle.std.specs.Prelude.{◌≡◌, ◌≢◌, ◌≤◌, ◌<◌, ◌+◌, ◌++◌, ◌⊎◌, ◌↔◌, ℕ, List, length, drop};
ghost use Rattle.model_base.specs.Batch.{Record, IsBatch, IsBatchError, IsReadable, NoRecord, record_bytes, tag_of, count_of};
ghost use Rattle.log_batch.specs.View.{record_of};
ghost use Rattle.wolzenn_c.specs.BatchBytes.{reason_of as log_reason, Shows, IsRecordBetween};
ghost use Rattle.wolzenn_c.specs.Reasons.{end_of as end_in_numbers};

use crate::codes::{DONE, END, NO_BATCH, RANGE, WzEnd, end_of};
use base_bytes::varint32_len;
use log_batch::{RecordView, read_batch, split_record};
use model_base::{BatchError, EndReason};

/// It takes a key out.
const DELETION: u32 = 0;

/// It gives a key a value.
const VALUE: u32 = 1;

/// It is in the log only.
const LOG_DATA: u32 = 3;

/// It takes a key of a family out that it names.
const DELETION_CF: u32 = 4;

/// It gives a key of a family that it names a value.
const VALUE_CF: u32 = 5;

/// It takes a key out that was set at most once.
const SINGLE_DELETION: u32 = 7;

/// It takes a key of a family out that it names, and that was set at most once.
const SINGLE_DELETION_CF: u32 = 8;

/// A batch's sequence, and how many of its records count.
#[repr(C)]
#[derive(Clone, Copy, Debug)]
pub struct WzBatchHead {
    pub sequence: u64,
    pub count: u32,
}

/// A record of a batch: what it does, the column family that it names, and where in the batch's bytes its key and its
/// value are. The family is 0, which is the default one, where the record names none.
#[repr(C)]
#[derive(Clone, Copy, Debug)]
pub struct WzOp {
    pub kind: u32,
    pub family: u32,
    pub key_at: usize,
    pub key_len: usize,
    pub value_at: usize,
    pub value_len: usize,
}

/// Looks through the bytes of a batch.
///
/// `DONE`: they are a batch, and `head` is its sequence and how many of its records count. `NO_BATCH`: they are none,
/// and `why` is the first fault, with the offset 0.
#[unsafe(no_mangle)]
pub extern "C" fn wz_batch_read(bytes: &[u8], head: &mut WzBatchHead, why: &mut WzEnd) -> u32
    // Which answers there are, and what is true if it gives them.
    ensures answers { (result ≡ DONE) ⊎ (result ≡ NO_BATCH) }
    // These are the answers of `read_batch`, both ways, in numbers.
    ensures done { result ≡ DONE → (records : List Record) × IsBatch bytes.now head.new.sequence records
        × (head.new.count ≡ count_of records) × (why.new ≡ why.old) }
    ensures no_batch { result ≡ NO_BATCH → (error : BatchError) × IsBatchError bytes.now error
        × (why.new ≡ end_in_numbers 0 (log_reason error)) × (head.new ≡ head.old) }

    // If it is true, it answers this.
    ensures reads { (sequence : ℕ) (records : List Record) → IsBatch bytes.now sequence records
        → (result ≡ DONE) × (head.new ≡ record { sequence = sequence; count = count_of records }) }
    ensures refuses { (error : BatchError) → IsBatchError bytes.now error
        → (result ≡ NO_BATCH) × (why.new ≡ end_in_numbers 0 (log_reason error)) }
{
    match read_batch(bytes) {
        Ok(view) => {
            head.sequence = view.sequence();
            head.count = view.count();
            DONE
        }
        Err(error) => {
            *why = end_of(0, reason_of(error));
            NO_BATCH
        }
    }
}

/// The record at the place `at` of a batch's bytes. For the first record this is the place after the batch's header.
/// At a place where none begins, the bytes are read as if one did.
///
/// `DONE`: `op` is what the record does, and where in the bytes its key and its value are; the place is moved to the
/// record's end. `END`: the place is the end of the bytes. `RANGE`: it is past their end. `NO_BATCH`: no record is
/// there, and `why` is the fault, with the place as its offset.
#[unsafe(no_mangle)]
pub extern "C" fn wz_batch_next(bytes: &[u8], at: &mut usize, op: &mut WzOp, why: &mut WzEnd) -> u32
    // What is true if it answers this, and what it may answer before the end.
    ensures done { result ≡ DONE → IsRecordBetween bytes.now at.old at.new op.new }
    ensures no_batch { result ≡ NO_BATCH → (error : BatchError) × NoRecord (drop at.old bytes.now) error
        × (why.new ≡ end_in_numbers at.old (log_reason error)) }
    ensures before_end { at.old < length bytes.now → (result ≡ DONE) ⊎ (result ≡ NO_BATCH) }

    // If it is true, it answers this.
    ensures end { (result ≡ END) ↔ (at.old ≡ length bytes.now) }
    ensures range { (result ≡ RANGE) ↔ (length bytes.now < at.old) }
    ensures reads { (found : Record) (rest : List ℕ) → IsReadable found
        → drop at.old bytes.now ≡ record_bytes found ++ rest → result ≡ DONE }
    ensures refuses { (error : BatchError) → NoRecord (drop at.old bytes.now) error → result ≡ NO_BATCH }

    // What an answer doesn't set stays as it was.
    ensures place_and_op { result ≢ DONE → (at.new ≡ at.old) × (op.new ≡ op.old) }
    ensures reason { result ≢ NO_BATCH → why.new ≡ why.old }
{
    let place = *at;
    if place > bytes.len() {
        return RANGE;
    }
    if place == bytes.len() {
        return END;
    }
    match split_record(&bytes[place..]) {
        Ok((view, rest)) => {
            let end = bytes.len() - rest.len();
            *op = op_of(view, end);
            *at = end;
            DONE
        }
        Err(error) => {
            *why = end_of(place as u64, reason_of(error));
            NO_BATCH
        }
    }
}

/// A record that ends at the place `end` of some bytes, with the places of its strings in them. They are counted back
/// from this end.
fn op_of(view: RecordView<'_>, end: usize) -> WzOp
    requires { length (record_bytes (record_of view)) ≤ end }
    ensures { let spelling = record_bytes (record_of view.entry) in
        (front rest : List ℕ) → end ≡ length (front ++ spelling)
        → Shows (front ++ spelling ++ rest) (length front) result (record_of view.entry) }
{
    let (kind, family) = (kind_of(view), view.family().unwrap_or(0));
    match view {
        RecordView::Value { key, value, .. } => {
            let value_at = end - value.len();
            let key_end = value_at - varint32_len(value.len() as u64) as usize;
            WzOp {
                kind,
                family,
                key_at: key_end - key.len(),
                key_len: key.len(),
                value_at,
                value_len: value.len(),
            }
        }
        RecordView::Deletion { key, .. } => op_of_key(kind, family, key, end),
        RecordView::SingleDeletion { key, .. } => op_of_key(kind, family, key, end),
        RecordView::LogData { blob } => op_of_key(kind, family, blob, end),
    }
}

/// What a record does: its tag, which says too whether it names a family.
fn kind_of(view: RecordView<'_>) -> u32
    ensures { result ≡ tag_of (record_of view.entry) }
{
    match view {
        RecordView::Value { family: None, .. } => VALUE,
        RecordView::Value { .. } => VALUE_CF,
        RecordView::Deletion { family: None, .. } => DELETION,
        RecordView::Deletion { .. } => DELETION_CF,
        RecordView::SingleDeletion { family: None, .. } => SINGLE_DELETION,
        RecordView::SingleDeletion { .. } => SINGLE_DELETION_CF,
        RecordView::LogData { .. } => LOG_DATA,
    }
}

/// The same for a record of one string.
fn op_of_key(kind: u32, family: u32, key: &[u8], end: usize) -> WzOp
    requires { length key.now ≤ end }
    ensures kind { result.kind ≡ kind }
    ensures family { result.family ≡ family }
    ensures key_at { result.key_at + length key.now ≡ end }
    ensures key_len { result.key_len ≡ length key.now }
    ensures no_value { (result.value_at ≡ 0) × (result.value_len ≡ 0) }
{
    WzOp {
        kind,
        family,
        key_at: end - key.len(),
        key_len: key.len(),
        value_at: 0,
        value_len: 0,
    }
}

/// The reason for which bytes are no batch, as a reason for which a log ends.
pub fn reason_of(error: BatchError) -> EndReason
    ensures { result ≡ log_reason error }
{
    match error {
        BatchError::Short => EndReason::Short,
        BatchError::BadVarint => EndReason::BadVarint,
        BatchError::Tag(tag) => EndReason::Tag(tag),
        BatchError::Count { said, found } => EndReason::Count { said, found },
    }
}
