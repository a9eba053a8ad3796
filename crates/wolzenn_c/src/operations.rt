//! Reading the bytes of a batch whatever its operations are: of all kinds that RocksDB writes, also those that recovery
//! doesn't apply. Nothing is copied, and no memory is taken.

ghost use Rattle.std.specs.Prelude.{◌≡◌, ◌≢◌, ◌≤◌, ◌<◌, ◌++◌, ◌⊎◌, ◌↔◌, List, ℕ, length, drop};
ghost use Rattle.batch_operations.specs.Operations.{Operation, IsOperation, NoOperation, operation_bytes};
ghost use Rattle.batch_operations.specs.Shown.{sequence_in, count_in};
ghost use Rattle.batch_operations.specs.View.{operation_of};
ghost use Rattle.wolzenn_c.specs.BatchBytes.{reason_of as log_reason};
ghost use Rattle.wolzenn_c.specs.Operations.{ShowsOperation, IsOperationBetween, sequences_of};
ghost use Rattle.wolzenn_c.specs.Reasons.{end_of as end_in_numbers};

use crate::batch_bytes::{WzBatchHead, reason_of};
use crate::codes::{DONE, END, NO_BATCH, RANGE, WzEnd, end_of};
use base_bytes::varint32_len;
use batch_operations::{OperationView, Strings, layout_of, read_head, split_operation};
use model_base::BatchError;

/// An operation of a batch: its tag, the column family that it names, how many sequences it takes, how many strings
/// follow, and where in the batch's bytes these are. The family is 0, which is the default one, where it names none. An
/// operation takes one sequence or none, and has two strings at most. The place and the length of a string that it
/// hasn't are 0.
#[repr(C)]
#[derive(Clone, Copy, Debug)]
pub struct WzOperation {
    pub tag: u32,
    pub family: u32,
    pub sequences: u32,
    pub strings: u32,
    pub first_at: usize,
    pub first_len: usize,
    pub second_at: usize,
    pub second_len: usize,
}

/// The sequence and the count that the header of a batch's bytes says, whatever comes after it: also where an operation
/// ends early or has a tag that isn't known, and where the count is another one than that of the operations.
///
/// `DONE`. `NO_BATCH`: there are fewer bytes than a header has, and `head` stays as it was.
#[unsafe(no_mangle)]
pub extern "C" fn wz_batch_read_head(bytes: &[u8], head: &mut WzBatchHead) -> u32
    ensures done { 12 ≤ length bytes.now
        → (result ≡ DONE) × (head.new ≡ record { sequence = sequence_in bytes.now; count = count_in bytes.now }) }
    ensures short { length bytes.now < 12 → (result ≡ NO_BATCH) × (head.new ≡ head.old) }
{
    match read_head(bytes) {
        Some((said, _)) => {
            head.sequence = said.sequence;
            head.count = said.count;
            DONE
        }
        None => NO_BATCH,
    }
}

/// The operation at the place `at` of a batch's bytes. For the first one this is the place after the batch's header. At
/// a place where none begins, the bytes are read as if one did.
///
/// `DONE`: `operation` is the operation, and where in the bytes its strings are; the place is moved to its end. `END`:
/// the place is the end of the bytes. `RANGE`: it is past their end. `NO_BATCH`: no operation is there whose layout is
/// known, and `why` is the fault, with the place as its offset.
#[unsafe(no_mangle)]
pub extern "C" fn wz_operation_next(
    bytes: &[u8],
    at: &mut usize,
    operation: &mut WzOperation,
    why: &mut WzEnd,
) -> u32
    // What is true if it answers this, and what it may answer before the end.
    ensures done { result ≡ DONE → IsOperationBetween bytes.now at.old at.new operation.new }
    ensures no_batch { result ≡ NO_BATCH → (error : BatchError) × NoOperation (drop at.old bytes.now) error
        × (why.new ≡ end_in_numbers at.old (log_reason error)) }
    ensures before_end { at.old < length bytes.now → (result ≡ DONE) ⊎ (result ≡ NO_BATCH) }

    // If it is true, it answers this.
    ensures end { (result ≡ END) ↔ (at.old ≡ length bytes.now) }
    ensures range { (result ≡ RANGE) ↔ (length bytes.now < at.old) }
    ensures reads { (found : Operation) (rest : List ℕ) → IsOperation found
        → drop at.old bytes.now ≡ operation_bytes found ++ rest → result ≡ DONE }
    ensures refuses { (error : BatchError) → NoOperation (drop at.old bytes.now) error → result ≡ NO_BATCH }

    // What an answer doesn't set stays as it was.
    ensures place_and_operation { result ≢ DONE → (at.new ≡ at.old) × (operation.new ≡ operation.old) }
    ensures reason { result ≢ NO_BATCH → why.new ≡ why.old }
{
    let place = *at;
    if place > bytes.len() {
        return RANGE;
    }
    if place == bytes.len() {
        return END;
    }
    match split_operation(&bytes[place..]) {
        Ok((view, rest)) => {
            let end = bytes.len() - rest.len();
            *operation = operation_before(view, end);
            *at = end;
            DONE
        }
        Err(error) => {
            *why = end_of(place as u64, reason_of(error));
            NO_BATCH
        }
    }
}

/// An operation that ends at the place `end` of some bytes, with the places of its strings in them. They are counted
/// back from this end.
fn operation_before(view: OperationView<'_>, end: usize) -> WzOperation
    requires { length (operation_bytes (operation_of view)) ≤ end }
    ensures { let spelling = operation_bytes (operation_of view.entry) in
        (front rest : List ℕ) → end ≡ length (front ++ spelling)
        → ShowsOperation (front ++ spelling ++ rest) (length front) result (operation_of view.entry) }
{
    let (tag, family) = (u32::from(view.tag), view.family.unwrap_or(0));
    let sequences = sequences(view.tag);
    match view.strings {
        Strings::None => WzOperation {
            tag,
            family,
            sequences,
            strings: 0,
            first_at: 0,
            first_len: 0,
            second_at: 0,
            second_len: 0,
        },
        Strings::One(only) => WzOperation {
            tag,
            family,
            sequences,
            strings: 1,
            first_at: end - only.len(),
            first_len: only.len(),
            second_at: 0,
            second_len: 0,
        },
        Strings::Two(first, second) => {
            let second_at = end - second.len();
            let first_end = second_at - varint32_len(second.len() as u64) as usize;
            WzOperation {
                tag,
                family,
                sequences,
                strings: 2,
                first_at: first_end - first.len(),
                first_len: first.len(),
                second_at,
                second_len: second.len(),
            }
        }
    }
}

/// How many sequences an operation with this tag takes.
fn sequences(tag: u8) -> u32
    ensures { result ≡ sequences_of tag }
{
    match layout_of(tag) {
        Some(layout) if layout.counts => 1,
        _ => 0,
    }
}
