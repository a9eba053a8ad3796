//! Building a batch.
//!
//! The calls that add are one function, `add`, called with what each of them adds. Where the handle holds no
//! batch, each call here but `wz_batch_new` answers `CLOSED`, and the handle holds what it held. Of these calls only
//! `wz_batch_append` looks at its bytes first.

ghost use Rattle.std.specs.Prelude.{◌≡◌, ◌≢◌, ◌<◌, ◌≤◌, ◌^◌, ◌-◌, ℕ, List, [], ◌∷◌, length, min, OnOk, OnErr, IsOkUnless, None, MatchOption};
ghost use Rattle.model_base.specs.Batch as model;
ghost use Rattle.model_base.specs.Map.{named as named_family};
ghost use Rattle.log_batch.specs.Contents.{empty, with_additions, size_with_all};
ghost use Rattle.wolzenn_c.specs.Objects.{as_batch};
ghost use Rattle.wolzenn_c.specs.Batches.{holding, bytes_of, AddsTo, Adds, Changes};
ghost use Rattle.wolzenn_c.specs.Buffers.{Copies};
ghost use Rattle.wolzenn_c.specs.Additions.{records_in};

use crate::batch_bytes::WzBatchHead;
use crate::buffer::copy_to;
use crate::codes::{CLOSED, DONE, NO_BATCH, NO_MEMORY, TOO_LARGE};
use crate::handle::WzHandle;
use crate::object::Object;
use log_batch::{AddError, Batch, BatchView, RecordView, named, read_batch};
use model_base::{BatchError, MAX_SIZE};
use std::alloc::Global;

/// What is added to a batch in one call.
#[derive(Drop)]
enum Addition<'a> {
    /// A record.
    Record(RecordView<'a>),
    /// The records of a batch.
    Batch(BatchView<'a>),
}

/// Opens a batch of no records, with the sequence 0.
///
/// What the handle held before is freed. `DONE`: the handle holds the batch. `NO_MEMORY`: it holds nothing.
#[unsafe(no_mangle)]
pub extern "C" fn wz_batch_new(alloc: Global, handle: &mut WzHandle) -> u32
    ensures done { result ≡ DONE → handle.new.held.object ≡ holding empty }
    ensures failed { result ≢ DONE → (result ≡ NO_MEMORY) × (handle.new.held.object ≡ None) }
{
    handle.clear(alloc);
    let Ok(batch) = Batch::new(alloc) else {
        return NO_MEMORY;
    };
    let Ok(object) = Box::new(alloc, Object::Batch(batch)) else {
        return NO_MEMORY;
    };
    handle.put(alloc, object);
    DONE
}

/// Adds a key with its value after the other records.
///
/// `DONE`. `TOO_LARGE`: the batch would have more than `MAX_SIZE` bytes. `NO_MEMORY`. After the last two the batch is
/// as it was.
#[unsafe(no_mangle)]
pub extern "C" fn wz_batch_put(
    alloc: Global,
    handle: &mut WzHandle,
    key: &[u8],
    value: &[u8],
) -> u32
    // `TOO_LARGE` always comes where the batch would have more than `MAX_SIZE` bytes. Where it would not, the records
    // are added, or there is no memory.
    ensures { Adds handle.old.held.object (model.value None key.now value.now ∷ []) result handle.new.held.object }
{
    let view = RecordView::Value {
        family: None,
        key,
        value,
    };
    add(alloc, handle, Addition::Record(view))
}

/// Adds a key of a column family with its value after the other records. The default family is 0, and the record names
/// no family then: it is that of `wz_batch_put`. It answers like `wz_batch_put`.
#[unsafe(no_mangle)]
pub extern "C" fn wz_batch_put_cf(
    alloc: Global,
    handle: &mut WzHandle,
    family: u32,
    key: &[u8],
    value: &[u8],
) -> u32
    ensures { Adds handle.old.held.object (model.value (named_family family) key.now value.now ∷ [])
        result handle.new.held.object }
{
    let view = RecordView::Value {
        family: named(family),
        key,
        value,
    };
    add(alloc, handle, Addition::Record(view))
}

/// Adds a deletion of a key after the other records. It answers like `wz_batch_put`.
#[unsafe(no_mangle)]
pub extern "C" fn wz_batch_delete(alloc: Global, handle: &mut WzHandle, key: &[u8]) -> u32
    ensures { Adds handle.old.held.object (model.deletion None key.now ∷ []) result handle.new.held.object }
{
    let view = RecordView::Deletion { family: None, key };
    add(alloc, handle, Addition::Record(view))
}

/// Adds a deletion of a key of a column family after the other records, as `wz_batch_put_cf` adds a value.
#[unsafe(no_mangle)]
pub extern "C" fn wz_batch_delete_cf(
    alloc: Global,
    handle: &mut WzHandle,
    family: u32,
    key: &[u8],
) -> u32
    ensures { Adds handle.old.held.object (model.deletion (named_family family) key.now ∷ [])
        result handle.new.held.object }
{
    let view = RecordView::Deletion {
        family: named(family),
        key,
    };
    add(alloc, handle, Addition::Record(view))
}

/// Adds a single deletion of a key after the other records. It answers like `wz_batch_put`.
#[unsafe(no_mangle)]
pub extern "C" fn wz_batch_single_delete(alloc: Global, handle: &mut WzHandle, key: &[u8]) -> u32
    ensures { Adds handle.old.held.object (model.single_deletion None key.now ∷ []) result handle.new.held.object }
{
    let view = RecordView::SingleDeletion { family: None, key };
    add(alloc, handle, Addition::Record(view))
}

/// Adds a single deletion of a key of a column family after the other records, as `wz_batch_put_cf` adds a value.
#[unsafe(no_mangle)]
pub extern "C" fn wz_batch_single_delete_cf(
    alloc: Global,
    handle: &mut WzHandle,
    family: u32,
    key: &[u8],
) -> u32
    ensures { Adds handle.old.held.object (model.single_deletion (named_family family) key.now ∷ [])
        result handle.new.held.object }
{
    let view = RecordView::SingleDeletion {
        family: named(family),
        key,
    };
    add(alloc, handle, Addition::Record(view))
}

/// Adds log data, which takes no sequence, after the other records. It answers like `wz_batch_put`.
#[unsafe(no_mangle)]
pub extern "C" fn wz_batch_log_data(alloc: Global, handle: &mut WzHandle, blob: &[u8]) -> u32
    ensures { Adds handle.old.held.object (model.log_data blob.now ∷ []) result handle.new.held.object }
{
    let view = RecordView::LogData { blob };
    add(alloc, handle, Addition::Record(view))
}

/// Adds the records of another batch, of which these are the bytes, after the other records. The sequence in the bytes
/// isn't looked at.
///
/// `NO_BATCH`: the bytes are no batch, whatever the handle holds, and it still holds that. Otherwise it answers like
/// `wz_batch_put`.
#[unsafe(no_mangle)]
pub extern "C" fn wz_batch_append(alloc: Global, handle: &mut WzHandle, bytes: &[u8]) -> u32
    // If it answers this, it is true.
    ensures no_batch { result ≡ NO_BATCH → (error : BatchError) × model.IsBatchError bytes.now error }
    ensures batch { result ≢ NO_BATCH
        → (sequence : ℕ) × (records : List model.Record) × model.IsBatch bytes.now sequence records }

    // If it is true, it answers this.
    ensures adds { (sequence : ℕ) (records : List model.Record) → model.IsBatch bytes.now sequence records
        → Adds handle.old.held.object records result handle.new.held.object }
    ensures refuses { (error : BatchError) → model.IsBatchError bytes.now error
        → (result ≡ NO_BATCH) × (handle.new.held.object ≡ handle.old.held.object) }
{
    match read_batch(bytes) {
        Ok(view) => add(alloc, handle, Addition::Batch(view)),
        Err(_) => NO_BATCH,
    }
}

/// Adds to the batch in a handle, if it holds one.
fn add(alloc: Global, handle: &mut WzHandle, addition: Addition<'_>) -> u32
    ensures added { Adds handle.old.held.object (records_in addition.entry) result handle.new.held.object }
    ensures never_no_batch { result ≢ NO_BATCH }
{
    let Some(mut object) = handle.take(alloc) else {
        return CLOSED;
    };
    let code = match &mut *object {
        Object::Batch(batch) => add_to(batch, addition),
        Object::Reader(_) | Object::Scan(_) | Object::Recovery(_) => CLOSED,
    };
    handle.put(alloc, object);
    code
}

/// Adds to a batch, and answers with the code for the result.
fn add_to(batch: &mut Batch, addition: Addition<'_>) -> u32
    ensures added { AddsTo batch.old (records_in addition.entry) result (holding batch.new) }
    ensures never_no_batch { result ≢ NO_BATCH }
{
    match put_behind(batch, addition) {
        Ok(()) => DONE,
        Err(AddError::TooLarge { .. }) => TOO_LARGE,
        Err(AddError::NoMemory) => NO_MEMORY,
    }
}

/// Adds after the other records, by the batch's own call for this.
fn put_behind(batch: &mut Batch, addition: Addition<'_>) -> Result<(), AddError>
    ensures ok { OnOk result (batch.new ≡ with_additions batch.old (records_in addition.entry)) }
    ensures err { OnErr result (batch.new ≡ batch.old) }
    ensures too_large { let size = size_with_all batch.old (records_in addition.entry) in
        MAX_SIZE < size → result ≡ Err (AddError.TooLarge (min size (2 ^ 64 - 1))) }
    ensures fits { size_with_all batch.old (records_in addition.entry) ≤ MAX_SIZE
        → IsOkUnless result AddError.NoMemory }
{
    match addition {
        Addition::Record(view) => batch.add(view),
        Addition::Batch(other) => batch.append(&other),
    }
}

/// Takes all records out of the batch, and sets its sequence to 0. `DONE`.
#[unsafe(no_mangle)]
pub extern "C" fn wz_batch_clear(alloc: Global, handle: &mut WzHandle) -> u32
    ensures { Changes (λ _. empty) handle.old.held.object result handle.new.held.object }
{
    let Some(mut object) = handle.take(alloc) else {
        return CLOSED;
    };
    let code = match &mut *object {
        Object::Batch(batch) => {
            batch.clear();
            DONE
        }
        Object::Reader(_) | Object::Scan(_) | Object::Recovery(_) => CLOSED,
    };
    handle.put(alloc, object);
    code
}

/// Sets the batch's sequence, which is that of its first record that counts, and changes nothing else. `DONE`.
#[unsafe(no_mangle)]
pub extern "C" fn wz_batch_set_sequence(alloc: Global, handle: &mut WzHandle, sequence: u64) -> u32
    ensures { Changes (λ contents. record contents { sequence = sequence })
        handle.old.held.object result handle.new.held.object }
{
    let Some(mut object) = handle.take(alloc) else {
        return CLOSED;
    };
    let code = match &mut *object {
        Object::Batch(batch) => {
            batch.set_sequence(sequence);
            DONE
        }
        Object::Reader(_) | Object::Scan(_) | Object::Recovery(_) => CLOSED,
    };
    handle.put(alloc, object);
    code
}

/// The batch's sequence, and how many of its records count. `DONE`.
#[unsafe(no_mangle)]
pub extern "C" fn wz_batch_get(alloc: Global, handle: &mut WzHandle, head: &mut WzBatchHead) -> u32
    ensures same { handle.new.held.object ≡ handle.old.held.object }
    ensures told { MatchOption (as_batch handle.old.held.object) ((result ≡ CLOSED) × (head.new ≡ head.old))
        (λ b. (result ≡ DONE) × (head.new ≡ record { sequence = b.sequence; count = model.count_of b.records })) }
{
    let Some(object) = handle.take(alloc) else {
        return CLOSED;
    };
    let code = match &*object {
        Object::Batch(batch) => {
            head.sequence = batch.sequence();
            head.count = batch.count();
            DONE
        }
        Object::Reader(_) | Object::Scan(_) | Object::Recovery(_) => CLOSED,
    };
    handle.put(alloc, object);
    code
}

/// How many bytes the batch has. `DONE`.
#[unsafe(no_mangle)]
pub extern "C" fn wz_batch_len(alloc: Global, handle: &mut WzHandle, len: &mut usize) -> u32
    ensures same { handle.new.held.object ≡ handle.old.held.object }
    ensures told { MatchOption (as_batch handle.old.held.object) ((result ≡ CLOSED) × (len.new ≡ len.old))
        (λ b. (result ≡ DONE) × (len.new ≡ length (bytes_of b))) }
{
    let Some(object) = handle.take(alloc) else {
        return CLOSED;
    };
    let code = match &*object {
        Object::Batch(batch) => {
            *len = batch.bytes().len();
            DONE
        }
        Object::Reader(_) | Object::Scan(_) | Object::Recovery(_) => CLOSED,
    };
    handle.put(alloc, object);
    code
}

/// Copies the batch's bytes to the start of the caller's buffer, and touches nothing after them.
///
/// `DONE`. `SMALL`: the buffer has fewer bytes than the batch, and none was written.
#[unsafe(no_mangle)]
pub extern "C" fn wz_batch_bytes(alloc: Global, handle: &mut WzHandle, buffer: &mut [u8]) -> u32
    ensures same { handle.new.held.object ≡ handle.old.held.object }
    ensures copied { MatchOption (as_batch handle.old.held.object) ((result ≡ CLOSED) × (buffer.new ≡ buffer.old))
        (λ b. Copies (bytes_of b) buffer.old result buffer.new) }
{
    let Some(object) = handle.take(alloc) else {
        return CLOSED;
    };
    let code = match &*object {
        Object::Batch(batch) => copy_to(batch.bytes(), buffer),
        Object::Reader(_) | Object::Scan(_) | Object::Recovery(_) => CLOSED,
    };
    handle.put(alloc, object);
    code
}
