//! The bytes of a record in a batch: a tag, the number of a column family if the tag says that one follows, and one or
//! two strings, each after its length. The tags are those of `ValueType` in RocksDB's db/dbformat.h.

ghost use Rattle.std.specs.Prelude.{◌≡◌, ◌<◌, ◌^◌, ◌-◌, ◌+◌, ◌∷◌, ◌++◌, ◌≤◌, length, take, min, flat_map, OnOk, OnErr, IfSome};
ghost use Rattle.model_base.specs.Batch as model;
ghost use Rattle.log_batch.specs.View.{record_of};

use crate::RecordView;
use base_bytes::{Bytes, put_varint32, varint32_len};
use model_base::NoMemory;

/// The tag of a deletion of a key.
pub const DELETION: u8 = 0;

/// The tag of an addition of a key and its value.
pub const VALUE: u8 = 1;

/// The tag of log data.
pub const LOG_DATA: u8 = 3;

/// The tag of a deletion of a key of a named family, `kTypeColumnFamilyDeletion`.
pub const DELETION_IN: u8 = 4;

/// The tag of an addition of a key of a named family and its value, `kTypeColumnFamilyValue`.
pub const VALUE_IN: u8 = 5;

/// The tag of a single deletion of a key.
pub const SINGLE_DELETION: u8 = 7;

/// The tag of a single deletion of a key of a named family, `kTypeColumnFamilySingleDeletion`.
pub const SINGLE_DELETION_IN: u8 = 8;

/// The tag of a record.
fn tag_of(view: RecordView<'_>) -> u8
    ensures { result ≡ model.tag_of (record_of view.entry) }
{
    match view {
        RecordView::Value { family: None, .. } => VALUE,
        RecordView::Value {
            family: Some(_),
            ..
        } => VALUE_IN,
        RecordView::Deletion { family: None, .. } => DELETION,
        RecordView::Deletion {
            family: Some(_),
            ..
        } => DELETION_IN,
        RecordView::SingleDeletion { family: None, .. } => SINGLE_DELETION,
        RecordView::SingleDeletion {
            family: Some(_),
            ..
        } => SINGLE_DELETION_IN,
        RecordView::LogData { .. } => LOG_DATA,
    }
}

/// How many bytes a family's number has, if a family is named.
fn family_len(named: Option<u32>) -> u64
    ensures value { result ≡ length (model.family_bytes named) }
    ensures few { result ≤ 5 }
    ensures fits { IfSome named (λ family. family < 2 ^ 32) }
{
    match named {
        None => 0,
        Some(family) => varint32_len(u64::from(family)),
    }
}

/// How many bytes a string has with its length before it. A length of 2^32 or more has no varint32, and counts as one
/// of five bytes.
fn varstring_len(string: &[u8]) -> u64
    ensures { result ≡ length (model.varstring string.now) }
{
    let len = string.len() as u64;
    varint32_len(len) + len
}

/// `size` plus the number of the record's bytes. A number above the greatest u64 is given as the greatest u64.
pub fn size_with_record(size: u64, view: RecordView<'_>) -> u64
    ensures size { result ≡ min (size + length (model.record_bytes (record_of view.entry))) (2 ^ 64 - 1) }
    ensures fits { IfSome (model.named_by (record_of view.entry)) (λ family. family < 2 ^ 32) }
{
    let size = size.saturating_add(1 + family_len(view.family()));
    match view {
        RecordView::Value { key, value, .. } => size
            .saturating_add(varstring_len(key))
            .saturating_add(varstring_len(value)),
        RecordView::Deletion { key, .. } => size.saturating_add(varstring_len(key)),
        RecordView::SingleDeletion { key, .. } => size.saturating_add(varstring_len(key)),
        RecordView::LogData { blob } => size.saturating_add(varstring_len(blob)),
    }
}

/// Appends a string to the bytes, with its length before it.
fn append_varstring(bytes: &mut Bytes, string: &[u8]) -> Result<(), NoMemory>
    requires { length string.now < 2 ^ 32 }
    ensures ok { OnOk result (bytes.new ≡ bytes.old ++ model.varstring string.now) }
    ensures err { OnErr result (take (length bytes.old) bytes.new ≡ bytes.old) }
{
    put_varint32(bytes, string.len() as u32)?;
    bytes.append(string)
}

/// Appends a record's tag, and the number of its family, if it names one.
fn append_tag(bytes: &mut Bytes, view: RecordView<'_>) -> Result<(), NoMemory>
    ensures ok { OnOk result (bytes.new ≡ bytes.old
        ++ (model.tag_of (record_of view.entry) ∷ model.family_bytes (model.named_by (record_of view.entry)))) }
    ensures err { OnErr result (take (length bytes.old) bytes.new ≡ bytes.old) }
{
    bytes.append(&[tag_of(view)])?;
    match view.family() {
        None => Ok(()),
        Some(family) => put_varint32(bytes, family),
    }
}

/// Appends a record's strings.
fn append_strings(bytes: &mut Bytes, view: RecordView<'_>) -> Result<(), NoMemory>
    requires { length (flat_map model.varstring (model.strings_of (record_of view))) < 2 ^ 32 }
    ensures ok { OnOk result (bytes.new ≡ bytes.old
        ++ flat_map model.varstring (model.strings_of (record_of view.entry))) }
    ensures err { OnErr result (take (length bytes.old) bytes.new ≡ bytes.old) }
{
    match view {
        RecordView::Value { key, value, .. } => {
            append_varstring(bytes, key)?;
            append_varstring(bytes, value)
        }
        RecordView::Deletion { key, .. } => append_varstring(bytes, key),
        RecordView::SingleDeletion { key, .. } => append_varstring(bytes, key),
        RecordView::LogData { blob } => append_varstring(bytes, blob),
    }
}

/// Appends a record to the bytes. If memory runs out, a part of the record may have been appended.
pub fn append_record(bytes: &mut Bytes, view: RecordView<'_>) -> Result<(), NoMemory>
    requires { length (model.record_bytes (record_of view)) < 2 ^ 32 }
    ensures ok { OnOk result (bytes.new ≡ bytes.old ++ model.record_bytes (record_of view.entry)) }
    ensures err { OnErr result (take (length bytes.old) bytes.new ≡ bytes.old) }
{
    append_tag(bytes, view)?;
    append_strings(bytes, view)
}
