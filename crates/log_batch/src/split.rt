//! Splits bytes into the record with which they begin and the bytes after it.

ghost use Rattle.std.specs.Prelude.{◌≡◌, ◌<◌, ◌^◌, ◌++◌, true, length, is_some, IfOk, IfErr, IfSome};
ghost use Rattle.model_base.specs.Varint.{varint};
ghost use Rattle.model_base.specs.Batch as model;
ghost use Rattle.log_batch.specs.View.{record_of};

use crate::RecordView;
use crate::record_bytes::{
    DELETION, DELETION_IN, LOG_DATA, SINGLE_DELETION, SINGLE_DELETION_IN, VALUE, VALUE_IN,
};
use base_bytes::get_varint32;
use model_base::{BatchError, CodeError};

/// The string with which the bytes begin, after its length, and the bytes after the string.
fn split_varstring(bytes: &[u8]) -> Result<(&[u8], &[u8]), BatchError>
    ensures spelled { IfOk result (λ p. bytes.now ≡ model.varstring p.0.now ++ p.1.now) }
    ensures short { IfOk result (λ p. length p.0.now < 2 ^ 32) }
    ensures err { IfErr result (model.NoVarstring bytes.now) }
{
    match get_varint32(bytes, 0) {
        Ok((len, at)) if len as usize <= bytes.len() - at => {
            Ok(bytes[at..].split_at(len as usize))
        }
        Ok(_) | Err(CodeError::Short) => Err(BatchError::Short),
        Err(CodeError::NotShortest | CodeError::TooLong) => Err(BatchError::BadVarint),
    }
}

/// The number with which the bytes begin, and the bytes after it.
fn split_number(bytes: &[u8]) -> Result<(u32, &[u8]), BatchError>
    ensures spelled { IfOk result (λ p. bytes.now ≡ varint p.0 ++ p.1.now) }
    ensures fits { IfOk result (λ p. p.0 < 2 ^ 32) }
    ensures err { IfErr result (model.NoFamily bytes.now) }
{
    match get_varint32(bytes, 0) {
        Ok((n, at)) => Ok((n, &bytes[at..])),
        Err(CodeError::Short) => Err(BatchError::Short),
        Err(CodeError::NotShortest | CodeError::TooLong) => Err(BatchError::BadVarint),
    }
}

/// The family that these bytes, which follow a tag, begin with, if the tag says that one is named, and the bytes after
/// it.
fn split_family(tag: u8, bytes: &[u8]) -> Result<(Option<u32>, &[u8]), BatchError>
    ensures spelled { IfOk result (λ p. bytes.now ≡ model.family_bytes p.0 ++ p.1.now) }
    ensures named { IfOk result (λ p. is_some p.0 ≡ model.names_family tag) }
    ensures fits { IfOk result (λ p. IfSome p.0 (λ family. family < 2 ^ 32)) }
    ensures err { IfErr result (λ e. (model.names_family tag ≡ true) × model.NoFamily bytes.now e) }
{
    match tag {
        DELETION_IN | VALUE_IN | SINGLE_DELETION_IN => {
            let (family, rest) = split_number(bytes)?;
            Ok((Some(family), rest))
        }
        _ => Ok((None, bytes)),
    }
}

/// The record with which the bytes begin, and the bytes after it.
pub fn split_record(bytes: &[u8]) -> Result<(RecordView<'_>, &[u8]), BatchError>
    requires { 0 < length bytes.now }
    // The bytes spell the record and go on with what is handed back.
    ensures spelled { IfOk result (λ p. bytes.now ≡ model.record_bytes (record_of p.0) ++ p.1.now) }
    ensures readable { IfOk result (λ p. model.IsReadable (record_of p.0)) }
    // There is no record at the front, and this says why.
    ensures err { IfErr result (model.NoRecord bytes.now) }
{
    let tag = bytes[0];
    let (family, strings) = split_family(tag, &bytes[1..])?;
    match tag {
        DELETION | DELETION_IN => {
            let (key, rest) = split_varstring(strings)?;
            Ok((RecordView::Deletion { family, key }, rest))
        }
        VALUE | VALUE_IN => {
            let (key, behind) = split_varstring(strings)?;
            let (value, rest) = split_varstring(behind)?;
            Ok((RecordView::Value { family, key, value }, rest))
        }
        LOG_DATA => {
            let (blob, rest) = split_varstring(strings)?;
            Ok((RecordView::LogData { blob }, rest))
        }
        SINGLE_DELETION | SINGLE_DELETION_IN => {
            let (key, rest) = split_varstring(strings)?;
            Ok((RecordView::SingleDeletion { family, key }, rest))
        }
        tag => Err(BatchError::Tag(tag)),
    }
}
