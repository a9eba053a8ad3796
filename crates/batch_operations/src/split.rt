//! Splits bytes into the operation with which they begin and the bytes after it.

ghost use Rattle.std.specs.Prelude.{◌≡◌, ◌<◌, ◌≤◌, ◌^◌, ◌++◌, true, length, flat_map, is_some, IfOk, IfErr, IfSome};
ghost use Rattle.std.specs.List.{AllByRecursion};
ghost use Rattle.model_base.specs.Varint.{varint};
ghost use Rattle.model_base.specs.Batch as model;
ghost use Rattle.batch_operations.specs.Operations.{IsOperation, NoOperation, operation_bytes};
ghost use Rattle.batch_operations.specs.View.{operation_of, strings_of};

use crate::layout::layout_of;
use crate::view::{OperationView, Strings};
use base_bytes::get_varint32;
use model_base::{BatchError, CodeError};

/// The string with which the bytes begin, after its length, and the bytes after the string.
fn split_string(bytes: &[u8]) -> Result<(&[u8], &[u8]), BatchError>
    ensures spelled { IfOk result (λ p. bytes.now ≡ model.varstring p.0.now ++ p.1.now) }
    ensures short { IfOk result (λ p. length p.0.now < 2 ^ 32) }
    ensures err { IfErr result (model.NoVarstring bytes.now) }
{
    match get_varint32(bytes, 0) {
        Ok((len, at)) if len as usize <= bytes.len() - at => {
            Ok(bytes[at..].split_at(len as usize))
        }
        Ok(_) | Err(CodeError::Short) => Err(BatchError::Short),
        Err(CodeError::NotShortest | CodeError::TooLong) => Err(BatchError::BadVarint),
    }
}

/// The strings with which the bytes begin, none, one or two, and the bytes after them.
fn split_strings(count: u8, bytes: &[u8]) -> Result<(Strings<'_>, &[u8]), BatchError>
    requires { count ≤ 2 }
    ensures spelled { IfOk result (λ p. bytes.now ≡ flat_map model.varstring (strings_of p.0) ++ p.1.now) }
    ensures as_many { IfOk result (λ p. length (strings_of p.0) ≡ count) }
    ensures short { IfOk result (λ p. AllByRecursion (λ s. length s < 2 ^ 32) (strings_of p.0)) }
    ensures err { IfErr result (model.StringsBreak count bytes.now) }
{
    match count {
        0 => Ok((Strings::None, bytes)),
        1 => {
            let (only, rest) = split_string(bytes)?;
            Ok((Strings::One(only), rest))
        }
        _ => {
            let (first, later) = split_string(bytes)?;
            let (second, rest) = split_string(later)?;
            Ok((Strings::Two(first, second), rest))
        }
    }
}

/// The family with which the bytes begin, if one is named, and the bytes after it.
fn split_family(names_one: bool, bytes: &[u8]) -> Result<(Option<u32>, &[u8]), BatchError>
    ensures spelled { IfOk result (λ p. bytes.now ≡ model.family_bytes p.0 ++ p.1.now) }
    ensures named { IfOk result (λ p. is_some p.0 ≡ names_one) }
    ensures fits { IfOk result (λ p. IfSome p.0 (λ family. family < 2 ^ 32)) }
    ensures err { IfErr result (λ e. (names_one ≡ true) × model.NoFamily bytes.now e) }
{
    if !names_one {
        return Ok((None, bytes));
    }
    match get_varint32(bytes, 0) {
        Ok((family, at)) => Ok((Some(family), &bytes[at..])),
        Err(CodeError::Short) => Err(BatchError::Short),
        Err(CodeError::NotShortest | CodeError::TooLong) => Err(BatchError::BadVarint),
    }
}

/// The operation with which the bytes begin, and the bytes after it. Nothing is copied.
///
/// The error is the first one from the front: `Tag` where the tag isn't known, `Short` where a number or a string ends
/// early, and `BadVarint` where a number isn't spelled right.
pub fn split_operation(bytes: &[u8]) -> Result<(OperationView<'_>, &[u8]), BatchError>
    requires { 0 < length bytes.now }
    // The bytes spell the operation and go on with what is handed back.
    ensures spelled { IfOk result (λ p. bytes.now ≡ operation_bytes (operation_of p.0) ++ p.1.now) }
    ensures is { IfOk result (λ p. IsOperation (operation_of p.0)) }
    // There is no operation at the front, and this says why.
    ensures err { IfErr result (NoOperation bytes.now) }
{
    let tag = bytes[0];
    let Some(layout) = layout_of(tag) else {
        return Err(BatchError::Tag(tag));
    };
    let (family, later) = split_family(layout.names_family, &bytes[1..])?;
    let (strings, rest) = split_strings(layout.strings, later)?;
    Ok((
        OperationView {
            tag,
            family,
            strings,
        },
        rest,
    ))
}
