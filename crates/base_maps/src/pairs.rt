//! The bytes of a pair: its key after its length, and its value after its length, each length in four bytes.

ghost use Rattle.std.specs.Prelude.{◌≡◌, ◌<◌, ◌≤◌, ◌^◌, ◌+◌, ◌-◌, ◌++◌, length, take, drop, option_map, IfOk, OnOk};
ghost use Rattle.base_maps.specs.Words.{bytes_of_word, bytes_of_pair, IsShort, read_len, read_word, read_pair};

use base_bytes::get_fixed32;
use model_base::NoMemory;
use std::alloc::Global;

/// How many bytes a length has.
const LEN_BYTES: usize = 4;

/// The length whose four bytes are at the front of some bytes, and the bytes after it.
fn split_len(bytes: &[u8]) -> Option<(u32, &[u8])>
    ensures { option_map (λ p. (p.0, p.1.now)) result ≡ read_len bytes.now }
{
    if bytes.len() < LEN_BYTES {
        return None;
    }
    let (_, rest) = bytes.split_at(LEN_BYTES);
    Some((get_fixed32(bytes, 0), rest))
}

/// The word at the front of some bytes, which has its length before it, and the bytes after the word.
fn split_word(bytes: &[u8]) -> Option<(&[u8], &[u8])>
    ensures { option_map (λ p. (p.0.now, p.1.now)) result ≡ read_word bytes.now }
{
    let (len, after) = split_len(bytes)?;
    if after.len() < len as usize {
        return None;
    }
    Some(after.split_at(len as usize))
}

/// The key and the value of the pair at the front of some bytes, and the bytes after it.
pub(crate) fn split_pair(bytes: &[u8]) -> Option<(&[u8], &[u8], &[u8])>
    ensures { option_map (λ p. ((p.0.now, p.1.now), p.2.now)) result ≡ read_pair bytes.now }
{
    let (key, after) = split_word(bytes)?;
    let (value, rest) = split_word(after)?;
    Some((key, value, rest))
}

/// Appends a word after its length. There is no memory for a word of 2^32 bytes or more.
fn append_word(bytes: &mut Vec<u8>, word: &[u8]) -> Result<(), NoMemory>
    ensures ok { OnOk result (bytes.new.items ≡ bytes.old.items ++ bytes_of_word word.now) }
    ensures short { OnOk result (length word.now < 2 ^ 32) }
{
    let Ok(len) = u32::try_from(word.len()) else {
        return Err(NoMemory);
    };
    bytes.extend_from_slice(&len.to_le_bytes())?;
    bytes.extend_from_slice(word)?;
    Ok(())
}

/// The bytes before a pair, then its own, and those after it, in a piece of memory that is just large enough. There is
/// no memory for a key or a value of 2^32 bytes or more.
pub(crate) fn joined(
    alloc: Global,
    before: &[u8],
    key: &[u8],
    value: &[u8],
    after: &[u8],
) -> Result<Vec<u8>, NoMemory>
    ensures bytes { IfOk result (λ bytes.
        bytes.items ≡ before.now ++ (bytes_of_pair (key.now, value.now) ++ after.now)) }
    ensures short { OnOk result (IsShort (key.now, value.now)) }
{
    let others = before.len().saturating_add(after.len());
    let own = key
        .len()
        .saturating_add(value.len())
        .saturating_add(2 * LEN_BYTES);
    let mut bytes = Vec::with_capacity(alloc, others.saturating_add(own))?;
    bytes.extend_from_slice(before)?;
    append_word(&mut bytes, key)?;
    append_word(&mut bytes, value)?;
    bytes.extend_from_slice(after)?;
    Ok(bytes)
}

/// Keeps the first `front` bytes and the last `back`, and takes out what is between them. Where half of their memory is
/// then free, it is given back.
pub(crate) fn keep_ends(bytes: &mut Vec<u8>, front: usize, back: usize)
    requires { front + back ≤ length bytes.old.items }
    ensures { bytes.new.items
        ≡ take front bytes.old.items ++ drop (length bytes.old.items - back) bytes.old.items }
{
    let kept = front + back;
    let own = bytes.len() - kept;
    bytes[front..].rotate_left(own);
    bytes.truncate(kept);
    if bytes.capacity() / 2 > kept {
        bytes.shrink_to_fit();
    }
}
