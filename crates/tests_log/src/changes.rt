//! Changes to logs: they are cut, bytes of them are changed, and more is added at their end. A place in a log is
//! counted from its first byte, which is at 0.

use log_block::{BLOCK_LEN, header, header_len, max_part_len};
use std::alloc::AllocError;

/// The first `len` bytes of a log. It is an error where the log has fewer.
pub(crate) fn cut_at(log: &[u8], len: usize) -> Result<&[u8], &'static str> {
    log.get(..len).ok_or("the log has fewer bytes")
}

/// Puts another byte at a place. It is an error where the log ends before it.
pub(crate) fn set_byte(log: &mut [u8], at: usize, byte: u8) -> Result<(), &'static str> {
    let place = log.get_mut(at).ok_or("the log has no such byte")?;
    *place = byte;
    Ok(())
}

/// Inverts each bit of the byte at a place. It is an error where the log ends before it.
pub(crate) fn flip_byte(log: &mut [u8], at: usize) -> Result<(), &'static str> {
    let place = log.get_mut(at).ok_or("the log has no such byte")?;
    *place ^= 0xff;
    Ok(())
}

/// Makes the checksum right of the fragment whose header is at the place `at`, by the length and the type in the
/// header, in a log without a number. It is an error where there is no whole fragment.
pub(crate) fn fix_checksum(log: &mut [u8], at: usize) -> Result<(), &'static str> {
    let rest = log.get_mut(at..).ok_or("the log has no such byte")?;
    let start = header_len(None);
    if rest.len() < start {
        return Err("the header is cut");
    }
    let end = start + usize::from(u16::from_le_bytes([rest[4], rest[5]]));
    if rest.len() < end || end - start > max_part_len(None) {
        return Err("the part is cut");
    }
    let fixed = header(None, rest[6], &rest[start..end]);
    rest[..start].copy_from_slice(fixed.as_slice());
    Ok(())
}

/// Adds `len` zeros at the end of a log.
pub(crate) fn put_zeros(log: &mut Vec<u8>, len: usize) -> Result<(), AllocError> {
    log.resize(log.len().saturating_add(len), 0)
}

/// Adds zeros at the end of a log, up to the end of its last block.
pub(crate) fn fill_block(log: &mut Vec<u8>) -> Result<(), AllocError> {
    match log.len() % BLOCK_LEN {
        0 => Ok(()),
        used => put_zeros(log, BLOCK_LEN - used),
    }
}
