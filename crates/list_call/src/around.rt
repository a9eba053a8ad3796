//! The bytes around a place of a log, on standard error.

use crate::sentences::{put, put_number};
use base_devices::{ReadAt, Sink, write_all};
use log_scan::read_front;

/// How many bytes are shown before the place, and after it.
const HALF: usize = 16;

/// Says the bytes around a place of a log, sixteen before it and sixteen from it on, as many as there are, in
/// hexadecimal digits. If they can't be read, nothing is said.
pub fn say_around<R: ReadAt, E: Sink>(file: &mut R, errors: &mut E, at: u64)
    ensures file { R.only_reads file.old file.new }
{
    let from = at.saturating_sub(HALF as u64);
    let before = (at - from) as usize;
    let mut bytes = [0; 2 * HALF];
    let Ok(len) = read_front(file, from, &mut bytes[..before + HALF]) else {
        return;
    };
    let before = before.min(len);
    put_bytes(errors, from, &bytes[..before]);
    put_bytes(errors, at, &bytes[before..len]);
}

/// Writes a line of bytes that begin at this offset, if there are any.
fn put_bytes<E: Sink>(errors: &mut E, at: u64, bytes: &[u8]) {
    if bytes.is_empty() {
        return;
    }
    put(errors, "wzlog:   ");
    put_number(errors, at);
    put(errors, ":");
    for byte in bytes {
        let mut digits = [0; 2];
        let _ = hex::encode_to_slice([*byte], &mut digits);
        put(errors, " ");
        let _ = write_all(errors, &digits);
    }
    put(errors, "\n");
}
