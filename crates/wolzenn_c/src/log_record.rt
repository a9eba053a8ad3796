//! Writing a log whose file is the caller's. A record goes to the log's end, and the caller gives the offset there; an
//! older file that the log is written over may be longer. A log has the number that is given, or none where it is 0.

ghost use Rattle.std.specs.Prelude.{◌≡◌, ◌≢◌, ℕ, List, length, min};
ghost use Rattle.model_base.specs.Log.{record_text};
ghost use Rattle.wolzenn_c.specs.Buffers.{Copies};
ghost use Rattle.log_in_memory.specs.Readings.{number_of};

use crate::codes::{DONE, SMALL};
use log_in_memory::log_number;
use log_text::{lay_record, text_len};

/// How many bytes a record of this length takes at this offset of a log. Where they are more than a `usize` can say,
/// the answer is the greatest `usize`.
#[unsafe(no_mangle)]
pub extern "C" fn wz_log_record_len(number: u32, offset: u64, len: usize) -> usize
    ensures { (bytes : List ℕ) → length bytes ≡ len
        → result ≡ min (length (record_text (number_of number) offset bytes)) usize.MAX }
{
    text_len(log_number(number), offset, len) as usize
}

/// Puts the bytes that a record takes at this offset of a log at the start of the caller's buffer, and touches nothing
/// after them.
///
/// `DONE`: `len` is how many they are. `SMALL`: the buffer has fewer, and none was written.
#[unsafe(no_mangle)]
pub extern "C" fn wz_log_record(
    number: u32,
    offset: u64,
    bytes: &[u8],
    buffer: &mut [u8],
    len: &mut usize,
) -> u32
    ensures copied { Copies (record_text (number_of number) offset bytes.now) buffer.old result buffer.new }
    ensures len { result ≡ DONE → len.new ≡ length (record_text (number_of number) offset bytes.now) }
    ensures no_len { result ≢ DONE → len.new ≡ len.old }
{
    match lay_record(log_number(number), offset, bytes, buffer) {
        Some(laid) => {
            *len = laid;
            DONE
        }
        None => SMALL,
    }
}
