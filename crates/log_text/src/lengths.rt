//! How long a record's text is.

ghost use Rattle.std.specs.Prelude.{◌≡◌, ◌-◌, ◌^◌, ◌<◌, ℕ, List, length, min};
ghost use Rattle.model_base.specs.Log as log;

use log_block::{BLOCK_LEN, header_len, max_part_len};

/// How many bytes the text of a record of `len` bytes has at this offset of a log, which has a number or none. If that
/// is above the greatest `u64`, the answer is the greatest `u64`. The time that this takes doesn't depend on the
/// record's length.
pub fn text_len(number: Option<u32>, offset: u64, len: usize) -> u64
    ensures { (bytes : List ℕ) → length bytes ≡ len
        → result ≡ min (length (log.record_text number offset bytes)) (2 ^ 64 - 1) }
{
    let place = (offset % BLOCK_LEN as u64) as usize;
    let zeros = zeros_at(number, place);
    let room = max_part_len(number) - (place + zeros) % BLOCK_LEN;
    let fragments = 1 + len.saturating_sub(room).div_ceil(max_part_len(number));
    (len as u64).saturating_add((zeros + fragments * header_len(number)) as u64)
}

/// How many zeros come before a fragment that is written at this place of a block. They end the block if it has
/// no room for a header.
fn zeros_at(number: Option<u32>, place: usize) -> usize
    requires { place < BLOCK_LEN }
    ensures { result ≡ log.trailer number place }
{
    let left = BLOCK_LEN - place;
    if left < header_len(number) { left } else { 0 }
}
