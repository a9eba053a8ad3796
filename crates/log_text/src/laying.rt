//! Lays a record's text in a buffer.

ghost use Rattle.std.specs.Prelude.{◌≡◌, ◌+◌, ◌-◌, ◌<◌, ◌≤◌, ◌++◌, length, drop, IfSome, IfNone};
ghost use Rattle.model_base.specs.Log as log;
ghost use Rattle.log_block.specs.Pieces.{piece_text};
ghost use Rattle.log_text.specs.Laying.{laid_at};

use crate::lengths::text_len;
use log_block::{BLOCK_LEN, Fragmenter, Piece, header};

/// The most zeros that may end a block: one fewer than the longest header has bytes.
const MAX_ZEROS: usize = 10;

/// Lays the text of a record at the start of a buffer, as it is at this offset of a log, which has a number or none.
/// It answers how many bytes the text has; the bytes after the text stay as they are. If the buffer is too small, it
/// answers `None`, and the buffer stays as it is.
pub fn lay_record(
    number: Option<u32>,
    offset: u64,
    bytes: &[u8],
    buffer: &mut [u8],
) -> Option<usize>
    // It is the definition that `log_writer` is proved by too: so a program with a log file of its own lays the same
    // bytes by this call.
    ensures laid { let text = log.record_text number offset bytes.now in
        IfSome result (λ len. (len ≡ length text) × (buffer.new ≡ text ++ drop len buffer.old)) }
    // `None` comes only where the buffer is too small.
    ensures too_small { IfNone result (length buffer.old < length (log.record_text number offset bytes.now)) }
    ensures same { IfNone result (buffer.new ≡ buffer.old) }
{
    if (buffer.len() as u64) < text_len(number, offset, bytes.len()) {
        return None;
    }
    let place = (offset % BLOCK_LEN as u64) as usize;
    let mut end = 0;
    // The pieces so far are at the buffer's start, and end at `end`. After them the buffer is as it was.
    for piece in Fragmenter::new(number, place, bytes.len()) {
        end = lay_piece(number, bytes, piece, buffer, end);
    }
    Some(end)
}

/// Lays a piece of a record at this place of the buffer, and answers where the piece ends there.
fn lay_piece(number: Option<u32>, bytes: &[u8], piece: Piece, buffer: &mut [u8], at: usize) -> usize
    requires zeros { piece.zeros ≤ MAX_ZEROS }
    requires ordered { piece.start ≤ piece.end }
    requires in_record { piece.end ≤ length bytes.now }
    requires fits { piece.end - piece.start ≤ log.part_len number }
    requires room { at + length (piece_text number bytes.now piece) ≤ length buffer.old }
    ensures laid { buffer.new ≡ laid_at at (piece_text number bytes.now piece) buffer.old }
    ensures end { result ≡ at + length (piece_text number bytes.now piece) }
{
    let part = &bytes[piece.start..piece.end];
    let header = header(number, piece.kind, part);
    let header_at = lay(&[0; MAX_ZEROS][..piece.zeros], buffer, at);
    let part_at = lay(header.as_slice(), buffer, header_at);
    lay(part, buffer, part_at)
}

/// Lays bytes at this place of the buffer, and answers where the bytes end there.
fn lay(bytes: &[u8], buffer: &mut [u8], at: usize) -> usize
    requires { at + length bytes.now ≤ length buffer.old }
    ensures laid { buffer.new ≡ laid_at at bytes.now buffer.old }
    ensures end { result ≡ at + length bytes.now }
{
    let end = at + bytes.len();
    buffer[at..end].copy_from_slice(bytes);
    end
}
