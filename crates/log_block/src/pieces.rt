//! How a record is cut into fragments.

ghost use Rattle.std.specs.Prelude.{◌≡◌, ◌-◌, ◌%◌, ◌<◌, ◌^◌, ℕ, List, length};
ghost use Rattle.std.specs.Int.{div_ceil};
ghost use Rattle.model_base.specs.Log as log;
ghost use Rattle.log_block.specs.Pieces as pieces;
ghost use Rattle.log_block.specs.Cutting as cutting;

use crate::headers::{BLOCK_LEN, FIRST, FULL, LAST, MIDDLE, header_len, max_part_len, type_in};
use std::marker::Model;

/// A fragment of a record that is being written.
#[derive(Clone, Copy, Debug, PartialEq, Eq)]
pub struct Piece {
    /// How many zeros come before its header. They end a block that has no room for a header.
    pub zeros: usize,
    /// The fragment's type.
    pub kind: u8,
    /// Where in the record its part begins.
    pub start: usize,
    /// Where in the record its part ends.
    pub end: usize,
}

/// Cuts a record into the fragments that are written to the log, from the first on. It takes no memory. Contracts see
/// the pieces that are still to come.
///
/// It cuts as `log::Writer::AddRecord` of LevelDB's db/log_writer.cc does: into one FULL fragment if the record fits
/// into what is left of the block, and else into a FIRST, any MIDDLE and a LAST, of which each but the last fills its
/// block.
#[derive(Debug, Drop)]
pub struct Fragmenter {
    /// The log's number, if it has one.
    number: Option<u32>,
    /// The next piece.
    next: Option<Piece>,
    /// How many bytes the record has.
    len: usize,
}

impl Model for Fragmenter {
    ghost use Rattle.std.specs.Prelude.{List};
    ghost use Rattle.log_block.specs.declared.pieces.Piece.{Piece};
    ghost use Rattle.log_block.specs.Cutting.{still_to_come};

    ghost Value = { List Piece };

    ghost view = { λ f. still_to_come f.number f.next f.len };
}

impl Fragmenter {
    /// The pieces of a record of `len` bytes that is written to a log which ends at the place `block_offset` of a
    /// block. The log has this number, if it has one.
    ///
    /// If exactly a header's bytes are left of the block and the record isn't empty, an empty FIRST fragment fills
    /// them.
    pub fn new(number: Option<u32>, block_offset: usize, len: usize) -> Fragmenter
        requires { block_offset < BLOCK_LEN }
        ensures pieces { (offset : ℕ) (bytes : List ℕ) → offset % BLOCK_LEN ≡ block_offset → length bytes ≡ len
            → pieces.ArePieces number bytes offset 0 result (log.as_fragments (log.parts_of number offset bytes)) }
        // The pieces' bytes are the record's text in the log.
        ensures text { (offset : ℕ) (bytes : List ℕ) → offset % BLOCK_LEN ≡ block_offset → length bytes ≡ len
            → pieces.pieces_text number bytes result ≡ log.record_text number offset bytes }
        // Together they have the whole record, in order, each byte once.
        ensures cut { pieces.CoverRecord len 0 result }
        // No piece crosses a block's end, and each except the last fills its block.
        ensures laid { pieces.LieInBlocks number block_offset result }
        ensures bound { length result < 2 ^ 64 }
    {
        Fragmenter {
            number,
            next: Some(first_piece(number, block_offset, len)),
            len,
        }
    }
}

impl Iterator for Fragmenter {
    type Item = Piece;

    ghost use Rattle.std.specs.Iterator.{YieldsFirst, item_count};

    ghost next_gives = { YieldsFirst (λ left. left) };

    ghost remaining = { item_count (λ left. left) };

    fn next(&mut self) -> Option<Piece> {
        let piece = self.next?;
        self.next = piece_behind(self.number, piece.end, self.len);
        Some(piece)
    }
}

/// The first piece of a record of `len` bytes.
fn first_piece(number: Option<u32>, block_offset: usize, len: usize) -> Piece
    requires { block_offset < BLOCK_LEN }
    ensures { result ≡ cutting.first_piece number block_offset len }
{
    let left = BLOCK_LEN - block_offset;
    let header = header_len(number);
    let (zeros, space) = if left < header {
        (left, max_part_len(number))
    } else {
        (0, left - header)
    };
    let end = len.min(space);
    Piece {
        zeros,
        kind: type_in(number, if end == len { FULL } else { FIRST }),
        start: 0,
        end,
    }
}

/// The piece that begins at this place of a record of `len` bytes, if the record doesn't end there.
fn piece_behind(number: Option<u32>, start: usize, len: usize) -> Option<Piece>
    ensures { cutting.still_to_come number result len
        ≡ cutting.later_pieces number (div_ceil (len - start) (log.part_len number)) start len }
{
    if start < len {
        Some(later_piece(number, start, len))
    } else {
        None
    }
}

/// The piece that begins at this place of a record of `len` bytes and at the start of a block.
fn later_piece(number: Option<u32>, start: usize, len: usize) -> Piece
    requires { start < len }
    ensures { result ≡ cutting.later_piece number start len }
{
    let end = start + max_part_len(number).min(len - start);
    Piece {
        zeros: 0,
        kind: type_in(number, if end == len { LAST } else { MIDDLE }),
        start,
        end,
    }
}
