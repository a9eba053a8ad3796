//! Fragments, and how a record is cut into them.

ghost use Rattle.std.specs.Prelude.{◌≡◌, ◌≤◌, length, IfOk, vec_len};

use crate::changes::{cut_at, set_byte};
use crate::checks::check;
use crate::logs::EMPTY;
use log_block::{
    BLOCK_LEN, FIRST, FULL, Fragmenter, LAST, MIDDLE, Seen, header, read_fragment, type_in,
};
use model_base::Damage;
use std::alloc::{AllocError, Global};
use std::test::Fail;

// The checksums were computed by another program.
const ABC: [u8; 10] = [0xf2, 0x70, 0xe8, 0x9d, 0x03, 0x00, 0x01, b'a', b'b', b'c'];

const FIRST_ABC: [u8; 10] = [0x37, 0x2d, 0x9a, 0x8b, 0x03, 0x00, 0x02, b'a', b'b', b'c'];

const MIDDLE_ABC: [u8; 10] = [0xac, 0xe3, 0xe9, 0x5e, 0x03, 0x00, 0x03, b'a', b'b', b'c'];

const LAST_ABC: [u8; 10] = [0xad, 0xb5, 0x75, 0x70, 0x03, 0x00, 0x04, b'a', b'b', b'c'];

#[test]
fn makes_headers(rt: HostRuntime) {
    check(&rt, 0, &header(None, FULL, &[]).as_slice(), &&EMPTY[..]);
    check(&rt, 1, &header(None, FULL, b"abc").as_slice(), &&ABC[..7]);
}

/// What is seen at the start of a block, of which the file has these bytes, in a log with this number, if it has one.
pub(crate) fn seen_first(number: Option<u32>, bytes: &[u8]) -> Seen {
    read_fragment(number, &bytes[..bytes.len().min(BLOCK_LEN)], 0)
}

// A fragment, its type, and how many bytes it has.
const FRAGMENTS: [(&[u8], u8, usize); 5] = [
    (&EMPTY, FULL, 7),
    (&ABC, FULL, 10),
    (&FIRST_ABC, FIRST, 10),
    (&MIDDLE_ABC, MIDDLE, 10),
    (&LAST_ABC, LAST, 10),
];

#[test]
fn reads_fragments(rt: HostRuntime) {
    for (row, (bytes, kind, end)) in FRAGMENTS.iter().enumerate() {
        let wanted = Seen::Fragment {
            kind: *kind,
            start: 7,
            end: *end,
        };
        check(&rt, row, &seen_first(None, bytes), &wanted);
    }
}

// Bytes, where they are cut, and what is seen.
const CUT: [(&[u8], usize, Seen); 6] = [
    (&[], 0, Seen::End),
    (&ABC, 1, Seen::Damage(Damage::ShortHeader)),
    (&ABC, 6, Seen::Damage(Damage::ShortHeader)),
    (&ABC, 7, Seen::Damage(Damage::BadLength)),
    (&ABC, 9, Seen::Damage(Damage::BadLength)),
    (&[0; 10], 10, Seen::Damage(Damage::Zeros)),
];

#[test]
fn reads_what_is_cut(rt: HostRuntime) -> Result<(), Fail> {
    // All rows so far were read as wanted.
    for (row, (bytes, len, wanted)) in CUT.iter().enumerate() {
        check(&rt, row, &seen_first(None, cut_at(bytes, *len)?), wanted);
    }
    Ok(())
}

// Where a fragment has its type, and the last byte of its part.
const TYPE_AT: usize = 6;

const C_AT: usize = 9;

// A fragment, the place that gets another byte, that byte, and the damage that is seen then. No fragment has the type
// 0 or 5, whatever its checksum.
const CHANGED: [([u8; 10], usize, u8, Damage); 3] = [
    (FIRST_ABC, TYPE_AT, 0, Damage::BadType(0)),
    (FIRST_ABC, TYPE_AT, 5, Damage::BadType(5)),
    (ABC, C_AT, b'd', Damage::BadChecksum),
];

#[test]
fn reads_what_is_changed(rt: HostRuntime) -> Result<(), Fail> {
    // All rows so far were read as wanted.
    for (row, (fragment, at, byte, damage)) in CHANGED.iter().enumerate() {
        let mut changed = *fragment;
        set_byte(&mut changed, *at, *byte)?;
        check(
            &rt,
            row,
            &seen_first(None, &changed),
            &Seen::Damage(*damage),
        );
    }
    Ok(())
}

/// A block of zeros.
pub(crate) fn zeros(alloc: Global) -> Result<Vec<u8>, AllocError>
    ensures { IfOk result (λ block. vec_len block ≡ BLOCK_LEN) }
{
    vec![in alloc; 0u8; BLOCK_LEN]
}

/// What is seen at the place `at` of a block, of which the file has the first `there` bytes, in a log with this
/// number, if it has one.
pub(crate) fn seen_in(number: Option<u32>, block: &[u8], there: usize, at: usize) -> Seen
    requires whole { length block.now ≡ BLOCK_LEN }
    requires in_block { there ≤ BLOCK_LEN }
    requires in_file { at ≤ there }
{
    read_fragment(number, &block[..there], at)
}

// What is seen at a block's last six bytes, at its last byte, at its end, and at the last six bytes where the file
// ends three bytes before the block does.
fn seen_at_the_end(block: &[u8]) -> [Seen; 4]
    requires { length block.now ≡ BLOCK_LEN }
{
    [
        seen_in(None, block, BLOCK_LEN, BLOCK_LEN - 6),
        seen_in(None, block, BLOCK_LEN, BLOCK_LEN - 1),
        seen_in(None, block, BLOCK_LEN, BLOCK_LEN),
        seen_in(None, block, BLOCK_LEN - 3, BLOCK_LEN - 6),
    ]
}

// Puts a fragment into the last seven bytes of the block.
fn put_at_the_end(block: &mut [u8], fragment: [u8; 7])
    requires { length block.old ≡ BLOCK_LEN }
{
    block[BLOCK_LEN - 7..].copy_from_slice(&fragment);
}

// The block is all zeros at first, and then has a fragment that begins seven bytes before its end.
#[test]
fn reads_the_end_of_a_block(rt: HostRuntime) -> Result<(), Fail> {
    let mut block = zeros(rt.alloc())?;
    check(&rt, 0, &seen_at_the_end(&block), &[Seen::End; 4]);
    put_at_the_end(&mut block, EMPTY);
    let damage = Seen::Damage(Damage::BadTrailer);
    let wanted = [damage, damage, Seen::End, damage];
    check(&rt, 1, &seen_at_the_end(&block), &wanted);
    let fragment = Seen::Fragment {
        kind: FULL,
        start: BLOCK_LEN,
        end: BLOCK_LEN,
    };
    check(
        &rt,
        2,
        &seen_in(None, &block, BLOCK_LEN, BLOCK_LEN - 7),
        &fragment,
    );
    Ok(())
}

// A piece: how many zeros come before it, its type, and where its part begins and ends in the record.
type Cut = Option<(usize, u8, usize, usize)>;

fn next_cut(pieces: &mut Fragmenter) -> Cut {
    let piece = pieces.next()?;
    Some((piece.zeros, piece.kind, piece.start, piece.end))
}

// The first pieces of a record of `len` bytes that is written at this place of a block, in a log with this number, if
// it has one.
fn cuts(number: Option<u32>, place: usize, len: usize) -> [Cut; 4] {
    let mut pieces = Fragmenter::new(number, place % BLOCK_LEN, len);
    [
        next_cut(&mut pieces),
        next_cut(&mut pieces),
        next_cut(&mut pieces),
        next_cut(&mut pieces),
    ]
}

// The log's number, if it has one, a place, the length of a record that is written there, and its pieces. The records:
// one of 97270 bytes after one of 1000, one whose first fragment has room for its header alone, and one that is too
// long for a block by one byte. The last two rows are the second and the third again, in a log with a number, whose
// headers are four bytes longer.
const SEVERAL: [(Option<u32>, usize, usize, [Cut; 4]); 5] = [
    (
        None,
        1007,
        97270,
        [
            Some((0, FIRST, 0, 31754)),
            Some((0, MIDDLE, 31754, 64515)),
            Some((0, LAST, 64515, 97270)),
            None,
        ],
    ),
    (
        None,
        32761,
        5,
        [Some((0, FIRST, 0, 0)), Some((0, LAST, 0, 5)), None, None],
    ),
    (
        None,
        0,
        32762,
        [
            Some((0, FIRST, 0, 32761)),
            Some((0, LAST, 32761, 32762)),
            None,
            None,
        ],
    ),
    (
        Some(7),
        32757,
        5,
        [Some((0, 6, 0, 0)), Some((0, 8, 0, 5)), None, None],
    ),
    (
        Some(7),
        0,
        32758,
        [
            Some((0, 6, 0, 32757)),
            Some((0, 8, 32757, 32758)),
            None,
            None,
        ],
    ),
];

#[test]
fn cuts_records_into_several(rt: HostRuntime) {
    // All rows so far were as wanted.
    for (row, (number, place, len, wanted)) in SEVERAL.iter().enumerate() {
        check(&rt, row, &cuts(*number, *place, *len), wanted);
    }
}

// The log's number, if it has one, the place, the record's length, and how many zeros come before its one fragment.
// First the records of 1000 and of 8000 bytes that come before and after that of 97270, then records in the last bytes
// of a block, and then records that leave 7, 6, 1 and 0 bytes of a block. The last rows are of logs with a number.
const ONE: [(Option<u32>, usize, usize, usize); 13] = [
    (None, 0, 1000, 0),
    (None, 32762, 8000, 6),
    (None, 32761, 0, 0),
    (None, 32762, 5, 6),
    (None, 32767, 5, 1),
    (None, 0, 32754, 0),
    (None, 0, 32755, 0),
    (None, 0, 32760, 0),
    (None, 0, 32761, 0),
    (Some(7), 32757, 0, 0),
    (Some(7), 32758, 5, 10),
    (Some(7), 32761, 5, 7),
    (Some(7), 0, 32757, 0),
];

#[test]
fn cuts_records_into_one(rt: HostRuntime) {
    // All rows so far were as wanted.
    for (row, (number, place, len, zeros)) in ONE.iter().enumerate() {
        let wanted = [
            Some((*zeros, type_in(*number, FULL), 0, *len)),
            None,
            None,
            None,
        ];
        check(&rt, row, &cuts(*number, *place, *len), &wanted);
    }
}
