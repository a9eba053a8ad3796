//! Fragments of a log with a number.

use crate::blocks::{seen_first, seen_in, zeros};
use crate::changes::{cut_at, flip_byte};
use crate::checks::check;
use crate::logs::LOG;
use log_block::{BLOCK_LEN, FIRST, FULL, LAST, MIDDLE, Seen, header, plain_type, type_in};
use model_base::Damage;
use std::test::Fail;

// The first record of `LOG`, as it is in log 7. The checksums were computed by another program.
const IN_LOG_7: [u8; 28] = [
    0x32, 0x33, 0x0f, 0x45, 0x11, 0x00, 0x05, 0x07, 0x00, 0x00, 0x00, // the header
    0x01, 0x00, 0x00, 0x00, 0x00, 0x00, 0x00, 0x00, // sequence 1
    0x01, 0x00, 0x00, 0x00, // count 1
    0x01, 0x01, b'a', 0x01, b'1', // put a 1
];

const EMPTY_FIRST: [u8; 11] = [
    0x03, 0x83, 0xb2, 0x00, 0x00, 0x00, 0x06, 0x07, 0x00, 0x00, 0x00,
];

const LAST_ABC: [u8; 14] = [
    0x8b, 0xf6, 0xab, 0xd6, 0x03, 0x00, 0x08, 0x07, 0x00, 0x00, 0x00, b'a', b'b', b'c',
];

// A type in a log without a number, and in one with a number.
const TYPES: [(u8, u8); 4] = [(FULL, 5), (FIRST, 6), (MIDDLE, 7), (LAST, 8)];

#[test]
fn knows_types(rt: HostRuntime) {
    // All rows so far were as wanted.
    for (row, (plain, numbered)) in TYPES.iter().enumerate() {
        let wanted = (*plain, *numbered);
        let types = (type_in(None, *plain), type_in(Some(7), *plain));
        check(&rt, row, &types, &wanted);
        let plain_types = (plain_type(None, *plain), plain_type(Some(7), *numbered));
        check(&rt, row, &plain_types, &(*plain, *plain));
    }
}

// A fragment of log 7, and its type.
const FRAGMENTS: [(&[u8], u8); 3] = [(&IN_LOG_7, 5), (&EMPTY_FIRST, 6), (&LAST_ABC, 8)];

#[test]
fn makes_headers(rt: HostRuntime) {
    // All rows so far were as wanted.
    for (row, (bytes, kind)) in FRAGMENTS.iter().enumerate() {
        let (wanted, part) = bytes.split_at(bytes.len().min(11));
        check(&rt, row, &header(Some(7), *kind, part).as_slice(), &wanted);
    }
}

#[test]
fn reads_fragments(rt: HostRuntime) {
    // All rows so far were as wanted.
    for (row, (bytes, kind)) in FRAGMENTS.iter().enumerate() {
        let wanted = Seen::Fragment {
            kind: *kind,
            start: 11,
            end: bytes.len(),
        };
        check(&rt, row, &seen_first(Some(7), bytes), &wanted);
    }
}

// A log's number, if it has one, bytes of another log, and the damage that is seen: those of an older log, one without
// a number read with one, and one with a number read without.
const OF_ANOTHER: [(Option<u32>, &[u8], Damage); 3] = [
    (Some(8), &IN_LOG_7, Damage::OldLog(7)),
    (Some(8), &LOG, Damage::BadType(1)),
    (None, &IN_LOG_7, Damage::BadType(5)),
];

#[test]
fn reads_other_logs(rt: HostRuntime) {
    // All rows so far were as wanted.
    for (row, (number, bytes, damage)) in OF_ANOTHER.iter().enumerate() {
        check(
            &rt,
            row,
            &seen_first(*number, bytes),
            &Seen::Damage(*damage),
        );
    }
}

// What is seen of the first `len` bytes of the fragment.
fn seen_cut(len: usize) -> Seen {
    match len {
        0 => Seen::End,
        1..=10 => Seen::Damage(Damage::ShortHeader),
        _ => Seen::Damage(Damage::BadLength),
    }
}

#[test]
fn reads_what_is_cut(rt: HostRuntime) -> Result<(), Fail> {
    // Each shorter cut was seen as wanted.
    for len in 0..28 {
        let seen = seen_first(Some(7), cut_at(&IN_LOG_7, len)?);
        check(&rt, len, &seen, &seen_cut(len));
    }
    Ok(())
}

// The damage that is seen in the fragment where the byte `at` is flipped. A header is a checksum, a length of two
// bytes, a type and a number of four bytes.
fn flipped(at: usize) -> Damage {
    match at {
        4 | 5 => Damage::BadLength,
        6 => Damage::BadType(250),
        7 => Damage::OldLog(0x0000_00f8),
        8 => Damage::OldLog(0x0000_ff07),
        9 => Damage::OldLog(0x00ff_0007),
        10 => Damage::OldLog(0xff00_0007),
        _ => Damage::BadChecksum,
    }
}

#[test]
fn reads_what_is_flipped(rt: HostRuntime) -> Result<(), Fail> {
    // Each byte before this one was flipped, and its damage was seen as wanted.
    for at in 0..28 {
        let mut fragment = IN_LOG_7;
        flip_byte(&mut fragment, at)?;
        let seen = seen_first(Some(7), &fragment);
        check(&rt, at, &seen, &Seen::Damage(flipped(at)));
    }
    Ok(())
}

// A log's number, if it has one, a place of a block of zeros, and what is seen there. A trailer has too few bytes for
// a header.
const ZEROS: [(Option<u32>, usize, Seen); 4] = [
    (None, 32_761, Seen::Damage(Damage::Zeros)),
    (None, 32_762, Seen::End),
    (Some(7), 32_757, Seen::Damage(Damage::Zeros)),
    (Some(7), 32_758, Seen::End),
];

#[test]
fn reads_the_zeros_of_a_block(rt: HostRuntime) -> Result<(), Fail> {
    let block = zeros(rt.alloc())?;
    // All rows so far were read as wanted.
    for (row, (number, at, wanted)) in ZEROS.iter().enumerate() {
        let at = (*at).min(BLOCK_LEN);
        check(&rt, row, &seen_in(*number, &block, BLOCK_LEN, at), wanted);
    }
    Ok(())
}
