//! What is recovered from logs that were cut or changed: the log of two records, cut or changed at each of its bytes,
//! an empty record, and a log with a trailer.

use crate::changes::{cut_at, fill_block, fix_checksum, flip_byte, put_zeros, set_byte};
use crate::checks::check;
use crate::logs::{
    EMPTY, LOG, SECOND_AT, Summary, batch_bytes, check_cuts, put_fragment, put_record, recovered,
};
use log_block::{FIRST, LAST, header_len};
use model_base::{Damage, EndReason};
use std::alloc::{AllocError, Global};
use std::test::Fail;

const SHORT_HEADER: EndReason = EndReason::Broken(Damage::ShortHeader);

// Why the first `len` bytes of the log end.
fn why_cut(len: usize) -> EndReason {
    match len % 24 {
        0 => EndReason::Clean,
        1..=6 => SHORT_HEADER,
        _ => EndReason::Broken(Damage::BadLength),
    }
}

// What is recovered where the log is whole up to the byte `at`. Both records have 24 bytes.
fn whole_up_to(at: usize, why: EndReason) -> Summary {
    match at {
        0..=23 => (0, 0, 0, 0, why),
        24..=47 => (1, 1, 24, 24, why),
        _ => (2, 2, 48, 48, why),
    }
}

#[test]
fn stops_where_the_log_is_cut(rt: HostRuntime) -> Result<(), Fail> {
    for len in 0..49 {
        let left = recovered(rt.alloc(), cut_at(&LOG, len)?);
        check(&rt, len, &left, &Ok(whole_up_to(len, why_cut(len))));
    }
    Ok(())
}

// The damage that is seen in a fragment whose byte `at` is flipped. A header is a checksum, a length of two bytes and
// a type.
fn flipped(at: usize) -> Damage {
    match at {
        4 | 5 => Damage::BadLength,
        6 => Damage::BadType(254),
        _ => Damage::BadChecksum,
    }
}

#[test]
fn stops_at_a_flipped_byte(rt: HostRuntime) -> Result<(), Fail> {
    for at in 0..48 {
        let mut log = LOG;
        flip_byte(&mut log, at)?;
        let left = recovered(rt.alloc(), &log);
        let why = EndReason::Broken(flipped(at % 24));
        check(&rt, at, &left, &Ok(whole_up_to(at, why)));
    }
    Ok(())
}

// The first record, and zeros in place of the second header.
fn zeros_behind(alloc: Global) -> Result<Vec<u8>, Fail> {
    let mut log = Vec::from_slice(alloc, cut_at(&LOG, SECOND_AT)?)?;
    put_zeros(&mut log, header_len(None))?;
    Ok(log)
}

#[test]
fn stops_where_no_record_follows(rt: HostRuntime) -> Result<(), Fail> {
    let empty = recovered(rt.alloc(), &EMPTY);
    check(&rt, 0, &empty, &Ok((0, 0, 0, 0, EndReason::Short)));
    let zeros = recovered(rt.alloc(), &zeros_behind(rt.alloc())?);
    let why = EndReason::Broken(Damage::Zeros);
    check(&rt, 1, &zeros, &Ok((1, 1, 24, 24, why)));
    Ok(())
}

// A log of one fragment of this type, whose part is `len` zeros.
fn lone_part(alloc: Global, kind: u8, len: usize) -> Result<Vec<u8>, AllocError> {
    let mut log = Vec::new(alloc);
    put_fragment(&mut log, kind, &vec![in alloc; 0u8; len]?)?;
    Ok(log)
}

// A fragment's type, how many zeros its part has, and why reading such a log ends at once. The second one fills its
// block.
const LONE: [(u8, usize, EndReason); 2] = [
    (LAST, 1, EndReason::BadOrder),
    (FIRST, 32_761, EndReason::Unfinished),
];

#[test]
fn stops_at_a_lone_part(rt: HostRuntime) -> Result<(), Fail> {
    // The rows so far ended as they should.
    for (row, (kind, len, why)) in LONE.iter().enumerate() {
        let log = lone_part(rt.alloc(), *kind, *len)?;
        let left = recovered(rt.alloc(), &log);
        check(&rt, row, &left, &Ok((0, 0, 0, 0, *why)));
    }
    Ok(())
}

// The second record gets another value: first with the checksum of the old value, then with the right one.
#[test]
fn stops_at_another_byte(rt: HostRuntime) -> Result<(), Fail> {
    let mut log = LOG;
    set_byte(&mut log, 47, b'3')?;
    let left = recovered(rt.alloc(), &log);
    let why = EndReason::Broken(Damage::BadChecksum);
    check(&rt, 0, &left, &Ok((1, 1, 24, 24, why)));
    fix_checksum(&mut log, SECOND_AT)?;
    let whole = recovered(rt.alloc(), &log);
    check(&rt, 1, &whole, &Ok((2, 2, 48, 48, EndReason::Clean)));
    Ok(())
}

// The beginning of a record that puts 32740 zeros at `a`, up to the zeros. With its fragment's header the record has
// 32765 bytes.
const LONG: [u8; 25] = [
    0x58, 0x87, 0x9c, 0xa3, 0xf6, 0x7f, 0x01, // the header
    0x01, 0x00, 0x00, 0x00, 0x00, 0x00, 0x00, 0x00, // sequence 1
    0x01, 0x00, 0x00, 0x00, // count 1
    0x01, 0x01, b'a', 0xe4, 0xff, 0x01, // put a, 32740 bytes
];

// A log of this record, the trailer of its block, and the second record of `LOG`.
fn log_of_two_blocks(alloc: Global) -> Result<Vec<u8>, AllocError> {
    let mut log = Vec::from_slice(alloc, &LONG)?;
    put_zeros(&mut log, 32_740)?;
    fill_block(&mut log)?;
    log.extend_from_slice(&LOG[SECOND_AT..])?;
    Ok(log)
}

// A log of one record, of log data alone, which leaves six bytes of its block. The first of the six has this value.
fn log_with_trailer(alloc: Global, byte: u8) -> Result<Vec<u8>, AllocError> {
    let mut note = Vec::from_slice(alloc, &[3, 0xe3, 0xff, 0x01])?;
    put_zeros(&mut note, 32_739)?;
    let mut log = Vec::new(alloc);
    put_record(&mut log, &batch_bytes(alloc, 0, 0, &note)?)?;
    log.push(byte)?;
    Ok(log)
}

// That byte, where recovery ends, and why.
const TRAILERS: [(u8, u64, EndReason); 2] = [
    (1, 32_762, EndReason::Broken(Damage::BadTrailer)),
    (0, 32_763, EndReason::Clean),
];

#[test]
fn looks_at_a_trailer(rt: HostRuntime) -> Result<(), Fail> {
    // The rows so far ended as they should.
    for (row, (byte, at, why)) in TRAILERS.iter().enumerate() {
        let log = log_with_trailer(rt.alloc(), *byte)?;
        let left = recovered(rt.alloc(), &log);
        check(&rt, row, &left, &Ok((1, 0, 32_762, *at, *why)));
    }
    Ok(())
}

// How many bytes of the log are left, and what is recovered: from the whole log, and without its last 20 bytes.
const BEHIND_TRAILER: [(usize, Summary); 2] = [
    (32792, (2, 2, 32792, 32792, EndReason::Clean)),
    (32772, (1, 1, 32765, 32768, SHORT_HEADER)),
];

#[test]
fn passes_over_a_trailer(rt: HostRuntime) -> Result<(), Fail> {
    let log = log_of_two_blocks(rt.alloc())?;
    check_cuts(&rt, rt.alloc(), &log, &BEHIND_TRAILER)
}
