//! Bytes, numbers and checksums, what reads answer, and the map.

use crate::checks::check;
use base_bytes::{
    Bytes, Found, FoundList, PairList, crc32c, extend, get_fixed32, get_fixed64, get_varint32,
    mask, put_fixed32, put_fixed64, put_varint32, varint32_len,
};
use base_maps::ByteMap;
use model_base::{CodeError, NoMemory};
use std::alloc::Global;
use std::process::Abort;
use std::test::Fail;

fn made_bytes(alloc: Global) -> Result<Bytes, NoMemory> {
    let mut bytes = Bytes::new(alloc);
    bytes.append(b"abcde")?;
    bytes.append(b"fg")?;
    bytes.overwrite(1, b"XY");
    bytes.truncate(6);
    Ok(bytes)
}

#[test]
fn takes_bytes(rt: HostRuntime) -> Result<(), Fail> {
    let bytes = made_bytes(rt.alloc())?;
    check(&rt, 0, &(bytes.len(), bytes.as_slice()), &(6, b"aXYdef"));
    Ok(())
}

fn are_equal(alloc: Global, left: &[u8], right: &[u8]) -> Result<bool, NoMemory> {
    Ok(Bytes::copy(alloc, left)? == Bytes::copy(alloc, right)?)
}

#[test]
fn compares_bytes(rt: HostRuntime) -> Result<(), Fail> {
    check(&rt, 0, &are_equal(rt.alloc(), b"aXYdef", b"aXYdef")?, &true);
    check(&rt, 1, &are_equal(rt.alloc(), b"aXYdef", b"aXYde")?, &false);
    Ok(())
}

const ASCENDING: [u8; 32] = [
    0, 1, 2, 3, 4, 5, 6, 7, 8, 9, 10, 11, 12, 13, 14, 15, 16, 17, 18, 19, 20, 21, 22, 23, 24, 25,
    26, 27, 28, 29, 30, 31,
];

const DESCENDING: [u8; 32] = [
    31, 30, 29, 28, 27, 26, 25, 24, 23, 22, 21, 20, 19, 18, 17, 16, 15, 14, 13, 12, 11, 10, 9, 8,
    7, 6, 5, 4, 3, 2, 1, 0,
];

// The check value of the CRC's catalogues, and the examples of RFC 3720, appendix B.4.
const CHECKSUMS: [(&[u8], u32); 6] = [
    (b"123456789", 0xe3069283),
    (&[1], 0xa016d052),
    (&[0; 32], 0x8a9136aa),
    (&[0xff; 32], 0x62a8ab43),
    (&ASCENDING, 0x46dd794e),
    (&DESCENDING, 0x113fdb5c),
];

#[test]
fn published_checksums(rt: HostRuntime) {
    for (row, (bytes, wanted)) in CHECKSUMS.iter().enumerate() {
        check(&rt, row, &crc32c(bytes), wanted);
    }
}

// Bytes, those that come after them, and the checksum of both together.
const EXTENDED: [(&[u8], &[u8], u32); 2] = [
    (b"12345", b"6789", 0xe3069283),
    (
        b"The quick brown fox",
        b" jumps over the lazy dog",
        0x22620404,
    ),
];

#[test]
fn extends(rt: HostRuntime) {
    for (row, (front, rest, wanted)) in EXTENDED.iter().enumerate() {
        check(&rt, row, &extend(crc32c(front), rest), wanted);
    }
}

const MASKED: [(&[u8], u32); 2] = [(b"123456789", 0xc78ab0e5), (&[1], 0x43282b05)];

#[test]
fn masks(rt: HostRuntime) {
    for (row, (bytes, wanted)) in MASKED.iter().enumerate() {
        check(&rt, row, &mask(crc32c(bytes)), wanted);
    }
}

const WRITTEN_VARINTS: [(u32, &[u8]); 6] = [
    (0, &[0x00]),
    (127, &[0x7f]),
    (128, &[0x80, 0x01]),
    (300, &[0xac, 0x02]),
    (16384, &[0x80, 0x80, 0x01]),
    (4294967295, &[0xff, 0xff, 0xff, 0xff, 0x0f]),
];

fn spelling_of(alloc: Global, n: u32) -> Result<Bytes, NoMemory> {
    let mut bytes = Bytes::new(alloc);
    put_varint32(&mut bytes, n)?;
    Ok(bytes)
}

#[test]
fn writes_varints(rt: HostRuntime) -> Result<(), Fail> {
    for (row, (n, wanted)) in WRITTEN_VARINTS.iter().enumerate() {
        let bytes = spelling_of(rt.alloc(), *n)?;
        check(&rt, row, &bytes.as_slice(), wanted);
    }
    Ok(())
}

#[test]
fn measures_varints(rt: HostRuntime) {
    for (row, (n, spelling)) in WRITTEN_VARINTS.iter().enumerate() {
        let len = varint32_len(u64::from(*n));
        check(&rt, row, &len, &(spelling.len() as u64));
    }
    check(&rt, 0, &varint32_len(u64::MAX), &5);
}

// Bytes, and the number that is read at the second one.
const READ_VARINTS: [(&[u8], Result<(u32, usize), CodeError>); 13] = [
    (&[0xee, 0x00], Ok((0, 2))),
    (&[0xee, 0x7f, 0x80], Ok((127, 2))),
    (&[0xee, 0x80, 0x01], Ok((128, 3))),
    (&[0xee, 0xac, 0x02, 0xff], Ok((300, 3))),
    (&[0xee, 0x80, 0x80, 0x01], Ok((16384, 4))),
    (&[0xee, 0xff, 0xff, 0xff, 0xff, 0x0f], Ok((4294967295, 6))),
    (&[0xee], Err(CodeError::Short)),
    (&[0xee, 0x80], Err(CodeError::Short)),
    (&[0xee, 0xff, 0xff, 0xff, 0xff], Err(CodeError::Short)),
    (&[0xee, 0x80, 0x00], Err(CodeError::NotShortest)),
    (
        &[0xee, 0x80, 0x80, 0x80, 0x80, 0x00],
        Err(CodeError::NotShortest),
    ),
    (
        &[0xee, 0xff, 0xff, 0xff, 0xff, 0x1f],
        Err(CodeError::TooLong),
    ),
    (
        &[0xee, 0x80, 0x80, 0x80, 0x80, 0x80],
        Err(CodeError::TooLong),
    ),
];

#[test]
fn reads_varints(rt: HostRuntime) {
    for (row, (bytes, wanted)) in READ_VARINTS.iter().enumerate() {
        check(&rt, row, &get_varint32(bytes, bytes.len().min(1)), wanted);
    }
}

fn fixed_numbers(alloc: Global) -> Result<Bytes, NoMemory> {
    let mut bytes = Bytes::new(alloc);
    put_fixed32(&mut bytes, 0x0102_0304)?;
    put_fixed64(&mut bytes, 0x0102_0304_0506_0708)?;
    Ok(bytes)
}

#[test]
fn writes_fixed_numbers(rt: HostRuntime) -> Result<(), Fail> {
    let bytes = fixed_numbers(rt.alloc())?;
    let wanted: &[u8] = &[4, 3, 2, 1, 8, 7, 6, 5, 4, 3, 2, 1];
    check(&rt, 0, &bytes.as_slice(), &wanted);
    Ok(())
}

#[test]
fn reads_fixed_numbers(rt: HostRuntime) {
    let bytes = [0xee, 8, 7, 6, 5, 4, 3, 2, 1];
    let read = (get_fixed32(&bytes, 1), get_fixed64(&bytes, 1));
    check(&rt, 0, &read, &(0x0506_0708, 0x0102_0304_0506_0708));
}

// What was found for two keys. The second has the value "1".
fn two_found(alloc: Global) -> Result<FoundList, NoMemory> {
    let value = Bytes::copy(alloc, b"1")?;
    let mut values = FoundList::new(alloc);
    values.push(Found::Absent)?;
    values.push(Found::Value(value))?;
    Ok(values)
}

fn value_of(found: &Found) -> Option<&[u8]> {
    match found {
        Found::Absent => None,
        Found::Value(value) => Some(value.as_slice()),
    }
}

const FOUND: [Option<&[u8]>; 2] = [None, Some(b"1")];

fn check_found(rt: &impl Abort, values: &FoundList) {
    check(rt, 0, &values.len(), &2);
    let mut wanted = FOUND.iter();
    for found in values.as_slice() {
        check(rt, 1, &Some(&value_of(found)), &wanted.next());
    }
}

#[test]
fn keeps_what_was_found_in_order(rt: HostRuntime) -> Result<(), Fail> {
    let values = two_found(rt.alloc())?;
    check_found(&rt, &FoundList::from_vec(values.into_vec()));
    Ok(())
}

// One row: the key "a" with the value "1".
fn one_row(alloc: Global) -> Result<PairList, NoMemory> {
    let mut rows = PairList::new(alloc);
    rows.push(Bytes::copy(alloc, b"a")?, Bytes::copy(alloc, b"1")?)?;
    Ok(rows)
}

fn check_rows(rt: &impl Abort, rows: &PairList) {
    check(rt, 0, &rows.len(), &1);
    for (key, value) in rows.as_slice() {
        check(rt, 0, &(key.as_slice(), value.as_slice()), &(b"a", b"1"));
    }
}

#[test]
fn keeps_pairs_in_order(rt: HostRuntime) -> Result<(), Fail> {
    let rows = one_row(rt.alloc())?;
    check_rows(&rt, &PairList::from_vec(rows.into_vec()));
    Ok(())
}

// Keys that are shorter than the front that is compared first, as long as it, and longer ones that share a front.
const INSERTED: [(&[u8], &[u8]); 16] = [
    (b"b", b"1"),
    (b"", b"2"),
    (b"a key of 20 bytes..2", b"6"),
    (b"ab", b"3"),
    (b"b", b"4"),
    (b"a key of 20 bytes..1", b"7"),
    (b"a", b"5"),
    (b"c key of 20 bytes...", b"8"),
    (b"a key of 20 bytes..2", b"9"),
    (b"sixteen bytes of", b"1"),
    (b"sixteen bytes of it", b"2"),
    (b"", b"3"),
    (b"sixteen bytes of all", b"4"),
    (b"s\0", b"5"),
    (b"s", b"6"),
    (b"sixteen bytes of", b"7"),
];

const LEFT: [(&[u8], &[u8]); 9] = [
    (b"", b"3"),
    (b"a", b"5"),
    (b"a key of 20 bytes..2", b"9"),
    (b"b", b"4"),
    (b"c key of 20 bytes...", b"8"),
    (b"s", b"6"),
    (b"s\0", b"5"),
    (b"sixteen bytes of", b"7"),
    (b"sixteen bytes of all", b"4"),
];

// The map of all pairs, after six keys were removed, of which three weren't there.
fn map_of_nine(alloc: Global) -> Result<ByteMap, NoMemory> {
    let mut map = ByteMap::new(alloc);
    for (key, value) in &INSERTED {
        map.insert(key, value)?;
    }
    map.remove(b"ab");
    map.remove(b"abc");
    map.remove(b"a key of 20 bytes..1");
    map.remove(b"a key of 20 bytes..3");
    map.remove(b"sixteen bytes of it");
    map.remove(b"sixteen bytes of i");
    Ok(map)
}

fn check_map(rt: &impl Abort, map: &ByteMap) {
    check(rt, 0, &map.len(), &LEFT.len());
    check(rt, 1, &map.get(b"b"), &Some(b"4"));
    check(rt, 2, &map.get(b"ab"), &None);
    check(rt, 3, &map.get(b"a key of 20 bytes..2"), &Some(b"9"));
    check(rt, 4, &map.get(b"a key of 20 bytes..1"), &None);
    let mut wanted = LEFT.iter();
    for pair in map.iter() {
        check(rt, 5, &Some(&pair), &wanted.next());
    }
}

#[test]
fn has_the_last_value_of_each_key(rt: HostRuntime) -> Result<(), Fail> {
    check_map(&rt, &map_of_nine(rt.alloc())?);
    Ok(())
}
