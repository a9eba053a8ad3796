//! Logs and batches that several tests make, and what a log recovers.

use crate::changes::{cut_at, put_zeros};
use crate::checks::check;
use base_devices::MemDisk;
use base_maps::FamilyMap;
use log_batch::{AddError, Batch, RecordView};
use log_block::{BLOCK_LEN, Fragmenter, header, max_part_len};
use log_recovery::{End, RecoverError, recover};
use model_base::EndReason;
use std::alloc::{AllocError, Global};
use std::process::Abort;
use std::test::Fail;

/// The record `put a 1`.
pub(crate) const PUT: [u8; 5] = [1, 1, b'a', 1, b'1'];

/// The record `put a 2` in the family 300.
pub(crate) const PUT_IN_300: [u8; 7] = [5, 0xac, 0x02, 1, b'a', 1, b'2'];

/// The log data `x`, which isn't counted.
pub(crate) const NOTE: [u8; 3] = [3, 1, b'x'];

/// `put a 1` with a tag that no record has.
pub(crate) const WITH_TAG_2: [u8; 5] = [2, 1, b'a', 1, b'1'];

/// `put a` with a value of five bytes, none of which is there.
pub(crate) const WITHOUT_VALUE: [u8; 4] = [1, 1, b'a', 5];

/// A put with an empty key, whose length 0 is a varint of two bytes.
pub(crate) const WITH_LONG_VARINT: [u8; 3] = [1, 0x80, 0];

/// A deletion of an empty key in the family 0, whose number is a varint of two bytes.
pub(crate) const WITH_LONG_FAMILY: [u8; 4] = [4, 0x80, 0, 0];

/// The fragment of an empty record. The checksum was computed by another program.
pub(crate) const EMPTY: [u8; 7] = [0x05, 0x2b, 0x28, 0x43, 0x00, 0x00, 0x01];

/// A log of `put a 1` and `put b 2`, each in a record of its own. The checksums were computed by another program.
pub(crate) const LOG: [u8; 48] = [
    0xe9, 0x9f, 0x78, 0x19, 0x11, 0x00, 0x01, // the header of the first
    0x01, 0x00, 0x00, 0x00, 0x00, 0x00, 0x00, 0x00, // sequence 1
    0x01, 0x00, 0x00, 0x00, // count 1
    0x01, 0x01, b'a', 0x01, b'1', // put a 1
    0x8f, 0x72, 0xbc, 0x7a, 0x11, 0x00, 0x01, // the header of the second
    0x02, 0x00, 0x00, 0x00, 0x00, 0x00, 0x00, 0x00, // sequence 2
    0x01, 0x00, 0x00, 0x00, // count 1
    0x01, 0x01, b'b', 0x01, b'2', // put b 2
];

/// Where the second record of `LOG` begins. The first has the bytes before it.
pub(crate) const SECOND_AT: usize = 24;

/// Adds a fragment of this type at the end of a log with this number, if it has one. It leaves the log as it is where
/// the part is too long for one fragment.
pub(crate) fn put_fragment_in(
    number: Option<u32>,
    log: &mut Vec<u8>,
    kind: u8,
    part: &[u8],
) -> Result<(), AllocError> {
    if part.len() <= max_part_len(number) {
        log.extend_from_slice(header(number, kind, part).as_slice())?;
        log.extend_from_slice(part)?;
    }
    Ok(())
}

/// As [`put_fragment_in`], for a log without a number.
pub(crate) fn put_fragment(log: &mut Vec<u8>, kind: u8, part: &[u8]) -> Result<(), AllocError> {
    put_fragment_in(None, log, kind, part)
}

/// Adds a record at the end of a log with this number, if it has one, cut into its fragments, with their right
/// checksums.
pub(crate) fn put_record_in(
    number: Option<u32>,
    log: &mut Vec<u8>,
    bytes: &[u8],
) -> Result<(), AllocError> {
    // The pieces so far are at the end of the log.
    for piece in Fragmenter::new(number, log.len() % BLOCK_LEN, bytes.len()) {
        put_zeros(log, piece.zeros)?;
        if let Some(part) = bytes.get(piece.start..piece.end) {
            put_fragment_in(number, log, piece.kind, part)?;
        }
    }
    Ok(())
}

/// As [`put_record_in`], for a log without a number.
pub(crate) fn put_record(log: &mut Vec<u8>, bytes: &[u8]) -> Result<(), AllocError> {
    put_record_in(None, log, bytes)
}

/// The bytes of a batch with this header and these records, which may be none.
pub(crate) fn batch_bytes(
    alloc: Global,
    first: u64,
    count: u32,
    records: &[u8],
) -> Result<Vec<u8>, AllocError> {
    let mut bytes = Vec::new(alloc);
    bytes.extend_from_slice(&first.to_le_bytes())?;
    bytes.extend_from_slice(&count.to_le_bytes())?;
    bytes.extend_from_slice(records)?;
    Ok(bytes)
}

/// Adds records to a batch.
pub(crate) fn add_all(batch: &mut Batch, records: &[RecordView<'_>]) -> Result<(), AddError> {
    for record in records {
        batch.add(*record)?;
    }
    Ok(())
}

/// What a log recovers: how many groups, the last sequence, how many bytes are kept, where recovery ends, and why.
pub(crate) type Summary = (usize, u64, u64, u64, EndReason);

/// What is recovered from these bytes, read as a log with this number, if it has one.
pub(crate) fn recovered_as(
    number: Option<u32>,
    alloc: Global,
    bytes: &[u8],
) -> Result<Summary, RecoverError> {
    let mut disk = MemDisk::new(alloc, bytes.len(), bytes, &[])?;
    let log = recover(alloc, &mut disk, number)?;
    let End { at, why } = log.end;
    Ok((log.groups.len(), log.last, log.kept, at, why))
}

/// What is recovered from these bytes, read as a log without a number.
pub(crate) fn recovered(alloc: Global, bytes: &[u8]) -> Result<Summary, RecoverError> {
    recovered_as(None, alloc, bytes)
}

/// For each row, compares what the first `len` bytes of a log recover with what they should.
pub(crate) fn check_cuts(
    rt: &impl Abort,
    alloc: Global,
    log: &[u8],
    rows: &[(usize, Summary)],
) -> Result<(), Fail> {
    for (row, (len, wanted)) in rows.iter().enumerate() {
        let found = recovered(alloc, cut_at(log, *len)?);
        check(rt, row, &found, &Ok(*wanted));
    }
    Ok(())
}

/// Compares the pairs of a map, each with its family.
pub(crate) fn check_map(rt: &impl Abort, map: &FamilyMap, pairs: &[(u32, &[u8], &[u8])]) {
    check(rt, 0, &map.len(), &pairs.len());
    let mut wanted = pairs.iter();
    for pair in map.iter() {
        check(rt, 1, &Some(&pair), &wanted.next());
    }
}
