//! What logs recover: whole ones, with records in one fragment and in several, logs with one more record that may
//! follow or may not, and logs whose disk fails. `tests/real_file` shows that a missing log is a fault.

use crate::changes::cut_at;
use crate::checks::check;
use crate::logs::{
    LOG, NOTE, PUT, PUT_IN_300, SECOND_AT, Summary, WITH_LONG_FAMILY, WITH_LONG_VARINT, WITH_TAG_2,
    WITHOUT_VALUE, add_all, batch_bytes, check_cuts, check_map, put_record, recovered,
};
use base_devices::MemDisk;
use base_maps::FamilyMap;
use log_batch::RecordView::{Deletion, LogData, SingleDeletion, Value};
use log_batch::{Batch, RecordView};
use log_recovery::{GroupNote, RecoverError, recover};
use model_base::{Damage, EndReason, NoMemory};
use std::alloc::Global;
use std::test::Fail;

fn batch_of(alloc: Global, sequence: u64, records: &[RecordView<'_>]) -> Result<Batch, Fail> {
    let mut batch = Batch::new(alloc)?;
    batch.set_sequence(sequence);
    add_all(&mut batch, records)?;
    Ok(batch)
}

// Adds a batch of these records at the end of a log.
fn put_batch(
    alloc: Global,
    log: &mut Vec<u8>,
    sequence: u64,
    records: &[RecordView<'_>],
) -> Result<(), Fail> {
    let batch = batch_of(alloc, sequence, records)?;
    put_record(log, batch.bytes())?;
    Ok(())
}

const SECOND_BATCH: [RecordView<'static>; 4] = [
    Deletion {
        family: None,
        key: b"a",
    },
    LogData { blob: b"x" },
    Value {
        family: None,
        key: b"c",
        value: b"3",
    },
    SingleDeletion {
        family: None,
        key: b"d",
    },
];

// The log of two batches. The first puts this value of 40,000 bytes, and so lies in two fragments.
fn log_of_two(alloc: Global, value: &[u8]) -> Result<Vec<u8>, Fail> {
    let small = Value {
        family: None,
        key: b"a",
        value: b"1",
    };
    let mut log = Vec::new(alloc);
    let large = Value {
        family: None,
        key: b"b",
        value,
    };
    put_batch(alloc, &mut log, 1, &[small, large])?;
    put_batch(alloc, &mut log, 3, &SECOND_BATCH)?;
    Ok(log)
}

// The groups that a log recovers, and its map.
fn whole(alloc: Global, log: &[u8]) -> Result<(Vec<GroupNote>, FamilyMap), RecoverError> {
    let mut disk = MemDisk::new(alloc, log.len(), log, &[])?;
    let found = recover(alloc, &mut disk, None)?;
    Ok((found.groups, found.map))
}

const SMALL_NOTES: [GroupNote; 2] = [
    GroupNote {
        first: 1,
        count: 1,
        size: 17,
    },
    GroupNote {
        first: 2,
        count: 1,
        size: 17,
    },
];

const SMALL_PAIRS: [(u32, &[u8], &[u8]); 2] = [(0, b"a", b"1"), (0, b"b", b"2")];

#[test]
fn recovers_a_small_log(rt: HostRuntime) -> Result<(), Fail> {
    let (notes, map) = whole(rt.alloc(), &LOG)?;
    check(&rt, 0, &notes.as_slice(), &SMALL_NOTES.as_slice());
    check_map(&rt, &map, &SMALL_PAIRS);
    Ok(())
}

// The same key in three families, of which one is deleted again, and a key of the default family by its number.
const FAMILIES: [RecordView<'static>; 5] = [
    Value {
        family: Some(300),
        key: b"a",
        value: b"1",
    },
    Value {
        family: Some(2),
        key: b"a",
        value: b"2",
    },
    Value {
        family: Some(0),
        key: b"b",
        value: b"3",
    },
    Value {
        family: None,
        key: b"a",
        value: b"4",
    },
    SingleDeletion {
        family: Some(2),
        key: b"a",
    },
];

const FAMILY_PAIRS: [(u32, &[u8], &[u8]); 3] = [
    (0, b"a", b"4"),
    (0, b"b", b"3"),
    (300, b"a", b"1"),
];

#[test]
fn recovers_families(rt: HostRuntime) -> Result<(), Fail> {
    let mut log = Vec::new(rt.alloc());
    put_batch(rt.alloc(), &mut log, 1, &FAMILIES)?;
    let (_, map) = whole(rt.alloc(), &log)?;
    check_map(&rt, &map, &FAMILY_PAIRS);
    check(&rt, 0, &map.greatest_family(), &300);
    Ok(())
}

const LARGE_NOTES: [GroupNote; 2] = [
    GroupNote {
        first: 1,
        count: 2,
        size: 40_023,
    },
    GroupNote {
        first: 3,
        count: 3,
        size: 26,
    },
];

#[test]
fn recovers_a_record_in_parts(rt: HostRuntime) -> Result<(), Fail> {
    let value = vec![in rt.alloc(); 7u8; 40_000]?;
    let log = log_of_two(rt.alloc(), &value)?;
    let (notes, map) = whole(rt.alloc(), &log)?;
    check(&rt, 0, &notes.as_slice(), &LARGE_NOTES.as_slice());
    check_map(&rt, &map, &[(0, b"b", &value), (0, b"c", b"3")]);
    Ok(())
}

const SHORT_HEADER: EndReason = EndReason::Broken(Damage::ShortHeader);

const CUT: [(usize, Summary); 5] = [
    (32_768, (0, 0, 0, 0, EndReason::Unfinished)),
    (32_771, (0, 0, 0, 32_768, SHORT_HEADER)),
    (40_037, (1, 2, 40_037, 40_037, EndReason::Clean)),
    (40_040, (1, 2, 40_037, 40_037, SHORT_HEADER)),
    (40_070, (2, 5, 40_070, 40_070, EndReason::Clean)),
];

#[test]
fn ends_inside_a_record(rt: HostRuntime) -> Result<(), Fail> {
    let value = vec![in rt.alloc(); 7u8; 40_000]?;
    let log = log_of_two(rt.alloc(), &value)?;
    check_cuts(&rt, rt.alloc(), &log, &CUT)
}

const MAX_SEQUENCE: u64 = 72_057_594_037_927_935;

// Two deletions of an empty key.
const TWO_DELETIONS: [u8; 4] = [0, 0, 0, 0];

// A record that may not follow: its first sequence, the count in its header, its records, and why it isn't kept.
const STOPPED: [(u64, u32, &[u8], EndReason); 7] = [
    (2, 1, &WITH_TAG_2, EndReason::Tag(2)),
    (2, 2, &PUT, EndReason::Count { said: 2, found: 1 }),
    (2, 1, &WITHOUT_VALUE, EndReason::Short),
    (2, 1, &WITH_LONG_VARINT, EndReason::BadVarint),
    (2, 1, &WITH_LONG_FAMILY, EndReason::BadVarint),
    (1, 1, &PUT, EndReason::Order { first: 1, last: 1 }),
    (
        MAX_SEQUENCE,
        2,
        &TWO_DELETIONS,
        EndReason::High {
            first: MAX_SEQUENCE,
            count: 2,
        },
    ),
];

// `put a 1` and `put b 2`.
const TWO_PUTS: [u8; 10] = [1, 1, b'a', 1, b'1', 1, 1, b'b', 1, b'2'];

// The log has one record with two puts, which begins at the greatest sequence.
#[test]
fn stops_at_a_first_record_that_goes_too_high(rt: HostRuntime) -> Result<(), Fail> {
    let bytes = batch_bytes(rt.alloc(), MAX_SEQUENCE, 2, &TWO_PUTS)?;
    let mut log = Vec::new(rt.alloc());
    put_record(&mut log, &bytes)?;
    let why = EndReason::High {
        first: MAX_SEQUENCE,
        count: 2,
    };
    check(&rt, 0, &recovered(rt.alloc(), &log), &Ok((0, 0, 0, 0, why)));
    Ok(())
}

// A record that may follow, and what is recovered then.
const KEPT: [(u64, u32, &[u8], Summary); 3] = [
    (
        MAX_SEQUENCE,
        1,
        &PUT,
        (2, MAX_SEQUENCE, 48, 48, EndReason::Clean),
    ),
    (1, 0, &NOTE, (2, 1, 46, 46, EndReason::Clean)),
    (2, 1, &PUT_IN_300, (2, 2, 50, 50, EndReason::Clean)),
];

// The log's first record, with this one after it.
fn log_behind(alloc: Global, first: u64, count: u32, records: &[u8]) -> Result<Vec<u8>, Fail> {
    let mut log = Vec::from_slice(alloc, cut_at(&LOG, SECOND_AT)?)?;
    let bytes = batch_bytes(alloc, first, count, records)?;
    put_record(&mut log, &bytes)?;
    Ok(log)
}

#[test]
fn stops_at_what_may_not_follow(rt: HostRuntime) -> Result<(), Fail> {
    for (row, (first, count, records, why)) in STOPPED.iter().enumerate() {
        let log = log_behind(rt.alloc(), *first, *count, records)?;
        let found = recovered(rt.alloc(), &log);
        check(&rt, row, &found, &Ok((1, 1, 24, 24, *why)));
    }
    Ok(())
}

#[test]
fn keeps_what_may_follow(rt: HostRuntime) -> Result<(), Fail> {
    for (row, (first, count, records, wanted)) in KEPT.iter().enumerate() {
        let log = log_behind(rt.alloc(), *first, *count, records)?;
        check(&rt, row, &recovered(rt.alloc(), &log), &Ok(*wanted));
    }
    Ok(())
}

// The error where this call of a disk with the first record fails.
fn fault_at(alloc: Global, call: u64) -> Result<Option<RecoverError>, Fail> {
    let log = cut_at(&LOG, SECOND_AT)?;
    let mut disk = MemDisk::new(alloc, log.len(), log, &[call])?;
    Ok(recover(alloc, &mut disk, None).err())
}

#[test]
fn a_fault_is_answered(rt: HostRuntime) -> Result<(), Fail> {
    for call in 1..3 {
        let error = fault_at(rt.alloc(), call)?;
        check(&rt, 0, &error, &Some(RecoverError::Fault { count: 1 }));
    }
    Ok(())
}
