//! Batches: the bytes that their additions make, the limit on their size, and batches read from bytes.

use crate::checks::check;
use crate::logs::{
    NOTE, PUT, WITH_LONG_FAMILY, WITH_LONG_VARINT, WITH_TAG_2, WITHOUT_VALUE, add_all, batch_bytes,
};
use log_batch::RecordView::{Deletion, LogData, SingleDeletion, Value};
use log_batch::{AddError, Batch, BatchView, RecordView, read_batch};
use model_base::{BatchError, MAX_SIZE};
use std::alloc::{AllocError, Global};
use std::process::Abort;
use std::test::Fail;

const TWO_PUTS_AND_A_DELETION: [u8; 25] = [
    1, 0, 0, 0, 0, 0, 0, 0, // sequence 1
    3, 0, 0, 0, // count 3
    1, 1, b'a', 1, b'1', // put a 1
    1, 1, b'a', 1, b'2', // put a 2
    0, 1, b'a', // delete a
];

const LOG_DATA_AND_A_PUT: [u8; 20] = [
    1, 0, 0, 0, 0, 0, 0, 0, // sequence 1
    1, 0, 0, 0, // count 1
    3, 1, b'x', // log data x
    1, 1, b'a', 1, b'1', // put a 1
];

const A_SINGLE_DELETION: [u8; 15] = [
    3, 0, 0, 0, 0, 0, 0, 0, // sequence 3
    1, 0, 0, 0, // count 1
    7, 1, b'a', // single-delete a
];

const IN_FAMILIES: [u8; 36] = [
    1, 0, 0, 0, 0, 0, 0, 0, // sequence 1
    4, 0, 0, 0, // count 4
    5, 0xac, 0x02, 1, b'a', 1, b'1', // put a 1 in the family 300
    4, 1, 1, b'a', // delete a in the family 1
    8, 0xff, 0xff, 0xff, 0xff, 0x0f, 1, b'a', // single-delete a in the greatest family
    5, 0, 1, b'a', 0, // put a and no bytes in the family 0, which is named
];

const PUTS: [RecordView<'static>; 3] = [
    Value {
        family: None,
        key: b"a",
        value: b"1",
    },
    Value {
        family: None,
        key: b"a",
        value: b"2",
    },
    Deletion {
        family: None,
        key: b"a",
    },
];

const NOTED: [RecordView<'static>; 2] = [
    LogData { blob: b"x" },
    Value {
        family: None,
        key: b"a",
        value: b"1",
    },
];

const DELETED: [RecordView<'static>; 1] = [SingleDeletion {
    family: None,
    key: b"a",
}];

const NAMED: [RecordView<'static>; 4] = [
    Value {
        family: Some(300),
        key: b"a",
        value: b"1",
    },
    Deletion {
        family: Some(1),
        key: b"a",
    },
    SingleDeletion {
        family: Some(4_294_967_295),
        key: b"a",
    },
    Value {
        family: Some(0),
        key: b"a",
        value: b"",
    },
];

// A batch's bytes, its sequence, how many of its additions count, and its size.
type Facts<'a> = (&'a [u8], u64, u32, u64);

// Additions, and the facts of the batch that has them. Log data isn't counted.
const MADE: [(&[RecordView<'static>], Facts<'static>); 4] = [
    (&PUTS, (&TWO_PUTS_AND_A_DELETION, 1, 3, 25)),
    (&DELETED, (&A_SINGLE_DELETION, 3, 1, 15)),
    (&NOTED, (&LOG_DATA_AND_A_PUT, 1, 1, 20)),
    (&NAMED, (&IN_FAMILIES, 1, 4, 36)),
];

fn facts(batch: &Batch) -> Facts<'_> {
    (batch.bytes(), batch.sequence(), batch.count(), batch.size())
}

// One batch gets the additions of each row in turn: it is new before the first row, and is cleared before each other
// one.
#[test]
fn has_the_bytes_of_its_additions(rt: HostRuntime) -> Result<(), Fail> {
    let mut batch = Batch::new(rt.alloc())?;
    for (row, (records, wanted)) in MADE.iter().enumerate() {
        check(&rt, row, &facts(&batch), &(&[0; 12], 0, 0, 12));
        add_all(&mut batch, records)?;
        batch.set_sequence(wanted.1);
        check(&rt, row, &facts(&batch), wanted);
        batch.clear();
    }
    Ok(())
}

// Keys of a family are added by its number, which is named unless it is the default one's.
#[test]
fn names_the_families_that_are_not_the_default_one(rt: HostRuntime) -> Result<(), Fail> {
    let mut batch = Batch::new(rt.alloc())?;
    batch.put_in(0, b"a", b"1")?;
    batch.put_in(0, b"a", b"2")?;
    batch.delete_in(0, b"a")?;
    batch.set_sequence(1);
    check(&rt, 0, &facts(&batch), &MADE[0].1);
    batch.clear();
    batch.put_in(300, b"a", b"1")?;
    batch.delete_in(1, b"a")?;
    batch.single_delete_in(4_294_967_295, b"a")?;
    let (found, named) = (batch.records().count(), batch.bytes().len());
    check(&rt, 1, &(found, named, batch.count()), &(3, 31, 3));
    let mut wanted = NAMED.iter();
    for record in batch.records() {
        check(&rt, 2, &Some(&record), &wanted.next());
    }
    Ok(())
}

// Puts `len` zeros at a key. Answers what the put answered, how many additions count then, and the batch's size.
fn put_zeros(
    alloc: Global,
    batch: &mut Batch,
    len: usize,
) -> Result<(Result<(), AddError>, u32, u64), AllocError> {
    let value = vec![in alloc; 0u8; len]?;
    let done = batch.put(b"k", &value);
    Ok((done, batch.count(), batch.size()))
}

#[test]
fn takes_no_more_than_the_limit(rt: HostRuntime) -> Result<(), Fail> {
    let mut batch = Batch::new(rt.alloc())?;
    let refused = put_zeros(rt.alloc(), &mut batch, 16_777_198)?;
    let too_large = AddError::TooLarge { size: 16_777_217 };
    check(&rt, 0, &refused, &(Err(too_large), 0, 12));
    let taken = put_zeros(rt.alloc(), &mut batch, 16_777_197)?;
    check(&rt, 1, &taken, &(Ok(()), 1, MAX_SIZE));
    Ok(())
}

const WITH_ANOTHER: [u8; 33] = [
    7, 0, 0, 0, 0, 0, 0, 0, // sequence 7
    4, 0, 0, 0, // count 4
    1, 1, b'a', 1, b'1', // put a 1
    1, 1, b'a', 1, b'2', // put a 2
    0, 1, b'a', // delete a
    3, 1, b'x', // log data x
    1, 1, b'a', 1, b'1', // put a 1
];

// The records of another batch are added after those of this one. The other batch's sequence is ignored.
#[test]
fn takes_the_records_of_another(rt: HostRuntime) -> Result<(), Fail> {
    let mut batch = Batch::new(rt.alloc())?;
    add_all(&mut batch, &PUTS)?;
    batch.set_sequence(7);
    batch.append(&read_batch(&LOG_DATA_AND_A_PUT)?)?;
    check(&rt, 0, &facts(&batch), &(&WITH_ANOTHER, 7, 4, 33));
    Ok(())
}

// The other batch's records would make this one too large by one byte, so none of them is taken.
#[test]
fn takes_all_records_of_another_or_none(rt: HostRuntime) -> Result<(), Fail> {
    let mut batch = Batch::new(rt.alloc())?;
    let (zeros, _, _) = put_zeros(rt.alloc(), &mut batch, 16_777_190)?;
    zeros?;
    let refused = batch.append(&read_batch(&LOG_DATA_AND_A_PUT)?);
    let too_large = AddError::TooLarge { size: 16_777_217 };
    check(
        &rt,
        0,
        &(refused, batch.count(), batch.size()),
        &(Err(too_large), 1, 16_777_209),
    );
    let taken = batch.append(&read_batch(&A_SINGLE_DELETION)?);
    check(
        &rt,
        1,
        &(taken, batch.count(), batch.size()),
        &(Ok(()), 2, 16_777_212),
    );
    Ok(())
}

const READ: [RecordView<'static>; 4] = [
    Value {
        family: None,
        key: b"a",
        value: b"1",
    },
    LogData { blob: b"x" },
    Deletion {
        family: None,
        key: b"b",
    },
    SingleDeletion {
        family: None,
        key: b"c",
    },
];

fn check_read(rt: &impl Abort, view: &BatchView<'_>) {
    let found = (view.sequence(), view.count(), view.records().count());
    check(rt, 0, &found, &(1, 3, 4));
    let mut wanted = READ.iter();
    for record in view.records() {
        check(rt, 1, &Some(&record), &wanted.next());
    }
}

#[test]
fn reads_families(rt: HostRuntime) -> Result<(), Fail> {
    let view = read_batch(&IN_FAMILIES)?;
    let mut wanted = NAMED.iter();
    for record in view.records() {
        check(&rt, 0, &Some(&record), &wanted.next());
    }
    check(&rt, 1, &(view.count(), wanted.next()), &(4, None));
    Ok(())
}

#[test]
fn reads_a_batch(rt: HostRuntime) -> Result<(), Fail> {
    let records = [
        1, 1, b'a', 1, b'1', // put a 1
        3, 1, b'x', // log data x
        0, 1, b'b', // delete b
        7, 1, b'c', // single-delete c
    ];
    let bytes = batch_bytes(rt.alloc(), 1, 3, &records)?;
    check_read(&rt, &read_batch(&bytes)?);
    Ok(())
}

// How many additions count in a batch that is read.
fn counted(bytes: &[u8]) -> Result<u32, BatchError> {
    Ok(read_batch(bytes)?.count())
}

// A put whose key has a length, a varint, of 33 bits.
const WITH_VARINT_OF_33_BITS: [u8; 6] = [1, 0xff, 0xff, 0xff, 0xff, 0x1f];

// A tag that no record has, followed by half a varint.
const WITH_TAG_255: [u8; 2] = [0xff, 0x80];

// A put in a family whose number has 33 bits, and one that ends after its family.
const WITH_FAMILY_OF_33_BITS: [u8; 6] = [5, 0xff, 0xff, 0xff, 0xff, 0x1f];

const WITHOUT_KEY: [u8; 3] = [5, 0xac, 0x02];

// The count in the header, the records, and why they are no batch.
const NO_BATCHES: [(u32, &[u8], BatchError); 12] = [
    (1, &WITH_TAG_2, BatchError::Tag(2)),
    (2, &PUT, BatchError::Count { said: 2, found: 1 }),
    (0, &PUT, BatchError::Count { said: 0, found: 1 }),
    (1, &NOTE, BatchError::Count { said: 1, found: 0 }),
    (1, &WITHOUT_VALUE, BatchError::Short),
    (1, &WITH_LONG_VARINT, BatchError::BadVarint),
    (1, &WITH_VARINT_OF_33_BITS, BatchError::BadVarint),
    (9, &WITH_TAG_255, BatchError::Tag(255)),
    (1, &WITH_LONG_FAMILY, BatchError::BadVarint),
    (1, &WITH_FAMILY_OF_33_BITS, BatchError::BadVarint),
    (1, &WITHOUT_KEY, BatchError::Short),
    (1, &[8], BatchError::Short),
];

#[test]
fn refuses_what_is_no_batch(rt: HostRuntime) -> Result<(), Fail> {
    for (row, (count, records, error)) in NO_BATCHES.iter().enumerate() {
        let bytes = batch_bytes(rt.alloc(), 1, *count, records)?;
        check(&rt, row, &counted(&bytes), &Err(*error));
    }
    Ok(())
}

// What is read of the first `len` bytes of the batch of two puts and a deletion.
fn counted_of_cut(len: usize) -> Result<u32, BatchError> {
    match len {
        12 => Err(BatchError::Count { said: 3, found: 0 }),
        17 => Err(BatchError::Count { said: 3, found: 1 }),
        22 => Err(BatchError::Count { said: 3, found: 2 }),
        25 => Ok(3),
        _ => Err(BatchError::Short),
    }
}

#[test]
fn says_where_a_cut_batch_breaks_off(rt: HostRuntime) {
    for len in 0..26 {
        let cut = counted(&TWO_PUTS_AND_A_DELETION[..len]);
        check(&rt, len, &cut, &counted_of_cut(len));
    }
}
