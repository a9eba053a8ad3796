//! The text of a record in a buffer: worked examples, buffers that are too small, and what a log's writer puts on its
//! disk.

use crate::checks::check;
use crate::reopening::reused;
use crate::writing::{Answers, GROUP, add_three, opened, three_batches};
use base_devices::MemDisk;
use log_batch::Batch;
use log_text::{lay_record, text_len};
use log_writer::LogWriter;
use std::alloc::{AllocError, Global};
use std::test::Fail;

// The record of `GROUP`, where it comes after its fragment's header.
const RECORD: [u8; 22] = [
    0x01, 0x00, 0x00, 0x00, 0x00, 0x00, 0x00, 0x00, // sequence 1
    0x02, 0x00, 0x00, 0x00, // count 2
    0x01, 0x01, b'a', 0x01, b'1', // put a 1
    0x01, 0x01, b'b', 0x01, b'2', // put b 2
];

// `abc` where four bytes are left of a block. The checksums of this and the next were computed by another program.
const BEHIND_ZEROS: [u8; 14] = [
    0x00, 0x00, 0x00, 0x00, // the block's end
    0xf2, 0x70, 0xe8, 0x9d, 0x03, 0x00, 0x01, b'a', b'b', b'c',
];

// `abc` where eight bytes are left of a block.
const IN_TWO: [u8; 17] = [
    0xea, 0x75, 0x3d, 0x51, 0x01, 0x00, 0x02, b'a', // in the block
    0xc2, 0x42, 0xbf, 0x86, 0x02, 0x00, 0x04, b'b', b'c', // in the next one
];

// `abc` in the log with the number 7, where eleven bytes are left of a block.
const NUMBERED: [u8; 25] = [
    0x03, 0x83, 0xb2, 0x00, 0x00, 0x00, 0x06, // a header in the block
    0x07, 0x00, 0x00, 0x00, // number 7
    0x8b, 0xf6, 0xab, 0xd6, 0x03, 0x00, 0x08, // a header in the next one
    0x07, 0x00, 0x00, 0x00, // number 7
    b'a', b'b', b'c',
];

// The log's number, if it has one, an offset, a record and its text.
const TEXTS: [(Option<u32>, u64, &[u8], &[u8]); 5] = [
    (None, 0, &RECORD, &GROUP),
    (None, 29, &RECORD, &GROUP),
    (None, 98_300, b"abc", &BEHIND_ZEROS),
    (None, 32_760, b"abc", &IN_TWO),
    (Some(7), 32_757, b"abc", &NUMBERED),
];

// What a buffer has before anything is laid there.
const OLD: u8 = 0xee;

// Lays a record's text in a buffer of `room` bytes. Answers what the call answered, and the buffer.
fn laid(
    alloc: Global,
    number: Option<u32>,
    offset: u64,
    bytes: &[u8],
    room: usize,
) -> Result<(Option<usize>, Vec<u8>), AllocError> {
    let mut buffer = vec![in alloc; OLD; room]?;
    let len = lay_record(number, offset, bytes, &mut buffer);
    Ok((len, buffer))
}

// A text, and after it one byte of what was in the buffer before.
fn with_old(alloc: Global, text: &[u8]) -> Result<Vec<u8>, AllocError> {
    let mut bytes = Vec::from_slice(alloc, text)?;
    bytes.extend_from_slice(&[OLD])?;
    Ok(bytes)
}

// The buffer has one byte more than the text.
#[test]
fn lays_texts(rt: HostRuntime) -> Result<(), Fail> {
    // All rows so far were as wanted.
    for (row, (number, offset, bytes, text)) in TEXTS.iter().enumerate() {
        let wanted = with_old(rt.alloc(), text)?;
        let (len, buffer) = laid(rt.alloc(), *number, *offset, bytes, wanted.len())?;
        check(&rt, row, &len, &Some(text.len()));
        check(&rt, row, &buffer.as_slice(), &wanted.as_slice());
    }
    Ok(())
}

// The buffer has one byte less than the text.
#[test]
fn leaves_small_buffers(rt: HostRuntime) -> Result<(), Fail> {
    // All rows so far were as wanted.
    for (row, (number, offset, bytes, text)) in TEXTS.iter().enumerate() {
        let room = text.len().saturating_sub(1);
        let (len, buffer) = laid(rt.alloc(), *number, *offset, bytes, room)?;
        let wanted = vec![in rt.alloc(); OLD; room]?;
        check(&rt, row, &len, &None);
        check(&rt, row, &buffer.as_slice(), &wanted.as_slice());
    }
    Ok(())
}

// The log's number, if it has one, an offset, a record's length and the length of its text. The last text is longer
// than a `u64` can say, so the answer is the greatest `u64`.
const LENGTHS: [(Option<u32>, u64, usize, u64); 6] = [
    (None, 0, 0, 7),
    (None, 1007, 97_270, 97_291),
    (None, 98_298, 8000, 8013),
    (Some(7), 32_757, 3, 25),
    (Some(7), 32_758, 3, 24),
    (None, 0, usize::MAX, u64::MAX),
];

#[test]
fn tells_lengths(rt: HostRuntime) {
    // All rows so far were as wanted.
    for (row, (number, offset, len, wanted)) in LENGTHS.iter().enumerate() {
        check(&rt, row, &text_len(*number, *offset, *len), wanted);
    }
}

// Lays a record's text at the end of a log with this number, if it has one.
fn lay_behind(log: &mut Vec<u8>, number: Option<u32>, bytes: &[u8]) -> Result<(), AllocError> {
    let offset = log.len();
    let len = text_len(number, offset as u64, bytes.len());
    log.resize(offset.saturating_add(len as usize), OLD)?;
    if let Some(buffer) = log.as_mut_slice().get_mut(offset..) {
        let _ = lay_record(number, offset as u64, bytes, buffer);
    }
    Ok(())
}

// A log with this number, if it has one, on an empty disk.
fn begun(alloc: Global, number: Option<u32>) -> Result<LogWriter<MemDisk>, Fail> {
    match number {
        None => opened(alloc, 110_000, &[]),
        Some(number) => reused(alloc, MemDisk::new(alloc, 110_000, b"", &[])?, number),
    }
}

// Batches that put these numbers of zeros, with the sequences 1, 2 and 3.
fn batches_of(alloc: Global, zeros: [usize; 3]) -> Result<[Batch; 3], Fail> {
    let [mut one, mut two, mut three] = three_batches(alloc, zeros)?;
    one.set_sequence(1);
    two.set_sequence(2);
    three.set_sequence(3);
    Ok([one, two, three])
}

// The texts of the batches' records, one after another.
fn texts_of(alloc: Global, number: Option<u32>, batches: &[Batch]) -> Result<Vec<u8>, AllocError> {
    let mut texts = Vec::new(alloc);
    // The batches so far have their texts there.
    for batch in batches {
        lay_behind(&mut texts, number, batch.bytes())?;
    }
    Ok(texts)
}

// The disk of a log of three groups, whose batches put these numbers of zeros, and the texts of their records.
fn written_and_laid(
    alloc: Global,
    number: Option<u32>,
    zeros: [usize; 3],
) -> Result<(MemDisk, Answers, Vec<u8>), Fail> {
    let batches = batches_of(alloc, zeros)?;
    let texts = texts_of(alloc, number, &batches)?;
    let mut log = begun(alloc, number)?;
    let answers = add_three(&mut log, batches, [false; 3]);
    Ok((log.into_disk(), answers, texts))
}

// A log's number, if it has one, and how many zeros its batches put. One of them is cut over several blocks. In the
// other rows the first record leaves room in its block for just a header, or for less, or for nothing.
const LOGS: [(Option<u32>, [usize; 3]); 7] = [
    (None, [983, 97_252, 7983]),
    (None, [32_736, 1, 1]),
    (None, [32_740, 1, 1]),
    (None, [32_743, 1, 1]),
    (Some(7), [983, 97_252, 7983]),
    (Some(7), [32_728, 1, 1]),
    (Some(7), [32_736, 1, 1]),
];

#[test]
fn lays_what_the_writer_writes(rt: HostRuntime) -> Result<(), Fail> {
    // All rows so far were as wanted.
    for (row, (number, zeros)) in LOGS.iter().enumerate() {
        let (disk, answers, texts) = written_and_laid(rt.alloc(), *number, *zeros)?;
        check(&rt, row, &answers, &([Ok(()); 3], texts.len() as u64));
        check(&rt, row, &texts.as_slice(), &disk.content());
    }
    Ok(())
}
