//! What is put on a log's disk at its place, and what is kept of the disk.

ghost use Rattle.std.specs.Prelude.{◌≡◌, ◌+◌, ◌-◌, ◌^◌, ◌<◌, ◌≤◌, [], ◌++◌, length, take, drop, replicate, true, false, OnOk, IfOk, IfSome};
ghost use Rattle.model_base.specs.Log as log;
ghost use Rattle.log_writer.specs.Groups.{counts_of, body_lens_of, record_of_group};
ghost use Rattle.log_writer.specs.Puts.{Puts};
ghost use Rattle.log_writer.specs.Opening.{Keeps};

use crate::group_bytes::{GroupBytes, bodies_len, count_of, group_header, set_at};
use base_devices::{Disk, Failed};
use log_batch::Batch;
use log_block::{BLOCK_LEN, Fragmenter, Piece, header, header_len};

/// The most zeros that end a block: they are too few for a header.
const MAX_ZEROS: usize = 10;

/// Appends bytes.
pub(crate) fn append<D: Disk>(disk: &mut D, bytes: &[u8]) -> Result<(), Failed>
    ensures { Puts ⟦<D as Disk>⟧ disk.old disk.new bytes.now false result }
{
    disk.append(bytes)
}

/// Appends the zeros that end a block, if there are any.
pub(crate) fn append_zeros<D: Disk>(disk: &mut D, zeros: usize) -> Result<(), Failed>
    requires { zeros ≤ MAX_ZEROS }
    ensures { Puts ⟦<D as Disk>⟧ disk.old disk.new (replicate zeros 0) false result }
{
    if zeros == 0 {
        return Ok(());
    }
    append(disk, &[0; MAX_ZEROS][..zeros])
}

/// Syncs the disk if that is asked.
pub(crate) fn sync_if<D: Disk>(disk: &mut D, sync: bool) -> Result<(), Failed>
    ensures { Puts ⟦<D as Disk>⟧ disk.old disk.new [] sync result }
{
    if sync { disk.sync() } else { Ok(()) }
}

/// Puts a fragment together in the block: its header, and a part of `len` bytes, which are moved out of the group's.
/// The checksum is computed of the part at its new place, since these bytes have just come into the processor's cache.
fn fill(block: &mut [u8], number: Option<u32>, rest: &mut GroupBytes<'_>, kind: u8, len: usize)
    requires room { length block.old ≡ BLOCK_LEN }
    requires fits { log.header_len number + len ≤ BLOCK_LEN }
    requires there { len ≤ length rest.old }
    ensures filled { let part = take len rest.old in
        take (log.header_len number + len) block.new ≡ log.header number kind part ++ part }
    ensures rest { rest.new ≡ drop len rest.old }
{
    let start = header_len(number);
    let end = start + len;
    rest.move_to(&mut block[start..end]);
    let header = header(number, kind, &block[start..end]);
    set_at(block, 0, header.as_slice());
}

/// Writes a piece of a record: the zeros before it, if there are any, and its fragment.
fn put_piece<D: Disk>(
    disk: &mut D,
    block: &mut [u8],
    number: Option<u32>,
    rest: &mut GroupBytes<'_>,
    piece: Piece,
) -> Result<(), Failed>
    requires room { length block.old ≡ BLOCK_LEN }
    requires zeros { piece.zeros ≤ MAX_ZEROS }
    requires ordered { piece.start ≤ piece.end }
    requires fits { log.header_len number + (piece.end - piece.start) ≤ BLOCK_LEN }
    requires there { piece.end - piece.start ≤ length rest.old }
    ensures put { let part = take (piece.end - piece.start) rest.old in
        let text = replicate piece.zeros 0 ++ (log.header number piece.kind part ++ part) in
        Puts ⟦<D as Disk>⟧ disk.old disk.new text false result }
    ensures rest { OnOk result (rest.new ≡ drop (piece.end - piece.start) rest.old) }
{
    append_zeros(disk, piece.zeros)?;
    let len = piece.end - piece.start;
    fill(block, number, rest, piece.kind, len);
    append(disk, &block[..header_len(number) + len])
}

/// How many bytes a piece takes in the log.
fn piece_len(number: Option<u32>, piece: Piece) -> u64
    requires zeros { piece.zeros ≤ MAX_ZEROS }
    requires ordered { piece.start ≤ piece.end }
    requires fits { log.header_len number + (piece.end - piece.start) ≤ BLOCK_LEN }
    ensures { result ≡ piece.zeros + (log.header_len number + (piece.end - piece.start)) }
{
    (piece.zeros + header_len(number) + (piece.end - piece.start)) as u64
}

/// Writes a record of `len` bytes at the end of the log, which is this offset, and answers where the log ends then.
fn put_record<D: Disk>(
    disk: &mut D,
    block: &mut [u8],
    number: Option<u32>,
    offset: u64,
    rest: &mut GroupBytes<'_>,
    len: usize,
) -> Result<u64, Failed>
    requires room { length block.old ≡ BLOCK_LEN }
    requires counted { offset ≤ D.added disk.old }
    requires whole { len ≡ length rest.old }
    ensures put { Puts ⟦<D as Disk>⟧ disk.old disk.new (log.record_text number offset rest.old) false result }
    ensures end { IfOk result (λ end. end ≡ offset + length (log.record_text number offset rest.old)) }
{
    let mut end = offset;
    // The pieces so far are written, and `end` is where the log ends after them.
    for piece in Fragmenter::new(number, (offset % BLOCK_LEN as u64) as usize, len) {
        put_piece(disk, block, number, rest, piece)?;
        end += piece_len(number, piece);
    }
    Ok(end)
}

/// Writes a group's record at the end of the log, which is this offset, and answers where the log ends then. Where the
/// group is one batch that has this sequence already, its record is the batch's own bytes.
fn put_members<D: Disk>(
    disk: &mut D,
    block: &mut [u8],
    number: Option<u32>,
    offset: u64,
    first: u64,
    members: &[Batch],
) -> Result<u64, Failed>
    requires room { length block.old ≡ BLOCK_LEN }
    requires counted { offset ≤ D.added disk.old }
    requires counts { counts_of members.now < 2 ^ 32 }
    requires lens { body_lens_of members.now < 2 ^ 63 }
    ensures put { let text = log.record_text number offset (record_of_group first members.now) in
        Puts ⟦<D as Disk>⟧ disk.old disk.new text false result }
    ensures end { let text = log.record_text number offset (record_of_group first members.now) in
        IfOk result (λ end. end ≡ offset + length text) }
{
    if let [only] = members
        && only.sequence() == first
    {
        let bytes = only.bytes();
        let mut rest = GroupBytes::new(bytes, &[]);
        return put_record(disk, block, number, offset, &mut rest, bytes.len());
    }
    let header = group_header(first, count_of(members));
    let len = header.len() + bodies_len(members);
    let mut rest = GroupBytes::new(&header, members);
    put_record(disk, block, number, offset, &mut rest, len)
}

/// Writes a group's record at the end of the log, which is this offset, and syncs it if that is asked. The answer is
/// where the log ends then.
pub(crate) fn put_group<D: Disk>(
    disk: &mut D,
    block: &mut [u8],
    number: Option<u32>,
    offset: u64,
    first: u64,
    members: &[Batch],
    sync: bool,
) -> Result<u64, Failed>
    requires room { length block.old ≡ BLOCK_LEN }
    requires counted { offset ≤ D.added disk.old }
    requires counts { counts_of members.now < 2 ^ 32 }
    requires lens { body_lens_of members.now < 2 ^ 63 }
    ensures put { let text = log.record_text number offset (record_of_group first members.now) in
        Puts ⟦<D as Disk>⟧ disk.old disk.new text sync result }
    ensures end { let text = log.record_text number offset (record_of_group first members.now) in
        IfOk result (λ end. end ≡ offset + length text) }
{
    let end = put_members(disk, block, number, offset, first, members)?;
    sync_if(disk, sync)?;
    Ok(end)
}

/// Cuts the disk off after its first `kept` bytes, and makes these safe.
pub(crate) fn keep<D: Disk>(disk: &mut D, kept: u64) -> Result<(), Failed>
    requires there { IfSome (D.told disk.old) (λ d. kept ≤ length d.content) }
    ensures { Keeps ⟦<D as Disk>⟧ disk.old disk.new kept result }
{
    disk.cut(kept)?;
    disk.sync()
}
