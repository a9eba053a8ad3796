//! What is at a place of a block.

ghost use Rattle.std.specs.Prelude.{◌≡◌, ◌+◌, ◌≤◌, ◌↔◌, IsTrue, length, drop, Some, None};
ghost use Rattle.model_base.specs.Log as log;
ghost use Rattle.model_base.specs.Reading as reading;
ghost use Rattle.log_block.specs.Fragments.{Tells, decided, by_checksum};

use crate::headers::{BLOCK_LEN, FULL, LAST, checksum, header_len, type_in};
use byteorder::{ByteOrder, LittleEndian};
use model_base::Damage;

/// What a reader sees at a place of a block.
#[derive(Clone, Copy, Debug, PartialEq, Eq)]
pub enum Seen {
    /// A fragment: its type, and where its part begins and ends in the block.
    Fragment { kind: u8, start: usize, end: usize },
    /// The file ends there, or too little of the block is left for a fragment, and that is zeros.
    End,
    /// What is there isn't a valid fragment, for this reason.
    Damage(Damage),
}

/// What is at the place `at` of a block. `block` has those of the block's bytes that the file has. The log has this
/// number, if it has one. A header has 7 bytes, or 11 in a log with a number. The first of these cases that holds is
/// the answer:
///
/// - Fewer bytes than a header has are left of the block: `End` if those that the file has of them are zeros, else
///   `BadTrailer`.
/// - The file's bytes end there: `End`.
/// - Fewer bytes than a header has are there: `ShortHeader`.
/// - The header is zeros: `Zeros`.
/// - In a log without a number, the part would pass the end of the block or of the file: `BadLength`.
/// - The type is none of 1 to 4, or in a log with a number none of 5 to 8: `BadType`.
/// - In a log with a number, the header has another one: `OldLog`; and then, as above, `BadLength`.
/// - The checksum differs: `BadChecksum`.
/// - There is a fragment.
pub fn read_fragment(number: Option<u32>, block: &[u8], at: usize) -> Seen
    requires in_block { length block.now ≤ BLOCK_LEN }
    requires in_file { at ≤ length block.now }
    // The definition has one answer for each place: so what counts as damage, and what as the end, is not left to this
    // code.
    ensures { Tells number block.now at result (reading.seen_in_block number block.now at) }
{
    let rest = &block[at..];
    let header = header_len(number);
    if BLOCK_LEN - at < header {
        if are_zeros(rest) {
            Seen::End
        } else {
            Seen::Damage(Damage::BadTrailer)
        }
    } else if rest.is_empty() {
        Seen::End
    } else if rest.len() < header {
        Seen::Damage(Damage::ShortHeader)
    } else if are_zeros(&rest[..header]) {
        Seen::Damage(Damage::Zeros)
    } else {
        read_part(number, block, at)
    }
}

/// The fragment whose header is at the place `at`, unless the header is wrong.
fn read_part(number: Option<u32>, block: &[u8], at: usize) -> Seen
    requires in_block { length block.now ≤ BLOCK_LEN }
    requires header { at + log.header_len number ≤ length block.now }
    ensures { Tells number block.now at result (decided number (drop at block.now)) }
{
    match number {
        None => read_plain(block, at),
        Some(number) => read_numbered(number, block, at),
    }
}

/// As `read_part`, in a log without a number.
fn read_plain(block: &[u8], at: usize) -> Seen
    requires in_block { length block.now ≤ BLOCK_LEN }
    requires header { at + 7 ≤ length block.now }
    ensures { Tells None block.now at result (decided None (drop at block.now)) }
{
    let bytes = &block[at..];
    if bytes.len() < part_end(None, bytes) {
        return Seen::Damage(Damage::BadLength);
    }
    if !is_type(None, bytes[6]) {
        return Seen::Damage(Damage::BadType(bytes[6]));
    }
    read_checked(None, block, at)
}

/// As `read_part`, in a log with this number.
fn read_numbered(number: u32, block: &[u8], at: usize) -> Seen
    requires in_block { length block.now ≤ BLOCK_LEN }
    requires header { at + 11 ≤ length block.now }
    ensures { Tells (Some number) block.now at result (decided (Some number) (drop at block.now)) }
{
    let bytes = &block[at..];
    if !is_type(Some(number), bytes[6]) {
        return Seen::Damage(Damage::BadType(bytes[6]));
    }
    let own = &bytes[7..11];
    if own != number.to_le_bytes().as_slice() {
        return Seen::Damage(Damage::OldLog(LittleEndian::read_u32(own)));
    }
    if bytes.len() < part_end(Some(number), bytes) {
        return Seen::Damage(Damage::BadLength);
    }
    read_checked(Some(number), block, at)
}

/// The fragment at the place `at`, whose type is right and whose part is there, unless the checksum differs.
fn read_checked(number: Option<u32>, block: &[u8], at: usize) -> Seen
    requires in_block { length block.now ≤ BLOCK_LEN }
    requires there { at + log.header_len number + reading.length_field (drop at block.now) ≤ length block.now }
    ensures { let bytes = drop at block.now in (kind : log.Kind) → reading.type_field bytes ≡ log.kind_code number kind
        → Tells number block.now at result (by_checksum number kind bytes) }
{
    let bytes = &block[at..];
    let (header, end) = (header_len(number), part_end(number, bytes));
    if LittleEndian::read_u32(&bytes[..4]) != checksum(number, bytes[6], &bytes[header..end]) {
        return Seen::Damage(Damage::BadChecksum);
    }
    Seen::Fragment {
        kind: bytes[6],
        start: at + header,
        end: at + end,
    }
}

/// Where the part of a fragment ends, if its header is at the start of these bytes.
fn part_end(number: Option<u32>, bytes: &[u8]) -> usize
    requires { log.header_len number ≤ length bytes.now }
    ensures { result ≡ log.header_len number + reading.length_field bytes.now }
{
    header_len(number) + usize::from(LittleEndian::read_u16(&bytes[4..6]))
}

/// Whether this is the type of a fragment.
fn is_type(number: Option<u32>, kind: u8) -> bool
    ensures { IsTrue result ↔ (log.kind_code number log.full ≤ kind) × (kind ≤ log.kind_code number log.last) }
{
    (type_in(number, FULL)..=type_in(number, LAST)).contains(&kind)
}

/// Whether each byte is 0.
fn are_zeros(bytes: &[u8]) -> bool
    ensures { result ≡ reading.are_zeros bytes.now }
{
    bytes.iter().all(|byte| *byte == 0)
}
