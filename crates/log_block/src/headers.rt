//! A fragment's header.

ghost use Rattle.std.specs.Prelude.{◌≡◌, ◌≤◌, length};
ghost use Rattle.model_base.specs.Checksum.{crc32c, masked};
ghost use Rattle.model_base.specs.Log as log;
ghost use Rattle.model_base.specs.Log.{Kind, kind_code, plain_log};
ghost use Rattle.log_block.specs.Headers.{summed};

use base_bytes::{crc32c, extend, mask};
use std::marker::Model;

/// How many bytes a block has.
pub const BLOCK_LEN: usize = 32768;

/// The type of a fragment that is a whole record.
pub const FULL: u8 = 1;

/// The type of the first of a record's fragments, if there are several.
pub const FIRST: u8 = 2;

/// The type of a fragment between a record's first and last.
pub const MIDDLE: u8 = 3;

/// The type of the last of a record's fragments, if there are several.
pub const LAST: u8 = 4;

/// In a log with a number, each of these types is higher by this.
const NUMBERED: u8 = 4;

/// How many bytes a fragment's header has: 7, or 11 if the log has a number.
pub fn header_len(number: Option<u32>) -> usize
    ensures { result ≡ log.header_len number }
{
    match number {
        None => 7,
        Some(_) => 11,
    }
}

/// How many bytes the longest part has. With its header it fills a block.
pub fn max_part_len(number: Option<u32>) -> usize
    ensures { result ≡ log.part_len number }
{
    BLOCK_LEN - header_len(number)
}

/// The type of a fragment in this log, from its type in a log without a number: [`FULL`] to [`LAST`].
pub fn type_in(number: Option<u32>, plain: u8) -> u8
    requires { plain ≤ LAST }
    ensures { (kind : Kind) → plain ≡ kind_code plain_log kind → result ≡ kind_code number kind }
{
    match number {
        None => plain,
        Some(_) => plain + NUMBERED,
    }
}

/// The type that a fragment of this log would have in a log without a number.
pub fn plain_type(number: Option<u32>, kind: u8) -> u8
    ensures { (k : Kind) → kind ≡ kind_code number k → result ≡ kind_code plain_log k }
{
    match number {
        None => kind,
        Some(_) => kind.wrapping_sub(NUMBERED),
    }
}

/// The bytes of a fragment's header. Contracts see them as a list.
#[derive(Debug, Drop)]
pub struct HeaderBytes(ByFormat);

/// A header's bytes, for a log without a number or with one.
#[derive(Debug, Drop)]
enum ByFormat {
    Plain([u8; 7]),
    Numbered([u8; 11]),
}

impl Model for HeaderBytes {
    ghost use Rattle.std.specs.Prelude.{List, ℕ};
    ghost use Rattle.log_block.specs.Headers.{bytes_of};

    ghost Value = { List ℕ };

    ghost view = { λ h. bytes_of h.0 };
}

impl HeaderBytes {
    /// The bytes as a slice.
    pub fn as_slice(&self) -> &[u8]
        ensures { result.now ≡ self.now }
    {
        match &self.0 {
            ByFormat::Plain(bytes) => bytes,
            ByFormat::Numbered(bytes) => bytes,
        }
    }
}

/// The header of a fragment of this type with this part, which has at most [`max_part_len`] bytes. The log has this
/// number, if it has one.
pub fn header(number: Option<u32>, kind: u8, part: &[u8]) -> HeaderBytes
    requires { length part.now ≤ log.part_len number }
    ensures { result ≡ log.header number kind part.now }
{
    let [c0, c1, c2, c3] = checksum(number, kind, part).to_le_bytes();
    let [l0, l1] = (part.len() as u16).to_le_bytes();
    match number {
        None => HeaderBytes(ByFormat::Plain([c0, c1, c2, c3, l0, l1, kind])),
        Some(number) => {
            let [n0, n1, n2, n3] = number.to_le_bytes();
            HeaderBytes(ByFormat::Numbered([c0, c1, c2, c3, l0, l1, kind, n0, n1, n2, n3]))
        }
    }
}

/// The checksum that a fragment's header has. It covers the type, the log's number, if it has one, and the part.
pub(crate) fn checksum(number: Option<u32>, kind: u8, part: &[u8]) -> u32
    ensures { result ≡ masked (crc32c (summed number kind part.now)) }
{
    let front = match number {
        None => crc32c(&[kind]),
        Some(number) => {
            let [n0, n1, n2, n3] = number.to_le_bytes();
            crc32c(&[kind, n0, n1, n2, n3])
        }
    };
    mask(extend(front, part))
}
