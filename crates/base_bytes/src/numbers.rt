//! Writes numbers as bytes, as RocksDB's util/coding.cc does.

ghost use Rattle.std.specs.Prelude.{◌≡◌, ◌<◌, ◌≤◌, ◌^◌, ◌++◌, ℕ, List, length, OnOk, OnErr};
ghost use Rattle.std.specs.Int.{w32, w64, to_le_bytes};
ghost use Rattle.model_base.specs.Varint.{IsVarint, varint};

use crate::Bytes;
use byteorder::{ByteOrder, LittleEndian};
use model_base::NoMemory;

/// Appends a number to the bytes as a varint32: seven bits in each byte, the low ones first, and the high bit set on
/// each byte but the last.
pub fn put_varint32(bytes: &mut Bytes, n: u32) -> Result<(), NoMemory>
    ensures ok { OnOk result (bytes.new ≡ bytes.old ++ varint n) }
    ensures err { OnErr result (bytes.new ≡ bytes.old) }
{
    let mut spelling = [0u8; 5];
    let mut len = 0;
    let mut rest = n;
    while rest >= 128 {
        spelling[len] = 128 + (rest % 128) as u8;
        len += 1;
        rest /= 128;
    }
    spelling[len] = rest as u8;
    bytes.append(&spelling[..len + 1])
}

/// How many bytes the varint32 of a number has. A number of 2^32 or more has no varint32, and counts as a number of
/// five bytes.
pub fn varint32_len(n: u64) -> u64
    ensures value { result ≡ length (varint n) }
    ensures few { result ≤ 5 }
{
    match n {
        0..=0x7f => 1,
        0x80..=0x3fff => 2,
        0x4000..=0x1f_ffff => 3,
        0x20_0000..=0xfff_ffff => 4,
        _ => 5,
    }
}

/// Appends a number to the bytes as four bytes, the lowest first.
pub fn put_fixed32(bytes: &mut Bytes, n: u32) -> Result<(), NoMemory>
    ensures ok { OnOk result (bytes.new ≡ bytes.old ++ to_le_bytes w32 n) }
    ensures err { OnErr result (bytes.new ≡ bytes.old) }
{
    let mut fixed = [0u8; 4];
    LittleEndian::write_u32(&mut fixed, n);
    bytes.append(&fixed)
}

/// Appends a number to the bytes as eight bytes, the lowest first.
pub fn put_fixed64(bytes: &mut Bytes, n: u64) -> Result<(), NoMemory>
    ensures ok { OnOk result (bytes.new ≡ bytes.old ++ to_le_bytes w64 n) }
    ensures err { OnErr result (bytes.new ≡ bytes.old) }
{
    let mut fixed = [0u8; 8];
    LittleEndian::write_u64(&mut fixed, n);
    bytes.append(&fixed)
}

/// The varint of a number below 2^32 spells it, and is its only spelling. No spelling is the beginning of another
/// spelling, so each spells one number.
pub fn one_spelling()
    ensures spelled { (n : ℕ) → n < 2 ^ 32 → IsVarint (varint n) n }
    ensures only { (a : List ℕ) (n : ℕ) → n < 2 ^ 32 → IsVarint a n → a ≡ varint n }
    ensures unique { (a b x y : List ℕ) (m n : ℕ) → IsVarint a m → IsVarint b n → a ++ x ≡ b ++ y → (a ≡ b) × (m ≡ n) }
{}
