//! Reads numbers from bytes, as RocksDB's util/coding.cc does, but a varint only in its shortest spelling.

ghost use Rattle.std.specs.Prelude.{◌≡◌, ℕ, ◌+◌, ◌-◌, ◌<◌, ◌≤◌, ◌^◌, length, take, drop, slice_index, IfOk, IfErr};
ghost use Rattle.std.specs.Int.{w32, w64, to_le_bytes, from_le_bytes};
ghost use Rattle.model_base.specs.Varint.{varint, BeginsVarint, IsCodeError};

use byteorder::{ByteOrder, LittleEndian};
use model_base::CodeError;

/// The index of the last byte that a varint32 may have, and the greatest value of this byte.
const LAST_PLACE: usize = 4;

const LAST_BYTE: u8 = 0x0f;

/// Reads the varint32 that begins at the place `at`, which is at most the number of bytes. It answers the number, and
/// the place after the varint's last byte.
///
/// The error is `Short` where the bytes end before a last byte and fewer than five are there, `TooLong` where the
/// fifth is above 0x0F, and `NotShortest` where the last is 0 and isn't the first.
#[inline]
pub fn get_varint32(bytes: &[u8], at: usize) -> Result<(u32, usize), CodeError>
    requires { at ≤ length bytes.now }

    // What it answers is what the bytes spell.
    ensures ok { IfOk result (λ p. BeginsVarint (drop at bytes.now) p.0 (p.1 - at)) }
    ensures place { IfOk result (λ p. (at < p.1) × (p.1 ≤ length bytes.now)) }
    ensures spelled { IfOk result (λ p. take (p.1 - at) (drop at bytes.now) ≡ varint p.0) }
    ensures err { IfErr result (IsCodeError (drop at bytes.now)) }

    // What the bytes spell is what it answers.
    ensures reads { (n used : ℕ) → BeginsVarint (drop at bytes.now) n used
        → result ≡ Ok (n, at + used) }
    ensures refuses { (e : CodeError) → IsCodeError (drop at bytes.now) e → result ≡ Err e }
{
    match varint32_in_front(&bytes[at..]) {
        Ok((n, used)) => Ok((n, at + used)),
        Err(error) => Err(error),
    }
}

/// The varint32 at the start of the bytes, and how many bytes it has.
#[inline]
fn varint32_in_front(bytes: &[u8]) -> Result<(u32, usize), CodeError>
    ensures ok { IfOk result (λ p. BeginsVarint bytes.now p.0 p.1) }
    ensures err { IfErr result (IsCodeError bytes.now) }
{
    match bytes {
        [] => Err(CodeError::Short),
        [first, ..] if *first < 128 => Ok((u32::from(*first), 1)),
        _ => long_varint32(bytes),
    }
}

/// As `varint32_in_front`, for bytes whose first says that another follows.
fn long_varint32(bytes: &[u8]) -> Result<(u32, usize), CodeError>
    requires some { 0 < length bytes.now }
    requires goes_on { 128 ≤ slice_index bytes.now 0 }
    ensures ok { IfOk result (λ p. BeginsVarint bytes.now p.0 p.1) }
    ensures err { IfErr result (IsCodeError bytes.now) }
{
    let mut n = u32::from(bytes[0] - 128);
    for i in 1..=LAST_PLACE {
        if i == bytes.len() {
            return Err(CodeError::Short);
        }
        let byte = bytes[i];
        if i == LAST_PLACE && byte > LAST_BYTE {
            return Err(CodeError::TooLong);
        }
        if byte == 0 {
            return Err(CodeError::NotShortest);
        }
        let high = u32::from(byte % 128) << (7 * i);
        n += high;
        if byte < 128 {
            return Ok((n, i + 1));
        }
    }
    unreachable!()
}

/// Reads the number in the four bytes from a place on, the lowest byte first.
pub fn get_fixed32(bytes: &[u8], at: usize) -> u32
    requires { at + 4 ≤ length bytes.now }
    ensures value { result ≡ from_le_bytes w32 (take 4 (drop at bytes.now)) }
    ensures spelled { to_le_bytes w32 result ≡ take 4 (drop at bytes.now) }
{
    LittleEndian::read_u32(&bytes[at..at + 4])
}

/// Reads the number in the eight bytes from a place on, the lowest byte first.
pub fn get_fixed64(bytes: &[u8], at: usize) -> u64
    requires { at + 8 ≤ length bytes.now }
    ensures value { result ≡ from_le_bytes w64 (take 8 (drop at bytes.now)) }
    ensures spelled { to_le_bytes w64 result ≡ take 8 (drop at bytes.now) }
{
    LittleEndian::read_u64(&bytes[at..at + 8])
}

/// Reading a number back from the bytes that it was put as gives the same number.
pub fn fixed_numbers_read_back()
    ensures fixed32 { (n : ℕ) → n < 2 ^ 32 → from_le_bytes w32 (to_le_bytes w32 n) ≡ n }
    ensures fixed64 { (n : ℕ) → n < 2 ^ 64 → from_le_bytes w64 (to_le_bytes w64 n) ≡ n }
{}
