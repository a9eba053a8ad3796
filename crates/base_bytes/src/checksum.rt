//! CRC-32C, the checksum of the records of a log.

ghost use Rattle.std.specs.Int.{w32, from_le_bytes};
ghost use Rattle.std.specs.Prelude.{◌≡◌, ℕ, ◌^◌, ◌<◌, List, ◌++◌, fold, map, slice_index};
ghost use Rattle.std.specs.Simd.{first_chunks};
ghost use Rattle.model_base.specs.Checksum as checksum;
ghost use Rattle.base_bytes.specs.Register.{shift, take_in_byte};

use crate::tables::TABLES;
use std::simd::{u8x16, u32x4};

// `mask` adds this to a checksum. It is `kMaskDelta` of RocksDB's util/crc32c.h.
const MASK_DELTA: u32 = 0xa282ead8;

/// The CRC-32C of some bytes (polynomial 0x1EDC6F41), as RFC 3720 and the RocksDB wiki's "Write
/// Ahead Log File Format" use it.
pub fn crc32c(bytes: &[u8]) -> u32
    // The definition is the remainder of a division of polynomials, and names no table: so the tables are proved
    // against it.
    ensures { result ≡ checksum.crc32c bytes.now }
{
    extend(0, bytes)
}

/// The CRC-32C of some earlier bytes followed by `bytes`, where `crc` is the checksum of the earlier bytes alone.
///
/// The checksum of no bytes is 0.
pub fn extend(crc: u32, bytes: &[u8]) -> u32
    // It is said of all earlier bytes with that checksum, which is why they needn't be handed in.
    ensures { (front : List ℕ) → checksum.crc32c front ≡ crc
        → result ≡ checksum.crc32c (front ++ bytes.now) }
{
    let (chunks, rest) = bytes.as_chunks::<16>();
    let register = take_in_chunks(!crc, chunks);
    !take_in_bytes(register, rest)
}

/// The register after it has taken in some bytes, one byte a step.
fn take_in_bytes(first: u32, bytes: &[u8]) -> u32
    ensures { result ≡ fold take_in_byte first bytes.now }
{
    let mut register = first;
    for byte in bytes {
        let index = (register ^ u32::from(*byte)) & 0xff;
        register = TABLES[0][index as usize] ^ (register >> 8);
    }
    register
}

/// The register after it has taken in some chunks, one chunk a step.
fn take_in_chunks(first: u32, chunks: &[[u8; 16]]) -> u32
    ensures { result ≡ fold (fold take_in_byte) first chunks.now }
{
    let mut register = first;
    for chunk in chunks {
        register = take_in_chunk(register, chunk);
    }
    register
}

/// The register after it has taken in a chunk. What each byte of the chunk has become by the end of the chunk is
/// looked up in a table, and these values are added ("slicing").
///
/// The look-ups that don't depend on the register come first, so that the processor needn't wait for the register.
fn take_in_chunk(register: u32, chunk: &[u8; 16]) -> u32
    ensures { result ≡ fold take_in_byte register chunk.now }
{
    let words = words_of(chunk);
    let later = over_12_bytes(words[1]) ^ over_8_bytes(words[2]) ^ over_4_bytes(words[3]);
    let first = register ^ words[0];
    later ^ over_16_bytes(first)
}

/// The words of a chunk, each with its lowest byte first.
///
/// They are read all at once, as a vector, since reading byte by byte would have to wait for each read. Nothing is
/// known of the lanes of a vector, so `bytes` has to say that they are bytes.
fn words_of(chunk: &[u8; 16]) -> [u32; 4]
    requires bytes { (i : ℕ) → slice_index chunk.now i < 2 ^ 8 }
    ensures { result ≡ map (from_le_bytes w32) (first_chunks 4 4 chunk.now) }
{
    u32x4::from_le_bytes(u8x16::from_array(*chunk)).to_array()
}

/// What the register becomes after 32 steps, the length of 4 bytes.
fn over_4_bytes(register: u32) -> u32
    ensures { result ≡ shift 32 register }
{
    TABLES[3][(register & 0xff) as usize]
        ^ TABLES[2][((register >> 8) & 0xff) as usize]
        ^ TABLES[1][((register >> 16) & 0xff) as usize]
        ^ TABLES[0][(register >> 24) as usize]
}

/// What the register becomes after 64 steps, the length of 8 bytes.
fn over_8_bytes(register: u32) -> u32
    ensures { result ≡ shift 64 register }
{
    TABLES[7][(register & 0xff) as usize]
        ^ TABLES[6][((register >> 8) & 0xff) as usize]
        ^ TABLES[5][((register >> 16) & 0xff) as usize]
        ^ TABLES[4][(register >> 24) as usize]
}

/// What the register becomes after 96 steps, the length of 12 bytes.
fn over_12_bytes(register: u32) -> u32
    ensures { result ≡ shift 96 register }
{
    TABLES[11][(register & 0xff) as usize]
        ^ TABLES[10][((register >> 8) & 0xff) as usize]
        ^ TABLES[9][((register >> 16) & 0xff) as usize]
        ^ TABLES[8][(register >> 24) as usize]
}

/// What the register becomes after 128 steps, the length of 16 bytes.
fn over_16_bytes(register: u32) -> u32
    ensures { result ≡ shift 128 register }
{
    TABLES[15][(register & 0xff) as usize]
        ^ TABLES[14][((register >> 8) & 0xff) as usize]
        ^ TABLES[13][((register >> 16) & 0xff) as usize]
        ^ TABLES[12][(register >> 24) as usize]
}

/// A checksum as it is kept in a log: rotated right by 15 bits, plus a constant. So a checksum over bytes that contain
/// checksums keeps its strength (RocksDB's util/crc32c.h).
pub fn mask(crc: u32) -> u32
    ensures { result ≡ checksum.masked crc }
{
    crc.rotate_right(15).wrapping_add(MASK_DELTA)
}
