//! Bytes, numbers encoded as bytes, checksums of bytes, and what reads answer:
//!
//! - `Bytes`, a list of bytes on the heap;
//! - fixed and variable length numbers in bytes, as in LevelDB's `util/coding.h`;
//! - CRC-32C by tables, and its mask, as in LevelDB's `util/crc32c.h`;
//! - `Found`, `Read`, `Reads` and `Rows`, the answers of look-ups and scans, which all layers use.
#![tactic(auto)]

mod answers;
mod bytes;
mod checksum;
mod crc_tables_8_to_15;
mod numbers;
mod reading;
mod tables;

pub use answers::{Found, FoundList, PairList, Place, Read, Reads, RecordList, Rows};
pub use bytes::Bytes;
pub use checksum::{crc32c, extend, mask};
pub use numbers::{one_spelling, put_fixed32, put_fixed64, put_varint32, varint32_len};
pub use reading::{fixed_numbers_read_back, get_fixed32, get_fixed64, get_varint32};
