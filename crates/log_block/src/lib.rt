//! The fragments of a log, as the RocksDB wiki's "Write Ahead Log File Format" and LevelDB's log_format.h lay them
//! out. A log is a list of blocks of 32768 bytes, of which the last may be shorter. In the blocks are fragments of
//! records, each of them whole in one block:
//!
//!     +--------------+-------------+-----------+--- ... ---+
//!     | checksum (4) | length (2)  | type (1)  | part      |
//!     +--------------+-------------+-----------+--- ... ---+
//!
//! Numbers have their low byte first. The length is the part's. The checksum is the masked CRC-32C of the type byte
//! and the part. The type is 1 for a fragment that is a whole record (FULL). If a record is cut into several
//! fragments, the types are 2, 3 and 4 for the first, a middle and the last of them (FIRST, MIDDLE, LAST).
//!
//! A log may have a number, so that its file can be written again from the start, over what another log left there
//! (RocksDB's recyclable records, `kRecyclableFullType` and so on of its db/log_format.h). Then the types are 5 to 8,
//! and the header has four more bytes with the number, which the checksum covers too:
//!
//!     +--------------+-------------+-----------+-------------+--- ... ---+
//!     | checksum (4) | length (2)  | type (1)  | number (4)  | part      |
//!     +--------------+-------------+-----------+-------------+--- ... ---+
//!
//! No fragment begins where a block has fewer bytes left than a header has. These bytes are zeros, the block's
//! trailer.
//!
//! For example, records of 1000, 97270 and 8000 bytes make this log. The first is a FULL fragment. The second is cut
//! into a FIRST of 31754 bytes, which fills the first block, a MIDDLE of 32761, which fills the second, and a LAST of
//! 32755. Six bytes are left of the third block; they are zeros, and the third record is a FULL fragment in the fourth
//! block.
#![tactic(auto)]

mod fragments;
mod headers;
mod laws;
mod pieces;

pub use fragments::{Seen, read_fragment};
pub use headers::{
    BLOCK_LEN, FIRST, FULL, HeaderBytes, LAST, MIDDLE, header, header_len, max_part_len,
    plain_type, type_in,
};
pub use laws::text_by_place;
pub use pieces::{Fragmenter, Piece};
