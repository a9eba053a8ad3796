//! The front of a record: the sequence and the count of its batch.

ghost use Rattle.std.specs.Prelude.{◌≡◌, ◌<◌, ◌≤◌, length, drop, IfSome, IfNone};
ghost use Rattle.batch_operations.specs.Shown.{count_in, sequence_in};

use base_bytes::{get_fixed32, get_fixed64};

/// How many bytes are in front of the operations.
const HEADER_LEN: usize = 12;

/// The place of the count among them.
const COUNT_AT: usize = 8;

/// What a batch says of itself: the sequence of its first operation that counts, and how many count. Nothing is
/// checked.
#[derive(Clone, Copy)]
pub struct Head {
    pub sequence: u64,
    pub count: u32,
}

/// The sequence and the count with which a record begins, and the bytes of its operations. `None` is answered exactly
/// where there are fewer bytes than that.
pub fn read_head(bytes: &[u8]) -> Option<(Head, &[u8])>
    ensures sequence { IfSome result (λ p. p.0.sequence ≡ sequence_in bytes.now) }
    ensures count { IfSome result (λ p. p.0.count ≡ count_in bytes.now) }
    ensures body { IfSome result (λ p. p.1.now ≡ drop 12 bytes.now) }
    ensures some { IfSome result (λ p. 12 ≤ length bytes.now) }
    ensures short { IfNone result (length bytes.now < 12) }
{
    if bytes.len() < HEADER_LEN {
        return None;
    }
    let head = Head {
        sequence: get_fixed64(bytes, 0),
        count: get_fixed32(bytes, COUNT_AT),
    };
    Some((head, &bytes[HEADER_LEN..]))
}
