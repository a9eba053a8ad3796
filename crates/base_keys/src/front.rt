//! The first bytes of keys, which most comparisons need alone.

ghost use Rattle.std.specs.Prelude.{◌≡◌, ◌+◌, ◌≤◌};
ghost use Rattle.std.specs.Slice.Scan.{big_endian};
ghost use lib.Lanes.{chunk};
ghost use Rattle.model_base.specs.Map.{byte_order};
ghost use Rattle.base_keys.specs.Fronts.{front_of};

use std::cmp::Ordering;
use std::marker::Model;

/// How many bytes a front has.
const FRONT_LEN: usize = 16;

/// The first bytes of a key, filled up with zeros if the key is shorter. Contracts see these 16 bytes.
#[derive(Clone, Copy, Debug)]
pub struct Front {
    bytes: [u8; FRONT_LEN],
}

impl Model for Front {
    ghost use Rattle.std.specs.Prelude.{List, ℕ};

    ghost Value = { List ℕ };

    ghost view = { λ f. f.bytes };

    ghost inverse = { λ bytes. record { bytes = bytes } };
}

impl Front {
    /// The front of a key.
    pub fn of(key: &[u8]) -> Front
        ensures { result ≡ front_of 16 key.now }
    {
        let mut bytes = [0; FRONT_LEN];
        if key.len() <= FRONT_LEN {
            bytes[..key.len()].copy_from_slice(key);
        } else {
            bytes.copy_from_slice(&key[..FRONT_LEN]);
        }
        Front { bytes }
    }

    /// How it compares with another front in byte order.
    pub fn order(&self, other: &Front) -> Ordering
        ensures { result ≡ byte_order self.now other.now }
    {
        order_as_numbers(&self.bytes, &other.bytes)
    }
}

/// How the bytes of two fronts compare. Each front is read as two numbers.
fn order_as_numbers(bytes: &[u8; FRONT_LEN], other: &[u8; FRONT_LEN]) -> Ordering
    ensures { result ≡ byte_order bytes.now other.now }
{
    let (high, other_high) = (number_at(bytes, 0), number_at(other, 0));
    if high != other_high {
        return high.cmp(&other_high);
    }
    number_at(bytes, 8).cmp(&number_at(other, 8))
}

/// The number that eight bytes from `at` on spell, the highest byte first.
fn number_at(bytes: &[u8; FRONT_LEN], at: usize) -> u64
    requires { at + 8 ≤ FRONT_LEN }
    ensures { result ≡ big_endian 0 (chunk at 8 bytes.now) }
{
    u64::from_be_bytes([
        bytes[at],
        bytes[at + 1],
        bytes[at + 2],
        bytes[at + 3],
        bytes[at + 4],
        bytes[at + 5],
        bytes[at + 6],
        bytes[at + 7],
    ])
}
