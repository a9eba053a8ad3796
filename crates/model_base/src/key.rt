//! A key in a column family.

use std::collections::LinkedList;

/// A key, in the column family with this number. Contracts speak of such keys, and no value of this type is made.
pub struct Key {
    pub family: u32,
    pub bytes: LinkedList<u8>,
}
