//! Rows, each a key and its value, and comparisons of what was found with them.

use base_bytes::{Bytes, Found, PairList, Place};
use std::alloc::Global;
use std::process::Abort;

// Whether these rows were found.
pub(super) fn are_rows(found: &PairList, rows: &[(&[u8], &[u8])]) -> bool {
    let found = found.as_slice();
    if found.len() != rows.len() {
        return false;
    }
    for i in 0..rows.len() {
        let (key, value) = rows[i];
        if found[i].0.as_slice() != key || found[i].1.as_slice() != value {
            return false;
        }
    }
    true
}

// Whether what was found for a key is what its row has, or nothing where it has no row.
pub(super) fn is_found(rows: &[(&[u8], &[u8])], key: &[u8], found: Option<&[u8]>) -> bool {
    let mut wanted: Option<&[u8]> = None;
    for i in 0..rows.len() {
        let (row, value) = rows[i];
        if row == key {
            wanted = Some(value);
        }
    }
    found == wanted
}

// The value that was found, if there is one.
pub(super) fn value_of(found: &Found) -> Option<&[u8]> {
    match found {
        Found::Value(value) => Some(value.as_slice()),
        Found::Absent => None,
    }
}

// Whether this was found for the keys, in their order.
pub(super) fn are_found(rows: &[(&[u8], &[u8])], keys: &[Place], found: &[Found]) -> bool {
    if found.len() != keys.len() {
        return false;
    }
    for i in 0..keys.len() {
        if !is_found(rows, keys[i].key.as_slice(), value_of(&found[i])) {
            return false;
        }
    }
    true
}

// Keys of a family in the form that a read of several takes.
pub(super) fn keys_of(rt: &impl Abort, alloc: Global, family: u32, keys: &[&[u8]]) -> Vec<Place> {
    let mut copies = Vec::with_capacity(alloc, keys.len()).expect(rt, "memory");
    for i in 0..keys.len() {
        let key = Bytes::copy(alloc, keys[i]).expect(rt, "memory");
        copies.push(Place { family, key }).expect(rt, "memory");
    }
    copies
}
