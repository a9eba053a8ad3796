//! How the fronts of keys compare.

use base_keys::Front;
use std::cmp::Ordering;

// Each row's front is below that of the next one.
#[test]
fn fronts_are_in_byte_order(rt: HostRuntime) {
    let rows: [&[u8]; 17] = [
        b"",
        b"\0\0\x01",
        b"begin",
        b"begin\x01",
        b"beginning",
        b"eighth b12",
        b"eighth b3",
        b"eighth c1",
        b"eighthza",
        b"eighthzb",
        b"ninth by\x7f",
        b"ninth by\x80",
        b"seventh and 15!",
        b"sixteen bytes of all",
        b"sixteen bytes og",
        b"\x7fabcdefg",
        b"\x80",
    ];
    for (at, row) in rows.iter().enumerate() {
        for (other_at, other) in rows.iter().enumerate() {
            let order = Front::of(row).order(&Front::of(other));
            assert_eq!(rt; order, at.cmp(&other_at), "{at} {other_at}");
        }
    }
}

// The front of a short key ends with zeros, and what comes after the sixteenth byte of a key isn't in its front.
#[test]
fn keys_with_the_same_front(rt: HostRuntime) {
    let rows: [(&[u8], &[u8]); 5] = [
        (b"", b"\0\0"),
        (b"begin", b"begin\0"),
        (b"seventh and 15!", b"seventh and 15!\0\0"),
        (b"sixteen bytes of", b"sixteen bytes of\0"),
        (b"sixteen bytes of\x7f", b"sixteen bytes of\x80"),
    ];
    for (at, (key, other)) in rows.iter().enumerate() {
        let order = Front::of(key).order(&Front::of(other));
        assert_eq!(rt; order, Ordering::Equal, "{at}");
    }
}
