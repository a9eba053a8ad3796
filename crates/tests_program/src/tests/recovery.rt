//! What logs recover. `tests/real_file` tries logs that are cut, or damaged otherwise.

use super::{Given, PLAIN, RECORD, ended};
use std::alloc::Global;
use std::process::Abort;
use std::rt;
use std::rt::HostRuntime;
use std::sync::Wait;
use std::thread::Threads;

/// Recovers a log, and checks that it is left as it is.
pub(super) fn check_recovery<R: Threads + Wait + rt::Clock + Abort + Sync>(
    rt: &R,
    alloc: Global,
    content: &[u8],
    want: &str,
) {
    check_recovery_by(rt, alloc, "recover", content, want);
}

/// As [`check_recovery`], with these words.
fn check_recovery_by<R: Threads + Wait + rt::Clock + Abort + Sync>(
    rt: &R,
    alloc: Global,
    words: &str,
    content: &[u8],
    want: &str,
) {
    let given = Given {
        words,
        text: b"",
        content,
        ..PLAIN
    };
    let disk = ended(rt, alloc, given, 0, want);
    assert_eq!(rt; disk.content(), content);
}

const RECOVERED: [(&[u8], &str); 8] = [
    (RECORD, "groups 1\n1 1 17\nstate 1 1\n61 31\nend 24 clean\n"),
    (b"", "groups 0\nstate 0 0\nend 0 clean\n"),
    (
        b"\x05\x2b\x28\x43\x00\x00\x01",
        "groups 0\nstate 0 0\nend 0 short\n",
    ),
    (
        b"\x4e\x10\xa0\xb9\x11\x00\x01\x01\x00\x00\x00\x00\x00\x00\x00\x01\x00\x00\x00\x02\x01a\x011",
        "groups 0\nstate 0 0\nend 0 tag 2\n",
    ),
    (
        b"\x27\x71\x2a\x11\x11\x00\x01\x01\x00\x00\x00\x00\x00\x00\x00\x02\x00\x00\x00\x01\x01a\x011",
        "groups 0\nstate 0 0\nend 0 count 2 1\n",
    ),
    (
        b"\xbd\xac\x0c\xe0\x10\x00\x01\x01\x00\x00\x00\x00\x00\x00\x00\x01\x00\x00\x00\x01\x01a\x05",
        "groups 0\nstate 0 0\nend 0 short\n",
    ),
    (
        b"\xbe\xad\x38\xff\x0f\x00\x01\x01\x00\x00\x00\x00\x00\x00\x00\x01\x00\x00\x00\x01\x80\x00",
        "groups 0\nstate 0 0\nend 0 badvarint\n",
    ),
    // Keys of three families, as many as there may be in a log. Their numbers stand before them, except for that of
    // the default one.
    (
        b"\xa4\xd9\xc0\xee\x1e\x00\x01\x01\x00\x00\x00\x00\x00\x00\x00\x03\x00\x00\x00\x01\x01a\x011\
            \x05\x02\x01a\x012\x05\xac\x02\x01b\x013",
        "groups 1\n1 3 30\nstate 3 3\n61 31\n2 61 32\n300 62 33\nend 37 clean\n",
    ),
];

#[test]
fn prints_what_a_log_recovers(rt: HostRuntime) {
    for (content, want) in RECOVERED {
        check_recovery(&rt, rt.alloc(), content, want);
    }
}

/// A log with the number 8, of one record, which was written over the first of the two records of a log with the
/// number 7.
pub(super) const WRITTEN_OVER: &[u8] =
    b"\x13\x6d\x32\x7d\x11\x00\x05\x08\x00\x00\x00\x01\x00\x00\x00\x00\x00\x00\x00\x01\x00\x00\x00\x01\x01\x63\x01\x33\
    \xd4\x65\xc3\xae\x11\x00\x05\x07\x00\x00\x00\x02\x00\x00\x00\x00\x00\x00\x00\x01\x00\x00\x00\x01\x01\x62\x01\x32";

/// Words, and what they recover from that log.
const BY_NUMBER: [(&str, &str); 4] = [
    (
        "recover --number 8",
        "groups 1\n1 1 17\nstate 1 1\n63 33\nend 28 oldlog 7\n",
    ),
    (
        "recover --number 7",
        "groups 0\nstate 0 0\nend 0 oldlog 8\n",
    ),
    (
        "recover --number 4294967295",
        "groups 0\nstate 0 0\nend 0 oldlog 8\n",
    ),
    ("recover", "groups 0\nstate 0 0\nend 0 badtype 5\n"),
];

/// Recovers that log by each number, and without one.
pub(super) fn check_by_numbers<R: Threads + Wait + rt::Clock + Abort + Sync>(
    rt: &R,
    alloc: Global,
    content: &[u8],
) {
    for (words, want) in BY_NUMBER {
        check_recovery_by(rt, alloc, words, content, want);
    }
}

#[test]
fn reads_a_log_by_its_number(rt: HostRuntime) {
    check_by_numbers(&rt, rt.alloc(), WRITTEN_OVER);
}
