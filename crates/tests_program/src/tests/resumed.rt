//! Logs that are resumed: what a run finds in one, what it leaves, and what the log has where a call of the disk
//! fails.

use super::Fails::{Disk, Nothing};
use super::numbers::SEVEN;
use super::recovery::{WRITTEN_OVER, check_recovery};
use super::{Fails, Given, PATHS, PLAIN, RECORD, TWO_RECORDS, WritePath, ended};
use std::alloc::Global;
use std::process::Abort;
use std::rt;
use std::rt::HostRuntime;
use std::sync::Wait;
use std::thread::Threads;

const PUT_B: &[u8] = b"client 1\nget a\nput b 2\ncommit\n";

const B_PUT: &str = "client 1\nval 1 1\nok 2 2\n\
    history 1\n2 2 1 1 log 0200000000000000010000000101620132\nstate 2 2\na 1\nb 2\nlog 48\n";

const B_PUT_AT_3: &str = "client 1\nval 2 1\nok 3 3\n\
    history 1\n3 3 1 1 log 0300000000000000010000000101620132\nstate 3 2\na 1\nb 2\nlog 72\n";

const B_PUT_AT_6: &str = "client 1\nval 5 1\nok 6 6\n\
    history 1\n6 6 1 1 log 0600000000000000010000000101620132\nstate 6 2\na 1\nb 2\nlog 48\n";

const B_ALONE: &str = "client 1\nnil 0\nok 1 1\n\
    history 1\n1 1 1 1 log 0100000000000000010000000101620132\nstate 1 1\nb 2\nlog 24\n";

const B_PUT_OF_SEVEN: &str = "client 1\nval 1 1\nok 2 2\n\
    history 1\n2 2 1 1 log 0200000000000000010000000101620132\nstate 2 2\na 1\nb 2\nlog 56\n";

const C_FOUND: &str = "client 1\nnil 1\nval 1 3\nhistory 0\nstate 1 1\nc 3\nlog 28\n";

const A_FOUND: &str = "client 1\nval 1 1\nhistory 0\nstate 1 1\na 1\nlog 24\n";

/// The checksums here and below were computed by another program.
const THREE_RECORDS: &[u8] =
    b"\xe9\x9f\x78\x19\x11\x00\x01\x01\x00\x00\x00\x00\x00\x00\x00\x01\x00\x00\x00\x01\x01a\x011\
    \x8f\x72\xbc\x7a\x11\x00\x01\x02\x00\x00\x00\x00\x00\x00\x00\x01\x00\x00\x00\x01\x01b\x012\
    \x56\x23\x0a\x03\x11\x00\x01\x03\x00\x00\x00\x00\x00\x00\x00\x01\x00\x00\x00\x01\x01b\x012";

const SIXTH_BEHIND_FIRST: &[u8] =
    b"\xe9\x9f\x78\x19\x11\x00\x01\x01\x00\x00\x00\x00\x00\x00\x00\x01\x00\x00\x00\x01\x01a\x011\
    \x21\x5e\xa6\x79\x11\x00\x01\x06\x00\x00\x00\x00\x00\x00\x00\x01\x00\x00\x00\x01\x01b\x012";

const B_RECORD: &[u8] =
    b"\xc5\x32\x7d\xb4\x11\x00\x01\x01\x00\x00\x00\x00\x00\x00\x00\x01\x00\x00\x00\x01\x01b\x012";

const EIGHT: &[u8] =
    b"\x13\x6d\x32\x7d\x11\x00\x05\x08\x00\x00\x00\x01\x00\x00\x00\x00\x00\x00\x00\x01\x00\x00\x00\x01\x01c\x013";

/// A record of a batch that puts `a` in the default family and in the family 2, and one that puts `b` in the latter.
const TWO_FAMILIES: &[u8] =
    b"\x3a\x37\xfd\xf5\x17\x00\x01\x01\x00\x00\x00\x00\x00\x00\x00\x02\x00\x00\x00\x01\x01a\x011\x05\x02\x01a\x012\
    \x48\xea\xbf\x9a\x12\x00\x01\x03\x00\x00\x00\x00\x00\x00\x00\x01\x00\x00\x00\x05\x02\x01b\x013";

const IN_FAMILIES: &str = "client 1\nval 2 2\nnil 2\nno family 3\nok 3 3\n\
    history 1\n3 3 1 1 log 030000000000000001000000050201620133\nstate 3 3\na 1\n2 a 2\n2 b 3\nlog 55\n";

/// A record of a batch that puts `a` in the family 16.
const HIGH_FAMILY: &[u8] =
    b"\xd6\x15\x12\x8f\x12\x00\x01\x01\x00\x00\x00\x00\x00\x00\x00\x01\x00\x00\x00\x05\x10\x01a\x011";

/// A record of a batch that puts `a` in the default family, and deletes it in the family 16.
const HIGH_DELETED: &[u8] =
    b"\xdd\x9a\x93\xa7\x15\x00\x01\x01\x00\x00\x00\x00\x00\x00\x00\x02\x00\x00\x00\x01\x01a\x011\x04\x10\x01a";

/// Words, a script, bytes and how many of them the disk holds, all that is printed, and what the disk holds then.
type GoneOn = (
    &'static str,
    &'static [u8],
    (&'static [u8], usize),
    &'static str,
    &'static [u8],
);

const GONE_ON: [GoneOn; 14] = [
    // The second record was cut in its middle. What is left of it is cut off.
    ("run --resume", PUT_B, (TWO_RECORDS, 40), B_PUT, TWO_RECORDS),
    ("run --resume", PUT_B, (RECORD, 24), B_PUT, TWO_RECORDS),
    (
        "run --resume",
        b"client 1\nget a\n",
        (TWO_RECORDS, 40),
        A_FOUND,
        RECORD,
    ),
    // The run goes on after the sequence that `--last` gives, or after the recovered one if that is greater.
    (
        "run --resume --last 5",
        PUT_B,
        (TWO_RECORDS, 40),
        B_PUT_AT_6,
        SIXTH_BEHIND_FIRST,
    ),
    (
        "run --last 1 --resume",
        PUT_B,
        (TWO_RECORDS, 48),
        B_PUT_AT_3,
        THREE_RECORDS,
    ),
    // An empty log is begun as a new one, and so is a log of which nothing is kept.
    ("run --resume", PUT_B, (b"", 0), B_ALONE, B_RECORD),
    ("run --resume", PUT_B, (RECORD, 23), B_ALONE, B_RECORD),
    ("run --resume", PUT_B, (SEVEN, 56), B_ALONE, B_RECORD),
    // A run has the families of the keys that it goes on from, also where it isn't asked for them, but not that of a
    // key that is gone.
    (
        "run --resume",
        b"client 1\nfget 2 a\nfget 1 a\nfget 3 a\nfput 2 b 3\ncommit\n",
        (TWO_FAMILIES, 30),
        IN_FAMILIES,
        TWO_FAMILIES,
    ),
    (
        "run --resume --families 2",
        b"client 1\nget a\nfget 1 a\nfget 2 a\n",
        (HIGH_DELETED, 28),
        "client 1\nval 2 1\nnil 2\nno family 2\nhistory 0\nstate 2 1\na 1\nlog 28\n",
        HIGH_DELETED,
    ),
    // With a number: logs that are alone on the disk, and one that was written over another log.
    (
        "run --resume --number 7",
        PUT_B,
        (SEVEN, 40),
        B_PUT_OF_SEVEN,
        SEVEN,
    ),
    (
        "run --number 7 --resume",
        PUT_B,
        (SEVEN, 55),
        B_PUT_OF_SEVEN,
        SEVEN,
    ),
    (
        "run --number 8 --resume",
        b"client 1\nget a\nget c\n",
        (WRITTEN_OVER, 56),
        C_FOUND,
        EIGHT,
    ),
    (
        "run --number 8 --resume",
        b"client 1\nget a\nget c\n",
        (EIGHT, 28),
        C_FOUND,
        EIGHT,
    ),
];

fn check_gone_on<R: Threads + Wait + rt::Clock + Abort + Sync>(
    rt: &R,
    alloc: Global,
    path: WritePath,
    row: GoneOn,
) {
    let (words, text, (content, len), want, left) = row;
    let Some(content) = content.get(..len) else {
        panic!(rt; "so many bytes")
    };
    let given = Given {
        words,
        path,
        text,
        content,
        ..PLAIN
    };
    let disk = ended(rt, alloc, given, 0, want);
    assert_eq!(rt; disk.content(), left, "for {words}");
}

#[test]
fn goes_on_behind_what_is_recovered(rt: HostRuntime) {
    // All paths so far were as wanted.
    for path in PATHS {
        // All rows so far were as wanted.
        for row in GONE_ON {
            check_gone_on(&rt, rt.alloc(), path, row);
        }
    }
}

/// Scripts that are run one after another, and what each of them prints.
const IN_TURN: [(&[u8], &str); 4] = [
    (
        b"client 1\nput a 1\ncommit\n",
        "client 1\nok 1 1\n\
        history 1\n1 1 1 1 log 0100000000000000010000000101610131\nstate 1 1\na 1\nlog 24\n",
    ),
    (PUT_B, B_PUT),
    (PUT_B, B_PUT_AT_3),
    (
        b"client 1\nmany a b\nscan a c\n",
        "client 1\nmany 3 2 =1 =2\nscan 3 2 a 1 b 2\nhistory 0\nstate 3 2\na 1\nb 2\nlog 72\n",
    ),
];

#[test]
fn goes_on_time_after_time(rt: HostRuntime) {
    let mut disk = ended(
        &rt,
        rt.alloc(),
        Given {
            words: "run --resume",
            text: b"client 1\n",
            ..PLAIN
        },
        0,
        "client 1\nhistory 0\nstate 0 0\nlog 0\n",
    );
    // All rows so far were as wanted.
    for (text, want) in IN_TURN {
        let given = Given {
            words: "run --resume",
            text,
            content: disk.content(),
            ..PLAIN
        };
        disk = ended(&rt, rt.alloc(), given, 0, want);
    }
    assert_eq!(&rt; disk.content(), THREE_RECORDS);
}

const NONE_ADDED: &str =
    "client 1\nval 1 1\nno logfault 1\nhistory 0\nstate 1 1\na 1\nlog 24 fault 1\n";

const ONE_LEFT: &str = "groups 1\n1 1 17\nstate 1 1\n61 31\nend 24 clean\n";

const ONE_AND_A_PART: &str = "groups 1\n1 1 17\nstate 1 1\n61 31\nend 24 badlength\n";

const TWO_LEFT: &str = "groups 2\n1 1 17\n2 1 17\nstate 2 2\n61 31\n62 32\nend 48 clean\n";

/// Which call of the disk fails, the status, all that is printed then, how many bytes the disk holds, how many of them
/// are safe, and what they recover. The calls are two reads, a cut, a sync, and an append.
type Left = (Fails, u8, &'static str, u64, u64, &'static str);

const LEFT: [Left; 6] = [
    (Disk(1), 3, "disk fault 1\n", 40, 40, ONE_AND_A_PART),
    (Disk(2), 3, "disk fault 1\n", 40, 40, ONE_AND_A_PART),
    (Disk(3), 3, "disk fault 1\n", 40, 40, ONE_AND_A_PART),
    (Disk(4), 3, "disk fault 1\n", 24, 24, ONE_LEFT),
    (Disk(5), 3, NONE_ADDED, 24, 24, ONE_LEFT),
    (Nothing, 0, B_PUT, 48, 24, TWO_LEFT),
];

#[test]
fn each_call_of_the_disk_fails_where_a_log_goes_on(rt: HostRuntime) {
    let Some(content) = TWO_RECORDS.get(..40) else {
        panic!(&rt; "so many bytes")
    };
    // All paths so far were as wanted.
    for path in PATHS {
        // All rows so far were as wanted.
        for (fails, status, want, len, safe, recovered) in LEFT {
            let given = Given {
                words: "run --resume",
                path,
                text: PUT_B,
                content,
                fails,
                ..PLAIN
            };
            let disk = ended(&rt, rt.alloc(), given, status, want);
            let found = (disk.content().len() as u64, disk.synced());
            assert_eq!(&rt; found, (len, safe), "for {want}");
            check_recovery(&rt, rt.alloc(), disk.content(), recovered);
        }
    }
}

/// Runs that leave the log as it is: words and scripts that are refused, and a source that fails.
const LEFT_ALONE: [(&str, &[u8], Fails, u8, &str); 5] = [
    (
        "run --resume",
        b"client 1\npot c 3\n",
        Nothing,
        2,
        "script 2 word\n",
    ),
    (
        "run --resume",
        PUT_B,
        Fails::Source(1),
        4,
        "source fault 1\n",
    ),
    ("run --resume yes", PUT_B, Nothing, 1, "usage\n"),
    ("recover --resume", PUT_B, Nothing, 1, "usage\n"),
    ("run", PUT_B, Nothing, 7, "log not empty 40\n"),
];

#[test]
fn a_log_that_does_not_go_on_is_left_alone(rt: HostRuntime) {
    let Some(content) = TWO_RECORDS.get(..40) else {
        panic!(&rt; "so many bytes")
    };
    // All rows so far were as wanted.
    for (words, text, fails, status, want) in LEFT_ALONE {
        let given = Given {
            words,
            text,
            content,
            fails,
            ..PLAIN
        };
        let disk = ended(&rt, rt.alloc(), given, status, want);
        assert_eq!(&rt; disk.content(), content, "for {words}");
    }
}

// No run has the family of a key that the log recovers. The log is left as it is, in each mode.
#[test]
fn a_log_with_a_high_family_is_left_alone(rt: HostRuntime) {
    // All rows so far were as wanted.
    for words in ["run --resume", "run --resume --families 16 --mode absolute"] {
        let given = Given {
            words,
            text: PUT_B,
            content: HIGH_FAMILY,
            ..PLAIN
        };
        let disk = ended(&rt, rt.alloc(), given, 9, "family 16\n");
        assert_eq!(&rt; disk.content(), HIGH_FAMILY, "for {words}");
    }
    check_recovery(
        &rt,
        rt.alloc(),
        HIGH_FAMILY,
        "groups 1\n1 1 18\nstate 1 1\n16 61 31\nend 25 clean\n",
    );
}
