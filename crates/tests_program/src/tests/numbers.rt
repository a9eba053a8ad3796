//! Logs with a number: their bytes, alone and over an older log, and what is left where a call of the disk fails.

use super::Fails::{Disk, Nothing, Sink, Source};
use super::recovery::{WRITTEN_OVER, check_by_numbers};
use super::runs::OUTCOMES;
use super::{
    Came, Fails, Given, PATHS, PLAIN, Row, THREE_COMMITS, WritePath, came_of, ended,
    is_but_for_length,
};
use base_devices::MemDisk;
use std::alloc::Global;
use std::process::Abort;
use std::rt;
use std::rt::HostRuntime;
use std::sync::Wait;
use std::thread::Threads;

/// Each write path, with a number for the log.
const WITH_NUMBER: [WritePath; 4] = [
    WritePath {
        options: " --number 7",
        locks: 1,
    },
    WritePath {
        options: " --number 7 --table shards",
        locks: 16,
    },
    WritePath {
        options: " --pipelined --number 7",
        locks: 1,
    },
    WritePath {
        options: " --pipelined --table shards --number 4294967295",
        locks: 16,
    },
];

/// Makes calls that succeed, and compares all that is printed except the log's length: each header has four bytes
/// more.
fn check_rows_but_for_length<R: Threads + Wait + rt::Clock + Abort + Sync>(
    rt: &R,
    alloc: Global,
    path: WritePath,
    rows: &[Row],
) {
    // All rows so far were as wanted.
    for (words, text, want) in rows {
        let given = Given {
            words: *words,
            path,
            text: *text,
            ..PLAIN
        };
        let Came { status, sink, .. } = came_of(rt, alloc, given);
        let Ok(text) = str::from_utf8(sink.taken()) else {
            panic!(rt; "no text")
        };
        assert!(rt; status == 0 && is_but_for_length(text, want), "{text}");
    }
}

#[test]
fn prints_what_came_of_a_script(rt: HostRuntime) {
    // All paths so far were as wanted.
    for path in WITH_NUMBER {
        check_rows_but_for_length(&rt, rt.alloc(), path, &OUTCOMES);
    }
}

const PUT_A: &[u8] = b"client 1\nput a 1\ncommit\n";

const A_PUT: &str =
    "client 1\nok 1 1\nhistory 1\n1 1 1 1 log 0100000000000000010000000101610131\nstate 1 1\na 1\nlog 28\n";

/// The record's length, its type, and the number 7, as its header has them.
const HEADER_FROM_LENGTH: &[u8] = b"\x11\x00\x05\x07\x00\x00\x00";

#[test]
fn headers_have_the_number(rt: HostRuntime) {
    // All paths so far were as wanted.
    for path in PATHS {
        let given = Given {
            words: "run --number 7",
            path,
            text: PUT_A,
            ..PLAIN
        };
        let disk = ended(&rt, rt.alloc(), given, 0, A_PUT);
        let content = disk.content();
        assert_eq!(rt;
            (content.len(), content.get(4..11)),
            (28, Some(HEADER_FROM_LENGTH))
        );
    }
}

const PUT_TWO: &[u8] = b"client 1\nput a 1\ncommit\nput b 2\ncommit\n";

const TWO_PUT: &str = "client 1\nok 1 1\nok 2 2\n\
    history 2\n1 1 1 1 log 0100000000000000010000000101610131\n\
    2 2 1 2 log 0200000000000000010000000101620132\nstate 2 2\na 1\nb 2\nlog 56\n";

/// A log with the number 7, of two records. The checksums here and below were computed by another program.
pub(super) const SEVEN: &[u8] =
    b"\x32\x33\x0f\x45\x11\x00\x05\x07\x00\x00\x00\x01\x00\x00\x00\x00\x00\x00\x00\x01\x00\x00\x00\x01\x01a\x011\
    \xd4\x65\xc3\xae\x11\x00\x05\x07\x00\x00\x00\x02\x00\x00\x00\x00\x00\x00\x00\x01\x00\x00\x00\x01\x01b\x012";

const PUT_C: &[u8] = b"client 1\nput c 3\ncommit\n";

const C_PUT: &str =
    "client 1\nok 1 1\nhistory 1\n1 1 1 1 log 0100000000000000010000000101630133\nstate 1 1\nc 3\nlog 28\n";

/// Compares what a disk holds.
pub(super) fn check_left(rt: &impl Abort, disk: &MemDisk, want: &[u8]) {
    assert_eq!(rt; disk.content(), want);
}

/// Writes a log, and another one over it, and recovers the log by each number and without one.
fn check_used_again<R: Threads + Wait + rt::Clock + Abort + Sync>(
    rt: &R,
    alloc: Global,
    path: WritePath,
) {
    let given = Given {
        words: "run --number 7",
        path,
        text: PUT_TWO,
        ..PLAIN
    };
    let seven = ended(rt, alloc, given, 0, TWO_PUT);
    check_left(rt, &seven, SEVEN);
    let given = Given {
        words: "run --number 8",
        path,
        text: PUT_C,
        content: SEVEN,
        ..PLAIN
    };
    let eight = ended(rt, alloc, given, 0, C_PUT);
    check_left(rt, &eight, WRITTEN_OVER);
    check_by_numbers(rt, alloc, eight.content());
}

#[test]
fn writes_over_an_older_log(rt: HostRuntime) {
    // All paths so far were as wanted.
    for path in PATHS {
        check_used_again(&rt, rt.alloc(), path);
    }
}

/// Words, what the disk holds, which call of a device fails, the status, all that is printed then, and what the disk
/// holds then.
type Device = (
    &'static str,
    &'static [u8],
    Fails,
    u8,
    &'static str,
    &'static [u8],
);

/// The length isn't asked for: whatever the disk holds is written over.
const DEVICES: [Device; 9] = [
    ("run --number 8", b"", Disk(1), 3, "disk fault 1\n", b""),
    ("run --number 8", SEVEN, Disk(1), 3, "disk fault 1\n", SEVEN),
    (
        "run --pipelined --number 8",
        SEVEN,
        Disk(1),
        3,
        "disk fault 1\n",
        SEVEN,
    ),
    (
        "run --number 8",
        SEVEN,
        Source(1),
        4,
        "source fault 1\n",
        SEVEN,
    ),
    ("run --number 8", SEVEN, Sink(1), 5, "", WRITTEN_OVER),
    ("run --number 8", SEVEN, Nothing, 0, C_PUT, WRITTEN_OVER),
    (
        "run --number 8",
        b"x",
        Nothing,
        0,
        C_PUT,
        b"\x13\x6d\x32\x7d\x11\x00\x05\x08\x00\x00\x00\x01\x00\x00\x00\x00\x00\x00\x00\x01\x00\x00\x00\x01\x01c\x013",
    ),
    ("run", SEVEN, Nothing, 7, "log not empty 56\n", SEVEN),
    ("gen 1 1 2", SEVEN, Nothing, 7, "log not empty 56\n", SEVEN),
];

#[test]
fn devices_fail_or_are_written_over(rt: HostRuntime) {
    // All rows so far were as wanted.
    for (words, content, fails, status, want, left) in DEVICES {
        let given = Given {
            words,
            content,
            fails,
            text: PUT_C,
            ..PLAIN
        };
        let disk = ended(&rt, rt.alloc(), given, status, want);
        assert_eq!(rt; disk.content(), left, "for {words}");
    }
}

/// Words, a script, the status, and all that is printed. Each leaves the older log as it is: a script with a fault,
/// one that commits nothing to the log, and words that are refused.
const LEFT_ALONE: [(&str, &[u8], u8, &str); 3] = [
    (
        "run --number 8",
        b"client 1\npot c 3\n",
        2,
        "script 2 word\n",
    ),
    (
        "run --number 8",
        b"client 1\nget a\n",
        0,
        "client 1\nnil 0\nhistory 0\nstate 0 0\nlog 0\n",
    ),
    ("run --number 0", PUT_C, 1, "usage\n"),
];

#[test]
fn an_older_log_is_left_alone(rt: HostRuntime) {
    // All rows so far were as wanted.
    for (words, text, status, want) in LEFT_ALONE {
        let given = Given {
            words,
            text,
            content: SEVEN,
            ..PLAIN
        };
        let disk = ended(&rt, rt.alloc(), given, status, want);
        assert_eq!(rt; disk.content(), SEVEN, "for {want}");
    }
}

const A_OF_EIGHT: &[u8] =
    b"\x6b\xc9\xdd\x41\x11\x00\x05\x08\x00\x00\x00\x01\x00\x00\x00\x00\x00\x00\x00\x01\x00\x00\x00\x01\x01a\x011\
    \xd4\x65\xc3\xae\x11\x00\x05\x07\x00\x00\x00\x02\x00\x00\x00\x00\x00\x00\x00\x01\x00\x00\x00\x01\x01b\x012";

const TWO_OF_EIGHT: &[u8] =
    b"\x6b\xc9\xdd\x41\x11\x00\x05\x08\x00\x00\x00\x01\x00\x00\x00\x00\x00\x00\x00\x01\x00\x00\x00\x01\x01a\x011\
    \x0d\xd7\x19\xd4\x11\x00\x05\x08\x00\x00\x00\x02\x00\x00\x00\x00\x00\x00\x00\x01\x00\x00\x00\x01\x01b\x012";

const THREE_OF_EIGHT: &[u8] =
    b"\x6b\xc9\xdd\x41\x11\x00\x05\x08\x00\x00\x00\x01\x00\x00\x00\x00\x00\x00\x00\x01\x00\x00\x00\x01\x01a\x011\
    \x0d\xd7\x19\xd4\x11\x00\x05\x08\x00\x00\x00\x02\x00\x00\x00\x00\x00\x00\x00\x01\x00\x00\x00\x01\x01b\x012\
    \x80\xe8\x55\x4e\x11\x00\x05\x08\x00\x00\x00\x03\x00\x00\x00\x00\x00\x00\x00\x01\x00\x00\x00\x01\x01c\x013";

const NONE_LOGGED: &str =
    "client 1\nno logfault 1\nno logfault 1\nno logfault 1\nhistory 0\nstate 0 0\nlog 0 fault 1\n";

const ONE_LOGGED: &str = "client 1\nok 1 1\nno logfault 1\nno logfault 1\n\
    history 1\n1 1 1 1 log 0100000000000000010000000101610131\nstate 1 1\na 1\nlog 28 fault 1\n";

const TWO_LOGGED: &str = "client 1\nok 1 1\nok 2 2\nno logfault 1\n\
    history 2\n1 1 1 1 log 0100000000000000010000000101610131\n\
    2 2 1 2 sync 0200000000000000010000000101620132\nstate 2 2\na 1\nb 2\nlog 56 fault 1\n";

const ALL_LOGGED: &str = "client 1\nok 1 1\nok 2 2\nok 3 3\n\
    history 3\n1 1 1 1 log 0100000000000000010000000101610131\n\
    2 2 1 2 sync 0200000000000000010000000101620132\n\
    3 3 1 3 log 0300000000000000010000000101630133\nstate 3 3\na 1\nb 2\nc 3\nlog 84\n";

/// Which call of the disk fails, the status, all that is printed then, what the disk holds, and how much of it is
/// safe. The calls are a rewind, two appends, a sync, and an append.
type Left = (Fails, u8, &'static str, &'static [u8], u64);

const LEFT: [Left; 6] = [
    (Disk(1), 3, "disk fault 1\n", SEVEN, 56),
    // Any part of the first record may be on the disk, so nothing is safe.
    (Disk(2), 3, NONE_LOGGED, SEVEN, 0),
    (Disk(3), 3, ONE_LOGGED, A_OF_EIGHT, 0),
    // The second record is written, but not synced.
    (Disk(4), 3, ONE_LOGGED, TWO_OF_EIGHT, 0),
    (Disk(5), 3, TWO_LOGGED, TWO_OF_EIGHT, 56),
    (Nothing, 0, ALL_LOGGED, THREE_OF_EIGHT, 56),
];

#[test]
fn each_call_of_the_disk_fails_over_an_older_log(rt: HostRuntime) {
    // All paths so far were as wanted.
    for path in PATHS {
        // All rows so far were as wanted.
        for (fails, status, want, content, safe) in LEFT {
            let given = Given {
                words: "run --number 8",
                path,
                text: THREE_COMMITS,
                content: SEVEN,
                fails,
                ..PLAIN
            };
            let disk = ended(&rt, rt.alloc(), given, status, want);
            assert_eq!(rt; (disk.content(), disk.synced()), (content, safe));
        }
    }
}
