//! Modes of recovery: what `recover` and `run --resume` say of ends that a mode accepts, and of those that it refuses.

use super::Fails::{Disk, Nothing};
use super::numbers::check_left;
use super::recovery::WRITTEN_OVER;
use super::{Fails, Given, PATHS, PLAIN, RECORD, TWO_RECORDS, WritePath, ended};
use std::alloc::Global;
use std::process::Abort;
use std::rt;
use std::rt::HostRuntime;
use std::sync::Wait;
use std::thread::Threads;

/// The two records, and seven zeros after them.
const ZEROS_BEHIND: &[u8] =
    b"\xe9\x9f\x78\x19\x11\x00\x01\x01\x00\x00\x00\x00\x00\x00\x00\x01\x00\x00\x00\x01\x01a\x011\
    \x8f\x72\xbc\x7a\x11\x00\x01\x02\x00\x00\x00\x00\x00\x00\x00\x01\x00\x00\x00\x01\x01b\x012\
    \x00\x00\x00\x00\x00\x00\x00";

/// The first record, and seven zeros in place of the second one.
const ZEROS_AT_SECOND: &[u8] =
    b"\xe9\x9f\x78\x19\x11\x00\x01\x01\x00\x00\x00\x00\x00\x00\x00\x01\x00\x00\x00\x01\x01a\x011\
    \x00\x00\x00\x00\x00\x00\x00";

/// The first record, and the second one with zeros in place of its header.
const ZEROS_WITHIN: &[u8] =
    b"\xe9\x9f\x78\x19\x11\x00\x01\x01\x00\x00\x00\x00\x00\x00\x00\x01\x00\x00\x00\x01\x01a\x011\
    \x00\x00\x00\x00\x00\x00\x00\x02\x00\x00\x00\x00\x00\x00\x00\x01\x00\x00\x00\x01\x01b\x012";

/// The two records, with another last byte.
const CHANGED: &[u8] =
    b"\xe9\x9f\x78\x19\x11\x00\x01\x01\x00\x00\x00\x00\x00\x00\x00\x01\x00\x00\x00\x01\x01a\x011\
    \x8f\x72\xbc\x7a\x11\x00\x01\x02\x00\x00\x00\x00\x00\x00\x00\x01\x00\x00\x00\x01\x01b\x013";

const WHOLE: &str = "groups 2\n1 1 17\n2 1 17\nstate 2 2\n61 31\n62 32\nend 48 clean\n";

const UP_TO_ZEROS: &str = "groups 2\n1 1 17\n2 1 17\nstate 2 2\n61 31\n62 32\nend 48 zeros\n";

const FIRST_UP_TO_HEADER: &str = "groups 1\n1 1 17\nstate 1 1\n61 31\nend 24 shortheader\n";

const FIRST_UP_TO_PART: &str = "groups 1\n1 1 17\nstate 1 1\n61 31\nend 24 badlength\n";

const FIRST_UP_TO_ZEROS: &str = "groups 1\n1 1 17\nstate 1 1\n61 31\nend 24 zeros\n";

const FIRST_UP_TO_CHANGED: &str = "groups 1\n1 1 17\nstate 1 1\n61 31\nend 24 badchecksum\n";

const OF_EIGHT: &str = "groups 1\n1 1 17\nstate 1 1\n63 33\nend 28 oldlog 7\n";

/// Words, bytes and how many of them the disk holds, the status, and all that is printed.
type ByMode = (&'static str, (&'static [u8], usize), u8, &'static str);

/// Each log in each mode.
const BY_MODE: [ByMode; 24] = [
    ("recover", (TWO_RECORDS, 48), 0, WHOLE),
    ("recover --mode tail", (TWO_RECORDS, 48), 0, WHOLE),
    ("recover --mode absolute", (TWO_RECORDS, 48), 0, WHOLE),
    ("recover", (TWO_RECORDS, 30), 0, FIRST_UP_TO_HEADER),
    (
        "recover --mode tail",
        (TWO_RECORDS, 30),
        0,
        FIRST_UP_TO_HEADER,
    ),
    (
        "recover --mode absolute",
        (TWO_RECORDS, 30),
        8,
        "damage 24 shortheader\n",
    ),
    (
        "recover --mode point",
        (TWO_RECORDS, 31),
        0,
        FIRST_UP_TO_PART,
    ),
    (
        "recover --mode tail",
        (TWO_RECORDS, 31),
        0,
        FIRST_UP_TO_PART,
    ),
    (
        "recover --mode absolute",
        (TWO_RECORDS, 31),
        8,
        "damage 24 badlength\n",
    ),
    ("recover", (ZEROS_BEHIND, 55), 0, UP_TO_ZEROS),
    ("recover --mode tail", (ZEROS_BEHIND, 55), 0, UP_TO_ZEROS),
    (
        "recover --mode absolute",
        (ZEROS_BEHIND, 55),
        8,
        "damage 48 zeros\n",
    ),
    ("recover", (ZEROS_AT_SECOND, 31), 0, FIRST_UP_TO_ZEROS),
    (
        "recover --mode tail",
        (ZEROS_AT_SECOND, 31),
        0,
        FIRST_UP_TO_ZEROS,
    ),
    (
        "recover --mode absolute",
        (ZEROS_AT_SECOND, 31),
        8,
        "damage 24 zeros\n",
    ),
    ("recover", (ZEROS_WITHIN, 48), 0, FIRST_UP_TO_ZEROS),
    (
        "recover --mode tail",
        (ZEROS_WITHIN, 48),
        8,
        "damage 24 zeros\n",
    ),
    (
        "recover --mode absolute",
        (ZEROS_WITHIN, 48),
        8,
        "damage 24 zeros\n",
    ),
    ("recover", (CHANGED, 48), 0, FIRST_UP_TO_CHANGED),
    (
        "recover --mode tail",
        (CHANGED, 48),
        8,
        "damage 24 badchecksum\n",
    ),
    (
        "recover --mode absolute",
        (CHANGED, 48),
        8,
        "damage 24 badchecksum\n",
    ),
    ("recover --number 8", (WRITTEN_OVER, 56), 0, OF_EIGHT),
    (
        "recover --number 8 --mode tail",
        (WRITTEN_OVER, 56),
        0,
        OF_EIGHT,
    ),
    (
        "recover --mode absolute --number 8",
        (WRITTEN_OVER, 56),
        0,
        OF_EIGHT,
    ),
];

fn check_mode<R: Threads + Wait + rt::Clock + Abort + Sync>(rt: &R, alloc: Global, row: ByMode) {
    let (words, (content, len), status, want) = row;
    let Some(content) = content.get(..len) else {
        panic!(rt; "so many bytes")
    };
    let given = Given {
        words,
        text: b"",
        content,
        ..PLAIN
    };
    let disk = ended(rt, alloc, given, status, want);
    check_left(rt, &disk, content);
}

#[test]
fn recovers_what_the_mode_accepts(rt: HostRuntime) {
    // All rows so far were as wanted.
    for row in BY_MODE {
        check_mode(&rt, rt.alloc(), row);
    }
}

const GET_A: &[u8] = b"client 1\nget a\n";

const A_FOUND: &str = "client 1\nval 1 1\nhistory 0\nstate 1 1\na 1\nlog 24\n";

const BOTH_FOUND: &str = "client 1\nval 2 1\nhistory 0\nstate 2 2\na 1\nb 2\nlog 48\n";

const C_FOUND: &str = "client 1\nnil 1\nhistory 0\nstate 1 1\nc 3\nlog 28\n";

const NONE_FOUND: &str = "client 1\nnil 0\nhistory 0\nstate 0 0\nlog 0\n";

/// Words, bytes and how many of them the disk holds, the status, all that is printed, and how many of these bytes the
/// disk holds then.
type GoesOn = (
    &'static str,
    (&'static [u8], usize),
    u8,
    &'static str,
    usize,
);

const GOING_ON: [GoesOn; 14] = [
    (
        "run --resume --mode absolute",
        (TWO_RECORDS, 40),
        8,
        "damage 24 badlength\n",
        40,
    ),
    (
        "run --resume --mode tail",
        (TWO_RECORDS, 40),
        0,
        A_FOUND,
        24,
    ),
    (
        "run --mode point --resume",
        (TWO_RECORDS, 40),
        0,
        A_FOUND,
        24,
    ),
    (
        "run --mode absolute --resume",
        (TWO_RECORDS, 48),
        0,
        BOTH_FOUND,
        48,
    ),
    (
        "run --resume --mode absolute",
        (ZEROS_BEHIND, 55),
        8,
        "damage 48 zeros\n",
        55,
    ),
    (
        "run --resume --mode tail",
        (ZEROS_BEHIND, 55),
        0,
        BOTH_FOUND,
        48,
    ),
    (
        "run --resume --mode tail",
        (ZEROS_WITHIN, 48),
        8,
        "damage 24 zeros\n",
        48,
    ),
    (
        "run --resume --mode tail",
        (CHANGED, 48),
        8,
        "damage 24 badchecksum\n",
        48,
    ),
    (
        "run --resume --mode absolute",
        (CHANGED, 48),
        8,
        "damage 24 badchecksum\n",
        48,
    ),
    ("run --resume --mode point", (CHANGED, 48), 0, A_FOUND, 24),
    (
        "run --number 8 --resume --mode absolute",
        (WRITTEN_OVER, 56),
        0,
        C_FOUND,
        28,
    ),
    // Without `--resume` no log is recovered, and the mode has no effect.
    ("run --mode absolute", (b"", 0), 0, NONE_FOUND, 0),
    (
        "run --mode absolute",
        (TWO_RECORDS, 40),
        7,
        "log not empty 40\n",
        40,
    ),
    (
        "run --mode absolute --number 9",
        (TWO_RECORDS, 40),
        0,
        NONE_FOUND,
        40,
    ),
];

fn check_going_on<R: Threads + Wait + rt::Clock + Abort + Sync>(
    rt: &R,
    alloc: Global,
    path: WritePath,
    row: GoesOn,
) {
    let (words, (bytes, len), status, want, left_len) = row;
    let (Some(content), Some(left)) = (bytes.get(..len), bytes.get(..left_len)) else {
        panic!(rt; "so many bytes")
    };
    let given = Given {
        words,
        path,
        text: GET_A,
        content,
        ..PLAIN
    };
    let disk = ended(rt, alloc, given, status, want);
    check_left(rt, &disk, left);
}

#[test]
fn goes_on_where_the_mode_accepts(rt: HostRuntime) {
    // All paths so far were as wanted.
    for path in PATHS {
        // All rows so far were as wanted.
        for row in GOING_ON {
            check_going_on(&rt, rt.alloc(), path, row);
        }
    }
}

const PUT_B: &[u8] = b"client 1\nget a\nput b 2\ncommit\n";

const B_PUT: &str = "client 1\nval 1 1\nok 2 2\n\
    history 1\n2 2 1 1 log 0200000000000000010000000101620132\nstate 2 2\na 1\nb 2\nlog 48\n";

const B_PUT_ALONE: &str = "client 1\nnil 0\nok 1 1\n\
    history 1\n1 1 1 1 log 0100000000000000010000000101620132\nstate 1 1\nb 2\nlog 24\n";

const B_RECORD: &[u8] =
    b"\xc5\x32\x7d\xb4\x11\x00\x01\x01\x00\x00\x00\x00\x00\x00\x00\x01\x00\x00\x00\x01\x01b\x012";

/// Words, what the disk holds, all that is printed, and what the disk holds then.
type Written = (&'static str, &'static [u8], &'static str, &'static [u8]);

const WRITTEN: [Written; 4] = [
    ("run --resume --mode absolute", RECORD, B_PUT, TWO_RECORDS),
    (
        "run --resume --mode tail",
        ZEROS_AT_SECOND,
        B_PUT,
        TWO_RECORDS,
    ),
    ("run --resume --mode absolute", b"", B_PUT_ALONE, B_RECORD),
    ("run --mode absolute", b"", B_PUT_ALONE, B_RECORD),
];

fn check_written<R: Threads + Wait + rt::Clock + Abort + Sync>(
    rt: &R,
    alloc: Global,
    path: WritePath,
    row: Written,
) {
    let (words, content, want, left) = row;
    let given = Given {
        words,
        path,
        text: PUT_B,
        content,
        ..PLAIN
    };
    let disk = ended(rt, alloc, given, 0, want);
    check_left(rt, &disk, left);
}

#[test]
fn writes_behind_an_accepted_end(rt: HostRuntime) {
    // All paths so far were as wanted.
    for path in PATHS {
        // All rows so far were as wanted.
        for row in WRITTEN {
            check_written(&rt, rt.alloc(), path, row);
        }
    }
}

/// Words, which call of the disk fails, the status, and all that is printed. The disk holds two records and zeros. Two
/// calls read the log. The third, which only the mode `tail` makes, looks at the zeros.
type Failing = (&'static str, Fails, u8, &'static str);

const FAILING: [Failing; 4] = [
    ("recover --mode tail", Disk(1), 3, "disk fault 1\n"),
    ("recover --mode tail", Disk(3), 3, "disk fault 1\n"),
    ("recover --mode absolute", Disk(3), 8, "damage 48 zeros\n"),
    ("recover --mode tail", Nothing, 0, UP_TO_ZEROS),
];

fn check_failing<R: Threads + Wait + rt::Clock + Abort + Sync>(
    rt: &R,
    alloc: Global,
    row: Failing,
) {
    let (words, fails, status, want) = row;
    let given = Given {
        words,
        text: b"",
        content: ZEROS_BEHIND,
        fails,
        ..PLAIN
    };
    let disk = ended(rt, alloc, given, status, want);
    check_left(rt, &disk, ZEROS_BEHIND);
}

#[test]
fn a_fault_comes_before_the_damage(rt: HostRuntime) {
    // All rows so far were as wanted.
    for row in FAILING {
        check_failing(&rt, rt.alloc(), row);
    }
}
