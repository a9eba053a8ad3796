//! Each call of a device fails in turn, and what crashes leave of a log.

use super::recovery::check_recovery;
use super::{
    Came, Fails, Given, OUTCOME, PATHS, PIPELINED_SHARDS, PLAIN, RECORD, SCRIPT, THREE_COMMITS,
    TWO_RECORDS, WritePath, came_of, ended, is_line,
};
use base_devices::{Disk, MemDisk};
use std::alloc::Global;
use std::process::Abort;
use std::rt;
use std::rt::HostRuntime;
use std::sync::Wait;
use std::thread::Threads;

/// The checksums were computed by another program.
const THREE_RECORDS: &[u8] =
    b"\xe9\x9f\x78\x19\x11\x00\x01\x01\x00\x00\x00\x00\x00\x00\x00\x01\x00\x00\x00\x01\x01a\x011\
    \x8f\x72\xbc\x7a\x11\x00\x01\x02\x00\x00\x00\x00\x00\x00\x00\x01\x00\x00\x00\x01\x01b\x012\
    \x02\x81\x00\xe5\x11\x00\x01\x03\x00\x00\x00\x00\x00\x00\x00\x01\x00\x00\x00\x01\x01c\x013";

const NONE_LOGGED: &str =
    "client 1\nno logfault 1\nno logfault 1\nno logfault 1\nhistory 0\nstate 0 0\nlog 0 fault 1\n";

const ONE_LOGGED: &str = "client 1\nok 1 1\nno logfault 1\nno logfault 1\n\
    history 1\n1 1 1 1 log 0100000000000000010000000101610131\nstate 1 1\na 1\nlog 24 fault 1\n";

const TWO_LOGGED: &str = "client 1\nok 1 1\nok 2 2\nno logfault 1\n\
    history 2\n1 1 1 1 log 0100000000000000010000000101610131\n\
    2 2 1 2 sync 0200000000000000010000000101620132\nstate 2 2\na 1\nb 2\nlog 48 fault 1\n";

const ALL_LOGGED: &str = "client 1\nok 1 1\nok 2 2\nok 3 3\n\
    history 3\n1 1 1 1 log 0100000000000000010000000101610131\n\
    2 2 1 2 sync 0200000000000000010000000101620132\n\
    3 3 1 3 log 0300000000000000010000000101630133\nstate 3 3\na 1\nb 2\nc 3\nlog 72\n";

/// Which call of the disk fails, the status, all that is printed then, what the disk holds, and how much of it is
/// safe.
type Left = (Fails, u8, &'static str, &'static [u8], u64);

const LEFT: [Left; 6] = [
    (Fails::Disk(1), 3, "disk fault 1\n", b"", 0),
    (Fails::Disk(2), 3, NONE_LOGGED, b"", 0),
    (Fails::Disk(3), 3, ONE_LOGGED, RECORD, 0),
    // The second record is written, but not synced.
    (Fails::Disk(4), 3, ONE_LOGGED, TWO_RECORDS, 0),
    (Fails::Disk(5), 3, TWO_LOGGED, TWO_RECORDS, 48),
    (Fails::Nothing, 0, ALL_LOGGED, THREE_RECORDS, 48),
];

fn check_left<R: Threads + Wait + rt::Clock + Abort + Sync>(
    rt: &R,
    alloc: Global,
    path: WritePath,
    row: Left,
) {
    let (fails, status, want, content, safe) = row;
    let given = Given {
        path,
        text: THREE_COMMITS,
        fails,
        ..PLAIN
    };
    let disk = ended(rt, alloc, given, status, want);
    assert_eq!(rt; (disk.content(), disk.synced()), (content, safe));
}

#[test]
fn each_call_of_the_disk_fails(rt: HostRuntime) {
    // All paths and rows so far were as wanted.
    for path in PATHS {
        for row in LEFT {
            check_left(&rt, rt.alloc(), path, row);
        }
    }
}

/// How the machine crashes: this many bytes are left. Those that weren't safe are as they were (`Cut`), or torn with
/// the seed 2 (`Torn`).
#[derive(Clone, Copy)]
enum Crash {
    Cut(u64),
    Torn(u64),
}

/// What a crash leaves of a disk.
fn left_by(rt: &impl Abort, disk: MemDisk, crash: Crash) -> MemDisk {
    match crash {
        Crash::Cut(len) => {
            assert!(rt; disk.synced() <= len && len <= disk.content().len() as u64);
            disk.crashed(len)
        }
        Crash::Torn(len) => {
            assert!(rt; disk.synced() <= len && len <= disk.content().len() as u64);
            disk.torn(len, 2)
        }
    }
}

/// Runs the script of three commits, lets the machine crash, and compares what the log recovers.
fn check_crash<R: Threads + Wait + rt::Clock + Abort + Sync>(
    rt: &R,
    alloc: Global,
    fails: Fails,
    crash: Crash,
    want: &str,
) {
    let given = Given {
        text: THREE_COMMITS,
        fails,
        ..PLAIN
    };
    let left = left_by(rt, came_of(rt, alloc, given).disk, crash);
    check_recovery(rt, alloc, left.content(), want);
}

const ONE_LEFT: &str = "groups 1\n1 1 17\nstate 1 1\n61 31\nend 24 clean\n";

const TWO_LEFT: &str = "groups 2\n1 1 17\n2 1 17\nstate 2 2\n61 31\n62 32\nend 48 clean\n";

const TWO_AND_A_HEAD: &str =
    "groups 2\n1 1 17\n2 1 17\nstate 2 2\n61 31\n62 32\nend 48 shortheader\n";

const TWO_AND_A_PART: &str =
    "groups 2\n1 1 17\n2 1 17\nstate 2 2\n61 31\n62 32\nend 48 badlength\n";

const ALL_LEFT: &str =
    "groups 3\n1 1 17\n2 1 17\n3 1 17\nstate 3 3\n61 31\n62 32\n63 33\nend 72 clean\n";

/// Which call of the disk fails, how the machine crashes after that, and what the log recovers.
const CRASHES: [(Fails, Crash, &str); 5] = [
    (Fails::Disk(4), Crash::Cut(24), ONE_LEFT),
    (Fails::Disk(4), Crash::Cut(48), TWO_LEFT),
    (Fails::Nothing, Crash::Torn(48), TWO_LEFT),
    (Fails::Nothing, Crash::Torn(54), TWO_AND_A_HEAD),
    (Fails::Nothing, Crash::Torn(72), TWO_AND_A_PART),
];

#[test]
fn crashes_leave_what_was_safe(rt: HostRuntime) {
    // All crashes so far left what was safe.
    for (fails, crash, want) in CRASHES {
        check_crash(&rt, rt.alloc(), fails, crash, want);
    }
}

/// What is recovered from the first `len` bytes of three records. The first two records are safe.
fn left_of(len: u64) -> &'static str {
    match len {
        48 => TWO_LEFT,
        49..=54 => TWO_AND_A_HEAD,
        55..=71 => TWO_AND_A_PART,
        _ => ALL_LEFT,
    }
}

#[test]
fn crashes_leave_each_length(rt: HostRuntime) {
    // A crash at each shorter length left what was safe.
    for len in 48..73u64 {
        let crash = Crash::Cut(len);
        check_crash(&rt, rt.alloc(), Fails::Nothing, crash, left_of(len));
    }
}

const FOUR_CLIENTS: &[u8] = b"client 1\nput a 1\ncommit\nclient 2\nput b 2\ncommit\n\
    client 3\nput c 3\ncommit\nclient 4\nput d 4\ncommit\n";

/// How many lines name these clients or answer them.
const THEIR_LINES: usize = 8;

/// Whether the line names a client, or says that a commit was written, or that it was refused for the log's first
/// fault.
fn is_answer(line: &str) -> bool {
    is_line(line, "client *") || is_line(line, "ok *") || line == "no logfault 1"
}

/// Each of the four clients gets such an answer. The status says whether the call that should fail was made.
fn check_four<R: Threads + Wait + rt::Clock + Abort + Sync>(rt: &R, alloc: Global, call: u64) {
    let given = Given {
        path: PIPELINED_SHARDS,
        text: FOUR_CLIENTS,
        fails: Fails::Disk(call),
        ..PLAIN
    };
    let Came { status, sink, disk } = came_of(rt, alloc, given);
    let has_failed = disk.faults() > 0;
    assert_eq!(rt; status, if has_failed { 3 } else { 0 });
    let Ok(text) = str::from_utf8(sink.taken()) else {
        panic!(rt; "no text")
    };
    assert!(rt; text.lines().take(THEIR_LINES).all(is_answer), "{text}");
}

#[test]
fn a_call_of_the_disk_fails_under_four_clients(rt: HostRuntime) {
    // It was so where each earlier call failed.
    for call in 2..7u64 {
        check_four(&rt, rt.alloc(), call);
    }
}

/// A run whose source gives one byte in a call, and whose sink takes one.
const BYTE_BY_BYTE: Given<'static> = Given { piece: 1, ..PLAIN };

/// The source is read once for each byte of the script, and once for its end.
#[test]
fn each_read_of_the_source_fails(rt: HostRuntime) {
    let calls = (SCRIPT.len() as u64).saturating_add(1);
    // It was so where each earlier read failed.
    for call in 1..=calls {
        let given = Given {
            fails: Fails::Source(call),
            ..BYTE_BY_BYTE
        };
        let disk = ended(&rt, rt.alloc(), given, 4, "source fault 1\n");
        assert!(rt; disk.content().is_empty());
    }
}

/// Where the write of the byte `at` of the outcome fails, the sink has taken the bytes before it. All else was done by
/// then.
fn check_sink<R: Threads + Wait + rt::Clock + Abort + Sync>(rt: &R, alloc: Global, at: usize) {
    let given = Given {
        fails: Fails::Sink((at as u64).saturating_add(1)),
        ..BYTE_BY_BYTE
    };
    let Came { status, sink, disk } = came_of(rt, alloc, given);
    let before = OUTCOME.as_bytes().get(..at);
    assert_eq!(rt;
        (status, Some(sink.taken()), disk.content()),
        (5, before, RECORD)
    );
}

#[test]
fn each_write_of_the_sink_fails(rt: HostRuntime) {
    // It was so where each earlier write failed.
    for at in 0..OUTCOME.len() {
        check_sink(&rt, rt.alloc(), at);
    }
}
