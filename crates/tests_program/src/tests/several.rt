//! Several logs: what a run leaves on each disk, what the disks recover, and each of their calls failing. A count of
//! faults is that of both disks: the second one was asked for its length once before the call, which may have failed.

ghost use Rattle.std.specs.Prelude.{◌≡◌, ◌<◌, ◌≤◌, length};

use super::{DISK_ROOM, ONE_TREE, PIECE, RECORD, SINK_ROOM, START, words_of};
use base_devices::{Disk, MemDisk, MemSink, MemSource, SteppedClock};
use program_call::{EndedMany, run_many};
use std::alloc::Global;
use std::process::Abort;
use std::rt;
use std::rt::HostRuntime;
use std::sync::Wait;
use std::thread::Threads;

const SCRIPT: &[u8] = b"client 1\nput a 1\ncommit\nput b 2\ncommit\nput c 3\ncommit\n";

/// The records of the second and the third commit. The checksums were computed by another program.
pub(super) const LATER: &[u8] =
    b"\x8f\x72\xbc\x7a\x11\x00\x01\x02\x00\x00\x00\x00\x00\x00\x00\x01\x00\x00\x00\x01\x01b\x012\
    \x02\x81\x00\xe5\x11\x00\x01\x03\x00\x00\x00\x00\x00\x00\x00\x01\x00\x00\x00\x01\x01c\x013";

const ALL_LOGGED: &str = "client 1\nok 1 1\nok 2 2\nok 3 3\n\
    history 3\n1 1 1 1 log 0100000000000000010000000101610131\n\
    2 2 1 2 log 0200000000000000010000000101620132\n\
    3 3 1 3 log 0300000000000000010000000101630133\nstate 3 3\na 1\nb 2\nc 3\nlog 24 48\n";

const ONE_LOGGED: &str = "client 1\nok 1 1\nno logfault 1\nno logfault 1\n\
    history 1\n1 1 1 1 log 0100000000000000010000000101610131\nstate 1 1\na 1\nlog 24 fault 1\n";

const ONE_LOGGED_AT_2: &str = "client 1\nok 1 1\nno logfault 2\nno logfault 2\n\
    history 1\n1 1 1 1 log 0100000000000000010000000101610131\nstate 1 1\na 1\nlog 24 fault 2\n";

const SECOND_BEGUN: &str = "client 1\nok 1 1\nno logfault 1\nno logfault 1\n\
    history 1\n1 1 1 1 log 0100000000000000010000000101610131\nstate 1 1\na 1\nlog 24 0 fault 1\n";

const ALL_RECOVERED: &str =
    "groups 3\n1 1 17\n2 1 17\n3 1 17\nstate 3 3\n61 31\n62 32\n63 33\nend 2 48 clean\n";

pub(super) const RUN: &str = "run --logs 2 --log-bytes 24";

const RECOVER: &str = "recover --logs 2";

/// The numbers of the calls that fail of each of two disks.
pub(super) type Fails = (&'static [u64], &'static [u64]);

/// The words of a call, what the disks hold, which of their calls fail, the status, all that is printed, and what the
/// disks hold then.
pub(super) type Row<'a> = (
    &'static str,
    [&'static [u8]; 2],
    Fails,
    u8,
    &'a str,
    [&'static [u8]; 2],
);

/// The calls of the first disk are a look at the length, an append, and the sync before the second log is begun; those
/// of the second one are two looks at the length, and an append for each group.
const ROWS: [Row<'static>; 12] = [
    (RUN, [b"", b""], (&[], &[]), 0, ALL_LOGGED, [RECORD, LATER]),
    (RUN, [b"", b""], (&[], &[1]), 0, ALL_LOGGED, [RECORD, LATER]),
    (RUN, [b"", b""], (&[3], &[]), 3, ONE_LOGGED, [RECORD, b""]),
    (
        RUN,
        [b"", b""],
        (&[3], &[1]),
        3,
        ONE_LOGGED_AT_2,
        [RECORD, b""],
    ),
    (RUN, [b"", b""], (&[], &[3]), 3, SECOND_BEGUN, [RECORD, b""]),
    (
        RUN,
        [b"", b""],
        (&[1], &[]),
        3,
        "disk fault 1\n",
        [b"", b""],
    ),
    (
        RUN,
        [b"", b""],
        (&[1], &[1]),
        3,
        "disk fault 2\n",
        [b"", b""],
    ),
    (
        RUN,
        [b"", b""],
        (&[], &[1, 2]),
        3,
        "disk fault 2\n",
        [b"", b""],
    ),
    (
        RUN,
        [b"", b"x"],
        (&[], &[1]),
        7,
        "log not empty 1\n",
        [b"", b"x"],
    ),
    (
        RECOVER,
        [RECORD, LATER],
        (&[], &[1]),
        0,
        ALL_RECOVERED,
        [RECORD, LATER],
    ),
    (
        RECOVER,
        [RECORD, LATER],
        (&[1], &[1]),
        3,
        "disk fault 2\n",
        [RECORD, LATER],
    ),
    (
        RECOVER,
        [RECORD, LATER],
        (&[], &[1, 2]),
        3,
        "disk fault 2\n",
        [RECORD, LATER],
    ),
];

/// Two disks that hold these bytes, of which these calls fail.
fn disks_of(rt: &impl Abort, alloc: Global, contents: [&[u8]; 2], fails: Fails) -> Vec<MemDisk>
    ensures { length result.items ≡ 2 }
{
    let ([one, two], (first, second)) = (contents, fails);
    assert!(rt; one.len() <= DISK_ROOM && two.len() <= DISK_ROOM);
    let one = MemDisk::new(alloc, DISK_ROOM, one, first).expect(rt, "memory");
    let mut two = MemDisk::new(alloc, DISK_ROOM, two, second).expect(rt, "memory");
    let _ = two.len();
    vec![in alloc; one, two].expect(rt, "memory")
}

/// Makes a call, by its words and with a script, over these disks. Compares its status and all that it printed, and
/// answers the disks.
fn ended<R: Threads + Wait + rt::Clock + Abort + Sync>(
    rt: &R,
    alloc: Global,
    call: (&str, &[u8]),
    disks: Vec<MemDisk>,
    want: u8,
    text: &str,
) -> Vec<MemDisk>
    requires { (0 < length disks.items) × (length disks.items ≤ 16) }
    ensures { length result.items ≡ length disks.items }
{
    let (words, script) = call;
    let words = words_of(rt, alloc, words, ONE_TREE);
    let mut source = MemSource::new(alloc, script, PIECE, &[]).expect(rt, "memory");
    let mut sink = MemSink::new(alloc, SINK_ROOM, PIECE, &[]).expect(rt, "memory");
    let clock = SteppedClock::new(START);
    let EndedMany { status, disks } = run_many(
        rt,
        alloc,
        &words,
        &mut source,
        disks,
        &mut sink,
        clock,
    );
    assert_eq!(rt;
        (status, sink.taken()),
        (want, text.as_bytes()),
        "for {text}"
    );
    disks
}

/// Runs a script as a row says.
pub(super) fn check_row<R: Threads + Wait + rt::Clock + Abort + Sync>(
    rt: &R,
    alloc: Global,
    script: &[u8],
    row: Row<'_>,
) {
    let (words, contents, fails, status, text, left) = row;
    let disks = disks_of(rt, alloc, contents, fails);
    let disks = ended(rt, alloc, (words, script), disks, status, text);
    assert_eq!(rt; [disks[0].content(), disks[1].content()], left);
}

#[test]
fn several_logs_and_faults_of_their_disks(rt: HostRuntime) {
    // All rows so far were as wanted.
    for row in ROWS {
        check_row(&rt, rt.alloc(), SCRIPT, row);
    }
}
