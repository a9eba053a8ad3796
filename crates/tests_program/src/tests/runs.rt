//! Scripts of one client, what is refused, devices that fail, and generated scripts.

use super::Fails::{Disk, Nothing, Sink, Source};
use super::{
    Fails, Given, ONE_TREE, OUTCOME, PATHS, PLAIN, RECORD, Row, SCRIPT, TWO_RECORDS, WritePath,
    check_rows, ended,
};
use model_base::TEXT_LIMIT;
use std::alloc::Global;
use std::process::Abort;
use std::rt;
use std::rt::HostRuntime;
use std::sync::Wait;
use std::thread::Threads;

/// `tests/real_file` tries more words.
const WORDS: [Row; 8] = [
    ("", SCRIPT, "usage\n"),
    ("walk", SCRIPT, "usage\n"),
    ("--help", SCRIPT, "usage\n"),
    ("--version", SCRIPT, "usage\n"),
    ("run --last -1", SCRIPT, "usage\n"),
    ("run --families 0", SCRIPT, "usage\n"),
    ("run --families 17", SCRIPT, "usage\n"),
    ("recover --families 1", SCRIPT, "usage\n"),
];

const FAULTY: [Row; 18] = [
    ("run", b"", "script 0 none\n"),
    ("run", b"put a 1\n", "script 1 client\n"),
    ("run", b"client 1\npot a 1\n", "script 2 word\n"),
    ("run", b"client 1\nschedule\n", "script 2 word\n"),
    ("run", b"client 1\nget\ta\n", "script 2 byte\n"),
    ("run", b"client 1\nput a\n", "script 2 form\n"),
    ("run", b"client 1\nmany\n", "script 2 form\n"),
    ("run", b"client 1\nscan a\n", "script 2 form\n"),
    ("run", b"client 1\nslow 01\n", "script 2 form\n"),
    ("run", b"client 1\nfput 1 a\n", "script 2 form\n"),
    ("run", b"client 1\nfdel 01 a\n", "script 2 form\n"),
    ("run", b"client 1\nfget 4294967296 a\n", "script 2 form\n"),
    ("run", b"client 1\nfmany 1 a 2\n", "script 2 form\n"),
    ("run", b"client 1\nfscan x a b\n", "script 2 form\n"),
    ("run", b"client 1\nunstop 1\n", "script 2 form\n"),
    ("run", b"client 1\ncommit noslow sync\n", "script 2 form\n"),
    ("run", b"client 1\n\n# x\nclient 3\n", "script 4 client\n"),
    (
        "run",
        b"client 1\nclient 2\nclient 3\nclient 4\nclient 5\nclient 6\nclient 7\nclient 8\nclient 9\n\
            client 10\nclient 11\nclient 12\nclient 13\nclient 14\nclient 15\nclient 16\nclient 17\n\
            client 18\nclient 19\nclient 20\nclient 21\nclient 22\nclient 23\nclient 24\nclient 25\n\
            client 26\nclient 27\nclient 28\nclient 29\nclient 30\nclient 31\nclient 32\nclient 33\n\
            client 34\nclient 35\nclient 36\nclient 37\nclient 38\nclient 39\nclient 40\nclient 41\n\
            client 42\nclient 43\nclient 44\nclient 45\nclient 46\nclient 47\nclient 48\nclient 49\n\
            client 50\nclient 51\nclient 52\nclient 53\nclient 54\nclient 55\nclient 56\nclient 57\n\
            client 58\nclient 59\nclient 60\nclient 61\nclient 62\nclient 63\nclient 64\nclient 65\n",
        "script 65 clients\n",
    ),
];

#[test]
fn words_and_scripts_are_refused(rt: HostRuntime) {
    let alloc = rt.alloc();
    check_rows(&rt, alloc, ONE_TREE, 1, &WORDS);
    for path in PATHS {
        check_rows(&rt, alloc, path, 2, &FAULTY);
    }
    let long = vec![in alloc; b'#'; TEXT_LIMIT + 1].expect(&rt, "memory");
    let given = Given {
        text: long.as_slice(),
        ..PLAIN
    };
    ended(&rt, alloc, given, 2, "script 0 long\n");
}

pub(super) const OUTCOMES: [Row; 19] = [
    ("run", b"# x\nclient 1\nput a 1\ncommit\nget a\n", OUTCOME),
    (
        "run",
        b"client 1\ncommit\n",
        "client 1\nno empty\nhistory 0\nstate 0 0\nlog 0\n",
    ),
    (
        "run",
        b"client 1\nput a 1\nput a 2\ndel a\ncommit\nget a\n",
        "client 1\nok 1 3\nnil 3\n\
            history 1\n1 3 1 1 log 01000000000000000300000001016101310101610132000161\nstate 3 0\nlog 32\n",
    ),
    (
        "run",
        b"client 1\nnote x\ncommit\nput a 1\ncommit\n",
        "client 1\nno empty\nok 1 1\n\
            history 1\n1 1 1 1 log 0100000000000000010000000301780101610131\nstate 1 1\na 1\nlog 27\n",
    ),
    (
        "run",
        b"client 1\nput a 1\ncommit\nput a 2\ncommit\nget a\n",
        "client 1\nok 1 1\nok 2 2\nval 2 2\n\
            history 2\n1 1 1 1 log 0100000000000000010000000101610131\n\
            2 2 1 2 log 0200000000000000010000000101610132\nstate 2 1\na 2\nlog 48\n",
    ),
    (
        "run",
        b"client 1\nput a 1\nput b 2\ncommit nolog\nsdel a\ncommit sync\nscan a z\nscan b b\nmany b a\n",
        "client 1\nok 1 2\nok 3 3\nscan 3 1 b 2\nscan 3 0\nmany 3 2 =2 -\n\
            history 2\n1 2 1 1 nolog 01000000000000000200000001016101310101620132\n\
            3 3 1 2 sync 030000000000000001000000070161\nstate 3 1\nb 2\nlog 22\n",
    ),
    (
        "run",
        b"client 1\nput a 1\ncommit sync nolog\n",
        "client 1\nno syncwithoutlog\nhistory 0\nstate 0 0\nlog 0\n",
    ),
    // A client that holds a stop token doesn't wait for itself.
    (
        "run",
        b"client 1\nstop\nput a 1\ncommit noslow\ncommit\nstop\nunstop\nunstop\ncommit\n",
        "client 1\ndone\nno incomplete 1 0 0\nno selfstop\nheld\ndone\nnotheld\nok 1 1\n\
            history 1\n1 1 1 1 log 0100000000000000010000000101610131\nstate 1 1\na 1\nlog 24\n",
    ),
    // At a byte a second, a millisecond's refill is one byte of the 17. The other 16 are owed, counted from a
    // millisecond later.
    (
        "run",
        b"client 1\nslow 1\nput a 1\ncommit noslow\nunslow\ncommit\n",
        "client 1\ndone\nno incomplete 0 1 16001000\ndone\nok 1 1\n\
            history 1\n1 1 1 1 log 0100000000000000010000000101610131\nstate 1 1\na 1\nlog 24\n",
    ),
    // Where the third client holds its stop token, the first one's commit waits. The token is given back when the
    // third client ends.
    (
        "run",
        b"client 1\nput a 1\ncommit sync\nget a\nclient 2\nunstop\ncommit\nput b 2\ncommit sync nolog\n\
            client 3\nstop\nput c 3\ncommit noslow\ncommit\nstop\n",
        "client 1\nok 1 1\nval 1 1\nclient 2\nnotheld\nno empty\nno syncwithoutlog\nclient 3\ndone\n\
            no incomplete 1 0 0\nno selfstop\nheld\n\
            history 1\n1 1 1 1 sync 0100000000000000010000000101610131\nstate 1 1\na 1\nlog 24\n",
    ),
    (
        "run --batch-bytes 20",
        b"client 1\nput a 1\nput b 2\ncommit\nclear\nput a 1\ncommit\n",
        "client 1\nno large 22\nok 1 1\n\
            history 1\n1 1 1 1 log 0100000000000000010000000101610131\nstate 1 1\na 1\nlog 24\n",
    ),
    (
        "run --last 72057594037927934",
        b"client 1\nput a 1\nput b 2\ncommit\nclear\nput a 1\ncommit\nput c 3\ncommit\n",
        "client 1\nno full 72057594037927934\nok 72057594037927935 72057594037927935\n\
            no full 72057594037927935\n\
            history 1\n72057594037927935 72057594037927935 1 1 log ffffffffffffff00010000000101610131\n\
            state 72057594037927935 1\na 1\nlog 24\n",
    ),
    // A leader is in its own group, however large its batch is.
    ("run --group-bytes 1", SCRIPT, OUTCOME),
    // The default family is that of the lines that name none.
    ("run", b"client 1\nfput 0 a 1\ncommit\nfget 0 a\n", OUTCOME),
    // One batch with keys of three families. Each family has keys of its own.
    (
        "run --families 3",
        b"client 1\nput a 1\nfput 2 a 2\nfput 1 b 3\ncommit\nfget 2 a\nget a\nfget 1 a\nfscan 2 a z\n\
            fmany 2 a 0 a 1 b\nmany a b\n",
        "client 1\nok 1 3\nval 3 2\nval 3 1\nnil 3\nscan 3 1 a 2\nmany 3 3 =2 =1 =3\nmany 3 2 =1 -\n\
            history 1\n1 3 1 1 log 0100000000000000030000000101610131050201610132050101620133\n\
            state 3 3\na 1\n1 b 3\n2 a 2\nlog 36\n",
    ),
    (
        "run --families 2",
        b"client 1\nput a 1\nfput 1 a 2\ncommit\nfget 1 a\nget a\nfscan 1 a b\nfput 2 a 3\ncommit\n",
        "client 1\nok 1 2\nval 2 2\nval 2 1\nscan 2 1 a 2\nno family 2\n\
            history 1\n1 2 1 1 log 0100000000000000020000000101610131050101610132\nstate 2 2\na 1\n1 a 2\nlog 30\n",
    ),
    (
        "run --families 2",
        b"client 1\nfput 1 a 2\nfdel 1 a\nfsdel 1 a\ncommit\nfget 1 a\n",
        "client 1\nok 1 3\nnil 3\n\
            history 1\n1 3 1 1 log 0100000000000000030000000501016101320401016108010161\nstate 3 0\nlog 33\n",
    ),
    // A deletion in a family leaves the same key of the default one.
    (
        "run --families 16",
        b"client 1\nput a 1\nfput 15 a 2\ncommit\nclear\nfdel 15 a\nfsdel 15 b\ncommit\nfget 15 a\nget a\n",
        "client 1\nok 1 2\nok 3 4\nnil 4\nval 4 1\n\
            history 2\n1 2 1 1 log 0100000000000000020000000101610131050f01610132\n\
            3 4 1 2 log 030000000000000002000000040f0161080f0162\nstate 4 1\na 1\nlog 57\n",
    ),
    // A commit and reads of a family that there isn't are refused. The batch is kept.
    (
        "run",
        b"client 1\nput a 1\nfput 1 a 2\ncommit\ncommit sync nolog\nfget 1 a\nfmany 0 a 7 b\nfscan 3 a z\n\
            clear\nput a 1\ncommit\nfget 0 a\n",
        "client 1\nno family 1\nno syncwithoutlog\nno family 1\nno family 7\nno family 3\nok 1 1\nval 1 1\n\
            history 1\n1 1 1 1 log 0100000000000000010000000101610131\nstate 1 1\na 1\nlog 24\n",
    ),
];

const SMALL_SUMMARY: &str = "clients 1\nbatches 2\nrecords 3\nlast 3\nkeys 2\nsum 1445\n";

/// Computed by another program, as the one below.
const MIDDLE_SUMMARY: &str =
    "clients 16\nbatches 1600\nrecords 3947\nlast 3947\nkeys 1090\nsum 528519\n";

const LARGE_SUMMARY: &str =
    "clients 16\nbatches 16000\nrecords 39946\nlast 39946\nkeys 1175\nsum 580970\n";

const MOST_SUMMARY: &str =
    "clients 64\nbatches 6400\nrecords 16008\nlast 16008\nkeys 4372\nsum 2166241\n";

/// The summaries are the same however the clients meet, whatever the table is made of, and in one stage or two.
const SUMMARIES: [Row; 12] = [
    ("gen 1 1 2", b"", SMALL_SUMMARY),
    ("gen 7 16 1000", b"", LARGE_SUMMARY),
    ("gen --table shards 7 16 1000", b"", LARGE_SUMMARY),
    ("gen --pipelined 7 16 100", b"", MIDDLE_SUMMARY),
    (
        "gen --table shards --shards 2 --pipelined 7 16 100",
        b"",
        MIDDLE_SUMMARY,
    ),
    (
        "gen --table shards --shards 1 7 16 100",
        b"",
        MIDDLE_SUMMARY,
    ),
    (
        "gen --shards 2 --table shards 7 16 100",
        b"",
        MIDDLE_SUMMARY,
    ),
    (
        "gen --table shards --shards 64 7 16 100",
        b"",
        MIDDLE_SUMMARY,
    ),
    ("gen 7 64 100", b"", MOST_SUMMARY),
    ("gen --pipelined 7 64 100", b"", MOST_SUMMARY),
    ("gen --table shards 7 64 100", b"", MOST_SUMMARY),
    ("gen --table shards --pipelined 7 64 100", b"", MOST_SUMMARY),
];

#[test]
fn prints_what_came_of_a_script(rt: HostRuntime) {
    let alloc = rt.alloc();
    for path in PATHS {
        check_rows(&rt, alloc, path, 0, &OUTCOMES);
    }
    check_rows(&rt, alloc, ONE_TREE, 0, &SUMMARIES);
}

const ONE_BATCH: &str = "clients 1\nbatches 1\nrecords 1\nlast 1\nkeys 1\nsum 914\n";

/// Words, what the disk holds, which call of a device fails, the status, and all that is printed then.
type Device = (&'static str, &'static [u8], Fails, u8, &'static str);

/// Neither `recover` nor `gen` looks at the source.
const DEVICES: [Device; 15] = [
    ("run", b"", Disk(1), 3, "disk fault 1\n"),
    ("run", b"", Source(1), 4, "source fault 1\n"),
    ("run", b"", Sink(1), 5, ""),
    ("run", b"x", Nothing, 7, "log not empty 1\n"),
    ("run --pipelined", b"", Disk(1), 3, "disk fault 1\n"),
    ("run --pipelined", b"", Source(1), 4, "source fault 1\n"),
    ("run --pipelined", b"", Sink(1), 5, ""),
    ("run --pipelined", b"x", Nothing, 7, "log not empty 1\n"),
    ("recover", RECORD, Disk(1), 3, "disk fault 1\n"),
    ("recover", RECORD, Sink(1), 5, ""),
    (
        "recover",
        b"x",
        Source(1),
        0,
        "groups 0\nstate 0 0\nend 0 shortheader\n",
    ),
    ("gen 1 1 2", RECORD, Nothing, 7, "log not empty 24\n"),
    ("gen 1 1 2", b"", Source(1), 0, SMALL_SUMMARY),
    ("gen 1 1 2", b"", Disk(3), 3, ONE_BATCH),
    ("gen --pipelined 1 1 2", b"", Disk(3), 3, ONE_BATCH),
];

#[test]
fn devices_fail_or_are_not_empty(rt: HostRuntime) {
    for (words, content, fails, status, want) in DEVICES {
        let given = Given {
            words,
            content,
            fails,
            ..PLAIN
        };
        ended(&rt, rt.alloc(), given, status, want);
    }
}

/// A text, which call of a device fails, the status and all that is printed then, and what the disk holds.
type Left = (&'static [u8], Fails, u8, &'static str, &'static [u8]);

const FAULTS: [Left; 4] = [
    (SCRIPT, Nothing, 0, OUTCOME, RECORD),
    (
        SCRIPT,
        Disk(2),
        3,
        "client 1\nno logfault 1\nnil 0\nhistory 0\nstate 0 0\nlog 0 fault 1\n",
        b"",
    ),
    (
        b"client 1\nput a 1\ncommit\nput b 2\ncommit\ncommit\nget b\nget a\n",
        Disk(3),
        3,
        "client 1\nok 1 1\nno logfault 1\nno logfault 1\nnil 1\nval 1 1\n\
            history 1\n1 1 1 1 log 0100000000000000010000000101610131\nstate 1 1\na 1\nlog 24 fault 1\n",
        RECORD,
    ),
    // Two records are written, but not synced.
    (
        b"client 1\nput a 1\ncommit\nput b 2\ncommit sync\nget b\n",
        Disk(4),
        3,
        "client 1\nok 1 1\nno logfault 1\nnil 1\n\
            history 1\n1 1 1 1 log 0100000000000000010000000101610131\nstate 1 1\na 1\nlog 24 fault 1\n",
        TWO_RECORDS,
    ),
];

/// Runs scripts over this write path, and compares what they leave on the disk too.
fn check_left<R: Threads + Wait + rt::Clock + Abort + Sync>(
    rt: &R,
    alloc: Global,
    path: WritePath,
    rows: &[Left],
) {
    for (text, fails, status, want, left) in rows {
        let given = Given {
            path,
            text: *text,
            fails: *fails,
            ..PLAIN
        };
        let disk = ended(rt, alloc, given, *status, want);
        assert_eq!(rt; disk.content(), *left, "for {want}");
    }
}

#[test]
fn writes_up_to_a_fault(rt: HostRuntime) {
    for path in PATHS {
        check_left(&rt, rt.alloc(), path, &FAULTS);
    }
}
