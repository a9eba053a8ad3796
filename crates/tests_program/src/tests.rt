//! The call as a whole, over devices in memory.
//!
//! - `runs`: scripts of one client, what is refused, devices that fail, and generated scripts
//! - `clients`: scripts of several clients
//! - `failing`: each call of a device fails in turn, and what crashes leave
//! - `modes`: ends of logs that a mode of recovery accepts, and others that it refuses
//! - `numbers`: logs with a number, alone and over older ones
//! - `overlap`: what clients do while another's append, or its group, is under way
//! - `stalled`: what clients do while a leader waits
//! - `recovery`: what logs recover
//! - `resumed`: logs that are resumed
//! - `several`: several logs, and faults of their disks
//! - `replay`: schedules of events
//! - `since`: what the log has from a sequence on

mod clients;
mod failing;
mod modes;
mod numbers;
mod overlap;
mod recovery;
mod replay;
mod resumed;
mod runs;
mod several;
mod since;
mod stalled;

use base_devices::{MemDisk, MemSink, MemSource, SteppedClock};
use program_call::{Ended, run};
use std::alloc::Global;
use std::process::Abort;
use std::rt;
use std::sync::Wait;
use std::thread::Threads;

const SCRIPT: &[u8] = b"client 1\nput a 1\ncommit\nget a\n";

const OUTCOME: &str =
    "client 1\nok 1 1\nval 1 1\nhistory 1\n1 1 1 1 log 0100000000000000010000000101610131\nstate 1 1\na 1\nlog 24\n";

/// A run of it calls the disk for its length, or for a rewind, and then for two appends, a sync, and an append.
const THREE_COMMITS: &[u8] =
    b"client 1\nput a 1\ncommit\nclear\nput b 2\ncommit sync\nclear\nput c 3\ncommit\n";

/// The log's bytes: the record's masked CRC-32C, length and type, as the RocksDB wiki's "Write Ahead Log File Format"
/// lays them out, and the batch. The checksums here and below were computed by another program.
const RECORD: &[u8] =
    b"\xe9\x9f\x78\x19\x11\x00\x01\x01\x00\x00\x00\x00\x00\x00\x00\x01\x00\x00\x00\x01\x01a\x011";

/// That record, and after it the record of a batch that puts b with sequence 2.
const TWO_RECORDS: &[u8] =
    b"\xe9\x9f\x78\x19\x11\x00\x01\x01\x00\x00\x00\x00\x00\x00\x00\x01\x00\x00\x00\x01\x01a\x011\x8f\x72\xbc\x7a\x11\x00\x01\x02\x00\x00\x00\x00\x00\x00\x00\x01\x00\x00\x00\x01\x01b\x012";

/// How many bytes the source gives and the sink takes in a call, where a test asks for no other number. Most lines are
/// longer.
const PIECE: usize = 7;

/// How many bytes the sink takes in all.
const SINK_ROOM: usize = 1024;

/// How many bytes the disk takes. The log of the greatest script below has fewer.
const DISK_ROOM: usize = 1_048_576;

/// The moment of the clock.
const START: u64 = 1000;

/// Which call of a device fails, counted from 1. A disk's calls of all kinds are counted together. The first call of a
/// disk asks for its length, or rewinds it.
#[derive(Clone, Copy)]
enum Fails {
    Nothing,
    Source(u64),
    Sink(u64),
    Disk(u64),
}

/// The write path that a call runs its script over.
#[derive(Clone, Copy)]
struct WritePath {
    /// The options that ask for it, with a space before each word.
    options: &'static str,
    /// How many locks its table has.
    locks: u64,
}

/// The write path where no other one is asked for: one tree, and a single stage.
const ONE_TREE: WritePath = WritePath {
    options: "",
    locks: 1,
};

const SHARDS: WritePath = WritePath {
    options: " --table shards",
    locks: 16,
};

const PIPELINED: WritePath = WritePath {
    options: " --pipelined",
    locks: 1,
};

const PIPELINED_SHARDS: WritePath = WritePath {
    options: " --pipelined --table shards",
    locks: 16,
};

/// The write paths in which the log is handed on before a group goes into the table.
const IN_TWO_STAGES: [WritePath; 2] = [PIPELINED, PIPELINED_SHARDS];

const PATHS: [WritePath; 4] = [ONE_TREE, SHARDS, PIPELINED, PIPELINED_SHARDS];

/// What a call is given.
#[derive(Clone, Copy)]
struct Given<'a> {
    /// The words after the program's name, with a space between them, without those of the write path.
    words: &'a str,
    path: WritePath,
    text: &'a [u8],
    /// What the disk holds.
    content: &'a [u8],
    fails: Fails,
    /// How many bytes the source gives and the sink takes in a call.
    piece: usize,
}

const PLAIN: Given<'static> = Given {
    words: "run",
    path: ONE_TREE,
    text: SCRIPT,
    content: b"",
    fails: Fails::Nothing,
    piece: PIECE,
};

/// A call's status, its sink and its disk, when it has ended.
#[derive(Drop)]
struct Came {
    status: u8,
    sink: MemSink,
    disk: MemDisk,
}

/// The program's name, the words, and the write path's options, one by one. `words` has a space between each two.
fn words_of(rt: &impl Abort, alloc: Global, words: &str, path: WritePath) -> Vec<String> {
    let options = path.options;
    let line = format!(in alloc; "writepath {words}{options}").expect(rt, "memory");
    let mut all = Vec::new(alloc);
    for word in line.split(' ') {
        let word = word.to_string(alloc).expect(rt, "memory");
        all.push(word).expect(rt, "memory");
    }
    all
}

/// The words and the devices of a call.
#[derive(Drop)]
struct Devices {
    words: Vec<String>,
    source: MemSource,
    sink: MemSink,
    disk: MemDisk,
}

fn devices_of(rt: &impl Abort, alloc: Global, given: Given) -> Devices {
    assert!(rt; given.content.len() <= DISK_ROOM && given.piece > 0);
    let (of_source, of_sink, of_disk) = match given.fails {
        Fails::Nothing => (0, 0, 0),
        Fails::Source(call) => (call, 0, 0),
        Fails::Sink(call) => (0, call, 0),
        Fails::Disk(call) => (0, 0, call),
    };
    Devices {
        words: words_of(rt, alloc, given.words, given.path),
        source: MemSource::new(alloc, given.text, given.piece, &[of_source]).expect(rt, "memory"),
        sink: MemSink::new(alloc, SINK_ROOM, given.piece, &[of_sink]).expect(rt, "memory"),
        disk: MemDisk::new(alloc, DISK_ROOM, given.content, &[of_disk]).expect(rt, "memory"),
    }
}

/// Makes a call.
fn came_of<R: Threads + Wait + rt::Clock + Abort + Sync>(
    rt: &R,
    alloc: Global,
    given: Given,
) -> Came {
    let Devices {
        words,
        mut source,
        mut sink,
        disk,
    } = devices_of(rt, alloc, given);
    let clock = SteppedClock::new(START);
    let Ended { status, disk } = run(rt, alloc, &words, &mut source, disk, &mut sink, clock);
    Came { status, sink, disk }
}

/// Makes a call, compares its status and all that it printed, and answers its disk.
fn ended<R: Threads + Wait + rt::Clock + Abort + Sync>(
    rt: &R,
    alloc: Global,
    given: Given,
    want: u8,
    text: &str,
) -> MemDisk {
    let Came { status, sink, disk } = came_of(rt, alloc, given);
    assert_eq!(rt;
        (status, sink.taken()),
        (want, text.as_bytes()),
        "for {text}"
    );
    disk
}

/// The words and the text of a call, and all that it prints.
type Row = (&'static str, &'static [u8], &'static str);

/// Makes calls over this write path that end with this status.
fn check_rows<R: Threads + Wait + rt::Clock + Abort + Sync>(
    rt: &R,
    alloc: Global,
    path: WritePath,
    status: u8,
    rows: &[Row],
) {
    for (words, text, want) in rows {
        let given = Given {
            words: *words,
            path,
            text: *text,
            ..PLAIN
        };
        ended(rt, alloc, given, status, want);
    }
}

/// Whether a line is as wanted, where a `*` fits anything.
fn is_line(line: &str, wanted: &str) -> bool {
    match wanted.split_once('*') {
        None => line == wanted,
        Some((head, tail)) => match line.strip_prefix(head) {
            Some(rest) => rest.ends_with(tail),
            None => false,
        },
    }
}

/// Whether a text is as wanted, line by line.
fn is_text(text: &str, wanted: &str) -> bool {
    let mut is_as_wanted = text.lines().count() == wanted.lines().count();
    for (line, wanted) in text.lines().zip(wanted.lines()) {
        is_as_wanted = is_as_wanted && is_line(line, wanted);
    }
    is_as_wanted
}

/// Whether a text is as wanted, line by line, except for the log's length.
fn is_but_for_length(text: &str, wanted: &str) -> bool {
    let mut is_as_wanted = text.lines().count() == wanted.lines().count();
    // `is_as_wanted` says whether the lines so far are the wanted ones.
    for (line, wanted) in text.lines().zip(wanted.lines()) {
        let are_lengths = line.starts_with("log ") && wanted.starts_with("log ");
        is_as_wanted = is_as_wanted && (line == wanted || are_lengths);
    }
    is_as_wanted
}

/// What was printed is one of these texts, in which a `*` fits what depends on the order in which clients came.
fn check_texts(rt: &impl Abort, sink: &MemSink, wanted: &[&str]) {
    let Ok(text) = str::from_utf8(sink.taken()) else {
        panic!(rt; "no text")
    };
    for wanted in wanted {
        if is_text(text, wanted) {
            return;
        }
    }
    panic!(rt; "another outcome: {text}")
}
