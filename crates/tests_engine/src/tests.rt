//! The write path on one thread, and with threads that write and read at once.
//!
//! - `alone`: what one client's calls answer, and what its log has then
//! - `at_once`: runs and reads of clients that write at once
//! - `faults`: clients that write at once, while a call of the disk fails
//! - `following`: a client that asks again and again for what is new in the log
//! - `stops`: a client that stops writes, while another one writes

ghost use Rattle.std.specs.Prelude.{◌<◌, ◌≤◌};
ghost use Rattle.model_base.specs.History.{max_sequence};

mod alone;
mod at_once;
mod faults;
mod following;
mod playing;
mod stops;

use crate::script::{Step, StepAnswer};
use base_devices::MemDisk;
use model_base::{MAX_SIZE, Options, WriteOptions};
use playing::{Notes, closed, opened, play_at_once};
use std::alloc::Global;
use std::process::Abort;
use std::rt;
use std::sync::{Mutex, Wait};
use std::thread::Threads;

const PLAIN: WriteOptions = WriteOptions {
    sync: false,
    no_log: false,
    no_slowdown: false,
};

/// A write that doesn't wait where writes are held up.
const HASTY: WriteOptions = WriteOptions {
    no_slowdown: true,
    ..PLAIN
};

const PUT_A: Step = Step::Write {
    rows: &[(b"a", b"1")],
    options: PLAIN,
};

const PUT_B: Step = Step::Write {
    rows: &[(b"b", b"2")],
    options: PLAIN,
};

const HASTY_PUT: Step = Step::Write {
    rows: &[(b"a", b"1")],
    options: HASTY,
};

const READ_A: Step = Step::Read { key: b"a" };

const READ_B: Step = Step::Read { key: b"b" };

// What an engine leaves: the answers to each client's calls, the disk, the log's length and fault, and the last
// published sequence.
#[derive(Drop)]
struct Outcome {
    notes: Vec<Vec<StepAnswer>>,
    disk: MemDisk,
    len: u64,
    fault: Option<u64>,
    last: u64,
}

// Empty notes for `count` clients, each with its own.
fn empty_notes(rt: &impl Abort, alloc: Global, count: usize) -> Vec<Notes> {
    let mut shared = Vec::with_capacity(alloc, count).expect(rt, "memory");
    // The notes so far are empty.
    for _ in 0..count {
        shared
            .push(Mutex::new(Vec::new(alloc)))
            .expect(rt, "memory");
    }
    shared
}

// What each client has noted.
fn noted(rt: &impl Abort, alloc: Global, shared: Vec<Notes>) -> Vec<Vec<StepAnswer>> {
    let mut notes = Vec::with_capacity(alloc, shared.len()).expect(rt, "memory");
    // `notes` has what the clients so far have noted, in their order.
    for told in shared {
        notes.push(told.into_inner()).expect(rt, "memory");
    }
    notes
}

// Opens an engine with three families over a table of `shards` shards, in one stage or two, with a client for each
// script, lets all clients play at once, and closes it. The disk has much room, and its calls with the numbers in
// `fails` fail. The first batch is written after the sequence `start`.
fn ended<R: Threads + Wait + rt::Clock + Abort + Sync>(
    rt: &R,
    alloc: Global,
    fails: &[u64],
    start: u64,
    shards: u32,
    pipelined: bool,
    scripts: &[Vec<Step>],
) -> Outcome
    requires start { start ≤ max_sequence }
    requires shards { 0 < shards }
{
    let options = Options {
        last: start,
        group_bytes: 1048576,
        batch_bytes: MAX_SIZE,
        families: 3,
    };
    let count = scripts.len();
    assert!(rt; 0 < count && count <= 16);
    let shared = empty_notes(rt, alloc, count);
    let (engine, mut all) = opened(
        rt,
        alloc,
        65536,
        fails,
        count as u32,
        options,
        shards,
        pipelined,
    );
    play_at_once(
        rt,
        alloc,
        &engine,
        all.clients.as_mut_slice(),
        scripts,
        shared.as_slice(),
    );
    let (log, last) = closed(rt, engine, all);
    let len = log.len();
    let fault = log.fault();
    Outcome {
        notes: noted(rt, alloc, shared),
        disk: log.into_disk(),
        len,
        fault,
        last,
    }
}

// A script that repeats these steps `times` times.
fn script(rt: &impl Abort, alloc: Global, steps: &[Step], times: usize) -> Vec<Step> {
    let mut all = Vec::new(alloc);
    for _ in 0..times {
        all.extend_from_slice(steps).expect(rt, "memory");
    }
    all
}
