//! Clients that call an engine over a disk in memory. The contract of each step says when it is allowed.

ghost use Rattle.std.specs.Prelude.{◌≡◌, ◌+◌, ◌<◌, ◌≤◌, length};
ghost use Rattle.model_base.specs.History.{max_sequence};
ghost use Rattle.line_writers.specs.Seats.{clients_of};
ghost use Rattle.tests_engine.specs.Callers.{number_of, MayCall, IsCaller, AllMayCall, AreAll};

use crate::script::{Step, StepAnswer};
use base_bytes::{Found, Read};
use base_devices::{MemDisk, SteppedClock};
use base_maps::FamilyMap;
use engine_calls::{Clients, Closed, OpenGate, Receipt, SinceRefused};
use engine_groups::{ClosingRoom, EngineClient, GroupEngine};
use engine_memory::open_engine;
use engine_parts::OpenLog;
use log_batch::Batch;
use log_writer::LogWriter;
use model_base::{MAX_CLIENTS, MAX_SIZE, Options, ReadRefused, WriteOptions};
use std::alloc::Global;
use std::process::Abort;
use std::sync::{Mutex, Wait};
use std::thread::Threads;
use std::{rt, thread};
use table_memory::MemoryTable;

pub(super) type Log = LogWriter<MemDisk>;

pub(super) type Path = GroupEngine<Log, MemoryTable, SteppedClock, OpenGate>;

pub(super) type Member = EngineClient<Log, MemoryTable, SteppedClock>;

pub(super) type Members = Clients<Member, ClosingRoom<Log, MemoryTable, SteppedClock>>;

pub(super) type Notes = Mutex<Vec<StepAnswer>>;

// Opens an engine with an empty table of `shards` shards, in one stage or two, over an empty disk with room for `room`
// bytes. The disk's calls with the numbers in `fails` fail; the first call looks at the disk's length. The clock is at
// 1000.
pub(super) fn opened(
    rt: &impl Abort,
    alloc: Global,
    room: usize,
    fails: &[u64],
    clients: u32,
    options: Options,
    shards: u32,
    pipelined: bool,
) -> (Path, Members)
    requires options { (options.last ≤ max_sequence) × (options.batch_bytes ≤ MAX_SIZE) }
    requires clients { (0 < clients) × (clients ≤ MAX_CLIENTS) }
    requires shards { 0 < shards }
    ensures all { AreAll result.0 result.1 }
    ensures clients { clients_of result.0.list ≡ clients }
{
    let disk = MemDisk::new(alloc, room, b"", fails).expect(rt, "memory");
    let Ok(log) = LogWriter::open(alloc, disk) else {
        panic!(rt; "the log isn't opened")
    };
    match open_engine(
        alloc,
        OpenLog { log },
        SteppedClock::new(1000),
        clients,
        0,
        &FamilyMap::new(alloc),
        OpenGate,
        options,
        shards,
        pipelined,
    ) {
        Ok(opened) => opened,
        Err(_) => panic!(rt; "no memory"),
    }
}

// The batch that puts each of the values at the key before it, in a family.
fn batch_of(rt: &impl Abort, alloc: Global, family: u32, rows: &[(&[u8], &[u8])]) -> Batch {
    let mut batch = Batch::new(alloc).expect(rt, "memory");
    for (key, value) in rows {
        batch.put_in(family, key, value).expect(rt, "room");
    }
    batch
}

// The note of a batch that was written.
fn wrote(receipt: &Receipt) -> StepAnswer {
    StepAnswer::Wrote {
        run: receipt.run,
        group_last: receipt.group_last,
        sequence: receipt.batch.sequence(),
    }
}

// The note of a read.
fn saw(read: &Read) -> StepAnswer {
    let at = read.at;
    match &read.value {
        Found::Absent => StepAnswer::SawNone { at },
        Found::Value(value) => match value.as_slice() {
            [byte] => StepAnswer::Saw { at, byte: *byte },
            _ => StepAnswer::SawAnother { at },
        },
    }
}

// Where the write is refused, `back` gets its batch.
fn write<R: Wait + rt::Clock>(
    rt: &R,
    engine: &Path,
    client: &mut Member,
    batch: Batch,
    options: WriteOptions,
    back: &mut Option<Batch>,
) -> StepAnswer
    requires { MayCall engine.now client.old }
    ensures { MayCall engine.now client.new × (number_of client.new ≡ number_of client.old) }
{
    match engine.write(rt, client, batch, options) {
        Ok(receipt) => wrote(&receipt),
        Err(refused) => {
            *back = Some(refused.batch);
            StepAnswer::Refused(refused.why)
        }
    }
}

fn read<R: Wait + rt::Clock>(rt: &R, engine: &Path, client: &mut Member, key: &[u8]) -> StepAnswer
    requires { MayCall engine.now client.old }
    ensures { MayCall engine.now client.new × (number_of client.new ≡ number_of client.old) }
{
    match engine.get(rt, client, key) {
        Ok(read) => saw(&read),
        Err(_) => StepAnswer::NoMemory,
    }
}

fn read_in<R: Wait + rt::Clock>(
    rt: &R,
    engine: &Path,
    client: &mut Member,
    family: u32,
    key: &[u8],
) -> StepAnswer
    requires { MayCall engine.now client.old }
    ensures { MayCall engine.now client.new × (number_of client.new ≡ number_of client.old) }
{
    match engine.get_in(rt, client, family, key) {
        Ok(read) => saw(&read),
        Err(ReadRefused::NoMemory) => StepAnswer::NoMemory,
        Err(ReadRefused::NoFamily { family }) => StepAnswer::NoFamily { family },
    }
}

fn updates<R: Wait + rt::Clock>(
    rt: &R,
    engine: &Path,
    client: &mut Member,
    since: u64,
) -> StepAnswer
    requires { MayCall engine.now client.old }
    ensures { MayCall engine.now client.new × (number_of client.new ≡ number_of client.old) }
{
    match engine.updates(rt, client, since) {
        Ok(since) => StepAnswer::Gave {
            at: since.at,
            records: since.records.len(),
        },
        Err(SinceRefused::SelfStop) => StepAnswer::SelfStop,
        Err(SinceRefused::NoMemory) => StepAnswer::NoMemory,
        Err(SinceRefused::ReadFault { count }) => StepAnswer::NotRead { count },
    }
}

fn stop<R: Wait + rt::Clock>(rt: &R, engine: &Path, client: &mut Member) -> StepAnswer
    requires { MayCall engine.now client.old }
    ensures { MayCall engine.now client.new × (number_of client.new ≡ number_of client.old) }
{
    match engine.stop(rt, client) {
        Ok(()) => StepAnswer::Done,
        Err(_) => StepAnswer::Held,
    }
}

fn unstop<R: Wait + rt::Clock>(rt: &R, engine: &Path, client: &mut Member) -> StepAnswer
    requires { MayCall engine.now client.old }
    ensures { MayCall engine.now client.new × (number_of client.new ≡ number_of client.old) }
{
    match engine.unstop(rt, client) {
        Ok(()) => StepAnswer::Done,
        Err(_) => StepAnswer::NotHeld,
    }
}

fn slow<R: Wait + rt::Clock>(rt: &R, engine: &Path, client: &mut Member, rate: u64) -> StepAnswer
    requires { MayCall engine.now client.old }
    ensures { MayCall engine.now client.new × (number_of client.new ≡ number_of client.old) }
{
    match engine.slow(rt, client, rate) {
        Ok(()) => StepAnswer::Done,
        Err(_) => StepAnswer::Held,
    }
}

fn unslow<R: Wait + rt::Clock>(rt: &R, engine: &Path, client: &mut Member) -> StepAnswer
    requires { MayCall engine.now client.old }
    ensures { MayCall engine.now client.new × (number_of client.new ≡ number_of client.old) }
{
    match engine.unslow(rt, client) {
        Ok(()) => StepAnswer::Done,
        Err(_) => StepAnswer::NotHeld,
    }
}

fn step<R: Wait + rt::Clock + Abort>(
    rt: &R,
    alloc: Global,
    engine: &Path,
    client: &mut Member,
    step: Step,
    back: &mut Option<Batch>,
) -> StepAnswer
    requires { MayCall engine.now client.old }
    ensures { MayCall engine.now client.new × (number_of client.new ≡ number_of client.old) }
{
    match step {
        Step::Write { rows, options } => {
            let batch = batch_of(rt, alloc, 0, rows);
            write(rt, engine, client, batch, options, back)
        }
        Step::WriteIn {
            family,
            rows,
            options,
        } => {
            let batch = batch_of(rt, alloc, family, rows);
            write(rt, engine, client, batch, options, back)
        }
        Step::Again { options } => {
            let batch = back.take().expect(rt, "a refused batch");
            write(rt, engine, client, batch, options, back)
        }
        Step::Read { key } => read(rt, engine, client, key),
        Step::ReadIn { family, key } => read_in(rt, engine, client, family, key),
        Step::Updates { since } => updates(rt, engine, client, since),
        Step::Stop => stop(rt, engine, client),
        Step::Unstop => unstop(rt, engine, client),
        Step::Slow { rate } => slow(rt, engine, client, rate),
        Step::Unslow => unslow(rt, engine, client),
    }
}

// Makes the calls one after another, and notes their answers.
fn play<R: Wait + rt::Clock + Abort>(
    rt: &R,
    alloc: Global,
    engine: &Path,
    client: &mut Member,
    steps: &[Step],
    notes: &Notes,
)
    requires { MayCall engine.now client.old }
    ensures { MayCall engine.now client.new × (number_of client.new ≡ number_of client.old) }
{
    let mut back = None;
    for i in 0..steps.len() {
        let note = step(rt, alloc, engine, client, steps[i], &mut back);
        notes.lock(rt).push(note).expect(rt, "memory");
    }
}

// A client plays its own script, and notes the answers in its own notes.
fn play_own<R: Wait + rt::Clock + Abort>(
    rt: &R,
    alloc: Global,
    engine: &Path,
    client: &mut Member,
    scripts: &[Vec<Step>],
    notes: &[Notes],
    i: usize,
)
    requires { IsCaller engine.now (i + 1) client.old }
    ensures { IsCaller engine.now (i + 1) client.new }
{
    let (Some(steps), Some(notes)) = (scripts.get(i), notes.get(i)) else {
        panic!(rt; "no script")
    };
    play(rt, alloc, engine, client, steps.as_slice(), notes);
}

// All clients play at once, each on a thread of its own.
pub(super) fn play_at_once<R: Threads + Wait + rt::Clock + Abort + Sync>(
    rt: &R,
    alloc: Global,
    engine: &Path,
    clients: &mut [Member],
    scripts: &[Vec<Step>],
    notes: &[Notes],
)
    requires { AllMayCall engine.now clients.old × (0 < length clients.old) }
    ensures { AllMayCall engine.now clients.new × (length clients.new ≡ length clients.old) }
{
    let threads = clients.len();
    let each = |i: usize, client: &mut Member|
        requires { IsCaller engine.now (i + 1) client.now }
        ensures { IsCaller engine.entry.now (i + 1) client.exit.now }
    { play_own(rt, alloc, engine, client, scripts, notes, i) };
    thread::for_each_mut(rt, clients, threads, &each);
}

// Closes the engine. Answers the log and the last published sequence.
pub(super) fn closed<R: Wait + rt::Clock>(rt: &R, engine: Path, all: Members) -> (Log, u64)
    requires { AreAll engine all }
{
    let Closed {
        log: OpenLog { log },
        last,
    } = engine.close(rt, all);
    (log, last)
}
