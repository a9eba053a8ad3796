//! A client's write, and what is shown of it.

use crate::opening::{clients_of, opened};
use base_bytes::Found;
use log_batch::Run;
use model_base::Flag;
use model_core::Event;
use model_core::Event::*;
use replay_core::{State, replay};
use replay_plans::Lines;
use replay_schedules::{MapUpTo, batch_lines, map, map_at};
use run_command_list::CommandList;
use run_outcome::HistoryEntry;
use std::alloc::Global;
use std::process::Abort;
use std::test::Fail;

const ENTRY: HistoryEntry<Lines> = HistoryEntry {
    client: 1,
    ordinal: 1,
    run: Run { first: 1, last: 1 },
    flag: Flag::Log,
    batch: Lines { from: 0, to: 1 },
};

/// The events of a client's write that puts `a`.
const EVENTS: [Event; 8] = [
    Link(1),
    Elect(1),
    Build(1),
    Log(1),
    Launch(1),
    Insert(1),
    Finish(1),
    Publish(1),
];

const KEYS: [&[&[u8]]; 1] = [&[b"a"]];

fn written<'a>(
    rt: &impl Abort,
    alloc: Global,
    clients: &'a [CommandList],
) -> Result<State<'a>, Fail> {
    let mut state = opened(rt, alloc, 0, clients)?;
    replay(&mut state, &EVENTS);
    Ok(state)
}

fn value_in(found: &Found) -> Option<&[u8]> {
    match found {
        Found::Value(value) => Some(value.as_slice()),
        Found::Absent => None,
    }
}

/// The sequences of two reads, the later one first, and what each finds.
const READS: [(u64, Option<&[u8]>); 2] = [(1, Some(b"1")), (0, None)];

#[test]
fn a_write_is_read_from_its_sequence_on(rt: HostRuntime) -> Result<(), Fail> {
    let clients = clients_of(&rt, rt.alloc(), &KEYS)?;
    let state = written(&rt, rt.alloc(), &clients)?;
    let mut read = MapUpTo::new(rt.alloc());
    // The reads so far found what they should.
    for (at, want) in READS {
        let found = read.value(&state, 0, b"a", at)?;
        assert_eq!(rt; value_in(&found), want, "at {at}");
        let other = read.value(&state, 1, b"a", at)?;
        assert_eq!(rt; value_in(&other), None, "of another family, at {at}");
    }
    Ok(())
}

#[test]
fn a_write_is_an_entry_and_in_the_map(rt: HostRuntime) -> Result<(), Fail> {
    let clients = clients_of(&rt, rt.alloc(), &KEYS)?;
    let state = written(&rt, rt.alloc(), &clients)?;
    let maps = (map(&state, rt.alloc())?, map_at(&state, rt.alloc(), 0)?);
    let sizes = (
        maps.0.len(),
        maps.1.len(),
        batch_lines(&state, &ENTRY).map(|lines| lines.len()),
    );
    assert_eq!(rt;
        (state.entries(), sizes),
        ([ENTRY].as_slice(), (1, 0, Some(1)))
    );
    Ok(())
}
