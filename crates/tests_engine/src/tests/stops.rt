//! A client that stops writes, while another one writes.

use super::{HASTY_PUT, PUT_B, ended, script};
use crate::script::{Step, StepAnswer};
use model_base::Refusal;
use std::alloc::Global;
use std::process::Abort;
use std::rt;
use std::rt::HostRuntime;
use std::sync::Wait;
use std::thread::Threads;

// Every second write may wait, and has a run. The others are refused where writes are held up. The runs have no gap.
// Answers the last sequence.
fn last_written(rt: &impl Abort, told: &[StepAnswer]) -> u64 {
    let mut last = 0u64;
    for (i, note) in told.iter().enumerate() {
        let is_lawful = match *note {
            StepAnswer::Wrote {
                run,
                group_last,
                sequence,
            } => {
                last = last.wrapping_add(1);
                (run.first, run.last, group_last, sequence) == (last, last, last, last)
            }
            StepAnswer::Refused(
                Refusal::Incomplete {
                    stops,
                    delays,
                    wait,
                },
            ) => i % 2 == 0 && (stops > 0 || (delays > 0 && wait > 0)),
            _ => false,
        };
        assert!(rt; is_lawful, "{i}");
    }
    last
}

// One client stops and unstops writes, and never writes in between. Another client writes.
fn stop_and_write<R: Threads + Wait + rt::Clock + Abort + Sync>(
    rt: &R,
    alloc: Global,
    pipelined: bool,
) {
    let stops = script(rt, alloc, &[Step::Stop, Step::Unstop], 20);
    let writes = script(rt, alloc, &[HASTY_PUT, PUT_B], 20);
    let ended = ended(rt, alloc, &[], 0, 1, pipelined, &[stops, writes]);
    let stopping = ended.notes.first().expect(rt, "notes");
    assert_eq!(rt; stopping.as_slice(), [StepAnswer::Done; 40].as_slice());
    let told = ended.notes.get(1).expect(rt, "notes");
    let last = last_written(rt, told);
    assert_eq!(rt; (told.len(), ended.last, ended.fault), (40, last, None));
}

#[test]
fn one_stops_and_another_writes(rt: HostRuntime) {
    let alloc = rt.alloc();
    stop_and_write(&rt, alloc, false);
    stop_and_write(&rt, alloc, true);
}
