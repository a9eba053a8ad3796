//! Texts that no call of the program gives.

use base_bytes::{Bytes, RecordList};
use base_devices::MemSink;
use base_maps::FamilyMap;
use model_base::{NoMemory, Refusal};
use program_printing::PrintError;
use program_text::{print_outcome, print_summary};
use run_batches::BatchList;
use run_outcome::{History, Outcome, Reply};
use std::alloc::Global;
use std::process::Abort;
use std::test::Fail;

/// The log's fault refuses a commit, one read finds nothing, one is of a family that there isn't, one of the log gives
/// a record, the next one meets another fault, and the last one finds no memory. The map has a key of the default
/// family and one of another.
fn one_fault(alloc: Global) -> Result<Outcome<FamilyMap>, NoMemory> {
    let mut state = FamilyMap::new(alloc);
    state.insert(12, b"a", b"1")?;
    state.insert(0, b"b", b"2")?;
    let mut records = RecordList::new(alloc);
    records.push(Bytes::copy(alloc, b"\x01\xab")?)?;
    let replies = vec![in alloc;
        Reply::Refused(Refusal::LogFault { count: 1 }),
        Reply::Nothing { at: 0 },
        Reply::Refused(Refusal::NoFamily { family: 7 }),
        Reply::Updates { at: 0, records },
        Reply::ReadFault { count: 2 },
        Reply::NoMemory,
    ]?;
    Ok(Outcome {
        transcripts: vec![in alloc; replies]?,
        history: History::of_one(BatchList::new(alloc)),
        last: 0,
        state,
        full_lens: Vec::new(alloc),
        log_len: 0,
        fault: Some(1),
    })
}

/// A sink that takes 7 bytes a write, and whose writes with these numbers fail.
fn sink(alloc: Global, fails: &[u64]) -> Result<MemSink, NoMemory> {
    MemSink::new(alloc, 1000, 7, fails)
}

const OUTCOME: &str =
    "client 1\nno logfault 1\nnil 0\nno family 7\nupdates 0 1 01ab\nno readfault 2\nno memory\nhistory 0\n\
state 0 2\nb 2\n12 a 1\nlog 0 fault 1\n";

const SUMMARY: &str = "clients 1\nbatches 0\nrecords 0\nlast 0\nkeys 2\nsum 18446744073709551616\n";

#[test]
fn prints_what_no_call_comes_to(rt: HostRuntime) -> Result<(), Fail> {
    let alloc = rt.alloc();
    let outcome = one_fault(alloc)?;
    let mut whole = sink(alloc, &[])?;
    assert!(rt; print_outcome(alloc, &mut whole, &outcome).is_ok());
    assert_eq!(rt; whole.taken(), OUTCOME.as_bytes());
    let mut summary = sink(alloc, &[])?;
    assert!(rt; print_summary(alloc, &mut summary, &outcome, 18_446_744_073_709_551_616).is_ok());
    assert_eq!(rt; summary.taken(), SUMMARY.as_bytes());
    Ok(())
}

#[test]
fn prints_a_prefix_where_the_sink_fails(rt: HostRuntime) -> Result<(), Fail> {
    let alloc = rt.alloc();
    let mut front = sink(alloc, &[3])?;
    let printed = print_outcome(alloc, &mut front, &one_fault(alloc)?);
    assert_eq!(rt; printed, Err(PrintError::Failed));
    assert_eq!(rt; front.taken(), "client 1\nno lo".as_bytes());
    Ok(())
}
