//! The checks of a commit one by one, the runs that follow a sequence, and an outcome in which a client had no memory.

use base_maps::FamilyMap;
use log_batch::{Batch, MAX_SEQUENCE, Measure, Run, flag_of, next_run, refusal_at_once};
use model_base::{Flag, Refusal, WriteOptions};
use run_batches::BatchList;
use run_outcome::{History, Outcome, Reply};
use std::test::Fail;

const PLAIN: WriteOptions = WriteOptions {
    sync: false,
    no_log: false,
    no_slowdown: false,
};

const UNLOGGED_SYNC: WriteOptions = WriteOptions {
    sync: true,
    no_log: true,
    no_slowdown: false,
};

#[test]
fn checks_come_in_their_order(rt: HostRuntime) -> Result<(), Fail> {
    let mut batch = Batch::new(rt.alloc())?;
    let empty = Measure::of(&batch, 1);
    batch.put_in(2, b"a", b"1")?;
    let one = Measure::of(&batch, 2);
    let refusals = [
        refusal_at_once(empty, UNLOGGED_SYNC, 12, true),
        refusal_at_once(one, UNLOGGED_SYNC, 17, true),
        refusal_at_once(one, UNLOGGED_SYNC, 18, true),
        refusal_at_once(one, PLAIN, 18, true),
        refusal_at_once(Measure::of(&batch, 3), PLAIN, 18, true),
        refusal_at_once(Measure::of(&batch, 3), PLAIN, 18, false),
    ];
    let want = [
        Some(Refusal::Empty),
        Some(Refusal::TooLarge { size: 18 }),
        Some(Refusal::SyncWithoutLog),
        Some(Refusal::NoFamily { family: 2 }),
        Some(Refusal::SelfStop),
        None,
    ];
    assert_eq!(rt; (refusals, flag_of(UNLOGGED_SYNC)), (want, Flag::NoLog));
    Ok(())
}

// The first record of a family that there isn't says which one is told.
#[test]
fn the_first_missing_family_is_told(rt: HostRuntime) -> Result<(), Fail> {
    let mut batch = Batch::new(rt.alloc())?;
    batch.put(b"a", b"1")?;
    batch.log_data(b"x")?;
    batch.delete_in(7, b"a")?;
    batch.single_delete_in(300, b"a")?;
    batch.put_in(4_294_967_295, b"a", b"1")?;
    let missing = [
        Measure::of(&batch, 1).missing,
        Measure::of(&batch, 8).missing,
        Measure::of(&batch, 4_294_967_295).missing,
    ];
    assert_eq!(rt; missing, [Some(7), Some(300), Some(4_294_967_295)]);
    Ok(())
}

#[test]
fn runs_follow_each_other(rt: HostRuntime) {
    let last = MAX_SEQUENCE - 1;
    let runs = [next_run(4, 2), next_run(last, 2)];
    let want = [
        Ok(Run { first: 5, last: 6 }),
        Err(Refusal::SequenceFull { last }),
    ];
    assert_eq!(rt; runs, want);
}

#[test]
fn an_outcome_tells_of_want_of_memory(rt: HostRuntime) -> Result<(), Fail> {
    let replies = vec![in rt.alloc(); Reply::Done, Reply::NoMemory]?;
    let outcome = Outcome {
        transcripts: vec![in rt.alloc(); replies]?,
        history: History::of_one(BatchList::new(rt.alloc())),
        last: 1,
        state: FamilyMap::new(rt.alloc()),
        full_lens: Vec::new(rt.alloc()),
        log_len: 24,
        fault: None,
    };
    assert_eq!(rt;
        (outcome.lacks_memory(), outcome.has_read_fault()),
        (true, false)
    );
    Ok(())
}

#[test]
fn an_outcome_tells_of_a_fault_of_a_read(rt: HostRuntime) -> Result<(), Fail> {
    let replies = vec![in rt.alloc(); Reply::ReadFault { count: 1 }, Reply::Done]?;
    let outcome = Outcome {
        transcripts: vec![in rt.alloc(); replies]?,
        history: History::of_one(BatchList::new(rt.alloc())),
        last: 1,
        state: FamilyMap::new(rt.alloc()),
        full_lens: Vec::new(rt.alloc()),
        log_len: 24,
        fault: None,
    };
    assert_eq!(rt;
        (outcome.lacks_memory(), outcome.has_read_fault()),
        (false, true)
    );
    Ok(())
}
