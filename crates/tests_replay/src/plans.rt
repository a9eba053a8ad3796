//! How a plan gets to its next call.

use crate::opening::PLAIN;
use log_batch::Measure;
use model_base::{NoMemory, WriteOptions};
use replay_plans::{
    ClientPlan, Lines, are_small, commit_at, is_read, look_ahead, measure_batch, updates_at,
};
use run_command_list::{CommandKind, CommandList, CommandView};
use std::alloc::Global;
use std::test::Fail;

const SYNCED: WriteOptions = WriteOptions {
    sync: true,
    ..PLAIN
};

/// A client puts `a` of the family 2, adds log data, commits, and stops writes.
fn commands_of(alloc: Global) -> Result<CommandList, NoMemory> {
    let mut commands = CommandList::new(alloc);
    commands.push(CommandView::Put {
        family: Some(2),
        key: b"a",
        value: b"1",
    })?;
    commands.push(CommandView::Note { text: b"n" })?;
    commands.push(CommandView::Commit { options: SYNCED })?;
    commands.push(CommandView::Stop)?;
    Ok(commands)
}

#[test]
fn finds_the_next_call(rt: HostRuntime) -> Result<(), Fail> {
    let commands = commands_of(rt.alloc())?;
    let plan = ClientPlan::of(rt.alloc(), &commands)?;
    let ahead = look_ahead(&plan, 0, 0);
    let batch = measure_batch(&plan, Lines { from: 0, to: 2 }, 3);
    let missing = measure_batch(&plan, Lines { from: 0, to: 2 }, 2).missing;
    let measure = Measure {
        size: 21,
        count: 1,
        missing: None,
    };
    assert_eq!(rt;
        (ahead.from, ahead.call, ahead.next, batch, missing),
        (0, 2, 3, measure, Some(2))
    );
    assert_eq!(rt; (plan.len(), plan.lines().len()), (4, 4));
    assert_eq!(rt; plan.line(3).kind(), CommandKind::Token);
    let called = (commit_at(&plan, 2), is_read(&plan, 3));
    let plans = vec![in rt.alloc(); plan]?;
    assert_eq!(rt; (called, are_small(&plans)), ((Some(SYNCED), false), true));
    Ok(())
}

#[test]
fn a_read_of_the_log_is_no_read_of_the_map(rt: HostRuntime) -> Result<(), Fail> {
    let mut commands = CommandList::new(rt.alloc());
    commands.push(CommandView::Updates { since: 3 })?;
    let plan = ClientPlan::of(rt.alloc(), &commands)?;
    let called = (commit_at(&plan, 0), updates_at(&plan, 0), is_read(&plan, 0));
    assert_eq!(rt; called, (None, Some(3), false));
    assert_eq!(rt; plan.line(0).kind(), CommandKind::Read);
    Ok(())
}
