//! Clients' commands, and a core that is opened for them.

use log_batch::MAX_SEQUENCE;
use model_base::{MAX_SIZE, WriteOptions};
use replay_core::{ClientPlan, CoreOptions, State, are_small};
use run_command_list::{CommandList, CommandView};
use std::alloc::Global;
use std::process::Abort;
use std::test::Fail;

pub(crate) const PLAIN: WriteOptions = WriteOptions {
    sync: false,
    no_log: false,
    no_slowdown: false,
};

/// A client that puts 1 at each of these keys, commits that batch, and reads `a`.
fn commands_of(rt: &impl Abort, alloc: Global, keys: &[&[u8]]) -> Result<CommandList, Fail> {
    let mut commands = CommandList::new(alloc);
    // The batch has the keys so far.
    for key in keys {
        assert!(rt; key.len() <= 8);
        commands.push(CommandView::Put {
            family: None,
            key,
            value: b"1",
        })?;
    }
    commands.push(CommandView::Commit { options: PLAIN })?;
    commands.push(CommandView::Get {
        family: 0,
        key: b"a",
    })?;
    Ok(commands)
}

/// A client for each of these lists, which puts the list's keys.
pub(crate) fn clients_of(
    rt: &impl Abort,
    alloc: Global,
    batches: &[&[&[u8]]],
) -> Result<Vec<CommandList>, Fail> {
    let mut clients = Vec::new(alloc);
    // There is a client for each list so far.
    for keys in batches {
        clients.push(commands_of(rt, alloc, keys)?)?;
    }
    Ok(clients)
}

/// A core with three families, in a single stage, for clients with these commands.
pub(crate) fn opened<'a>(
    rt: &impl Abort,
    alloc: Global,
    last: u64,
    clients: &'a [CommandList],
) -> Result<State<'a>, Fail> {
    let mut plans = Vec::new(alloc);
    // There is a plan for each client so far.
    for commands in clients {
        plans.push(ClientPlan::of(alloc, commands)?)?;
    }
    let options = CoreOptions {
        pipelined: false,
        families: 3,
        group_bytes: 1048576,
        batch_bytes: MAX_SIZE,
        last,
    };
    assert!(rt; 1 <= plans.len() && plans.len() <= 16 && last <= MAX_SEQUENCE);
    assert!(rt; are_small(&plans));
    Ok(State::new(alloc, plans, options)?)
}
