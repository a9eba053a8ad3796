//! The batches of a client.

ghost use Rattle.std.specs.Prelude.{◌≡◌, ◌≤◌, ◌++◌, IfOk, OnOk};
ghost use Rattle.model_base.specs.Generator.{first_state, records_drawn, batch_drawn, batches_drawn};

use crate::records::add_record;
use base_draws::Draws;
use model_base::{MAX_CLIENTS, NoMemory, WriteOptions};
use run_command_list::{CommandList, CommandView};
use std::alloc::Global;

/// A batch has one record to this many.
const MOST_RECORDS: u64 = 4;

/// The options of each commit.
const PLAIN: WriteOptions = WriteOptions {
    sync: false,
    no_log: false,
    no_slowdown: false,
};

/// Appends `count` records of a client to its commands.
fn add_records(
    alloc: Global,
    client: u32,
    count: u64,
    draws: &mut Draws,
    commands: &mut CommandList,
) -> Result<(), NoMemory>
    requires { client ≤ MAX_CLIENTS }
    ensures records { OnOk result (commands.new ≡ commands.old ++ (records_drawn count client draws.old.state).made) }
    ensures state { OnOk result (draws.new.state ≡ (records_drawn count client draws.old.state).state) }
{
    let mut left = count;
    // The records so far and those that are left are all that the draws make.
    while left > 0 {
        add_record(alloc, client, draws, commands)?;
        left -= 1;
    }
    Ok(())
}

/// Appends a client's next batch to its commands: its records, and the commit that writes them.
fn add_batch(
    alloc: Global,
    client: u32,
    draws: &mut Draws,
    commands: &mut CommandList,
) -> Result<(), NoMemory>
    requires { client ≤ MAX_CLIENTS }
    ensures batch { OnOk result (commands.new ≡ commands.old ++ (batch_drawn client draws.old.state).made) }
    ensures state { OnOk result (draws.new.state ≡ (batch_drawn client draws.old.state).state) }
{
    let count = 1 + draws.next() % MOST_RECORDS;
    add_records(alloc, client, count, draws, commands)?;
    commands.push(CommandView::Commit { options: PLAIN })
}

/// The commands of a client with this many batches.
pub fn batches_of(
    alloc: Global,
    seed: u64,
    client: u32,
    batches: u64,
) -> Result<CommandList, NoMemory>
    requires { client ≤ MAX_CLIENTS }
    ensures { IfOk result (λ commands. commands ≡ batches_drawn batches client (first_state seed client)) }
{
    let mut draws = Draws::of_client(seed, client);
    let mut commands = CommandList::new(alloc);
    let mut left = batches;
    // The batches so far and those that are left are all that the draws make.
    while left > 0 {
        add_batch(alloc, client, &mut draws, &mut commands)?;
        left -= 1;
    }
    Ok(commands)
}
