//! The records that draws make.

ghost use Rattle.std.specs.Prelude.{◌≡◌, ◌≤◌, ◌++◌, ◌∷◌, [], decimal, IfOk, OnOk};
ghost use Rattle.model_base.specs.Calls.{add};
ghost use Rattle.model_base.specs.Generator.{key_of, record_drawn};

use base_bytes::Bytes;
use base_draws::Draws;
use itoa::Buffer;
use model_base::{MAX_CLIENTS, NoMemory};
use run_command_list::{CommandList, CommandView};
use std::alloc::Global;

/// How many keys a client has.
const KEYS: u64 = 100;

/// One record in this many is a deletion.
const KINDS: u64 = 4;

/// How many values there are.
const VALUES: u64 = 1000;

/// The key of a client with this number, as `c1k7`.
fn key(alloc: Global, client: u32, number: u64) -> Result<Bytes, NoMemory>
    ensures { IfOk result (λ key. key ≡ key_of client number) }
{
    let mut buffer = Buffer::new();
    let mut key = Bytes::copy(alloc, b"c")?;
    key.append(buffer.format(client).as_bytes())?;
    key.append(b"k")?;
    key.append(buffer.format(number).as_bytes())?;
    Ok(key)
}

/// Appends the command that adds a client's next record to the client's commands.
pub fn add_record(
    alloc: Global,
    client: u32,
    draws: &mut Draws,
    commands: &mut CommandList,
) -> Result<(), NoMemory>
    requires { client ≤ MAX_CLIENTS }
    ensures record { OnOk result (commands.new ≡ commands.old ++ add (record_drawn client draws.old.state).made ∷ []) }
    ensures state { OnOk result (draws.new.state ≡ (record_drawn client draws.old.state).state) }
{
    let number = draws.next() % KEYS;
    let key = key(alloc, client, number)?;
    let key = key.as_slice();
    if draws.next() % KINDS == 0 {
        return commands.push(CommandView::Delete { family: None, key });
    }
    let mut buffer = Buffer::new();
    let value = buffer.format(draws.next() % VALUES).as_bytes();
    commands.push(CommandView::Put {
        family: None,
        key,
        value,
    })
}
