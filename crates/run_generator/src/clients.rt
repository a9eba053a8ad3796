//! The script of all clients.

ghost use Rattle.std.specs.Prelude.{◌≡◌, ◌≤◌, IfOk};
ghost use Rattle.model_base.specs.Generator.{script_of_seed};
ghost use Rattle.run_scripts.specs.Scripts.{commands_of, FitsBatches, HasScriptCommands};
ghost use Rattle.run_generator.specs.Values.{HasSmallValues};

use crate::batches::batches_of;
use model_base::{MAX_CLIENTS, NoMemory};
use run_scripts::Script;
use std::alloc::Global;

/// The script that a seed makes: for each client its batches, each written by a plain commit. A client's batches don't
/// depend on the others, and each client has keys of its own.
pub fn generate(alloc: Global, seed: u64, clients: u32, batches: u64) -> Result<Script, NoMemory>
    requires clients { (1 ≤ clients) × (clients ≤ MAX_CLIENTS) }
    requires batches { (1 ≤ batches) × (batches ≤ 100000) }
    // What a client does depends on the seed, its number and how many batches it has. Want of memory is the only error.
    ensures ok { IfOk result (λ s. commands_of s ≡ script_of_seed seed clients batches) }

    // All that a client adds fits into one batch, whatever the outcome of its commits.
    ensures fits { IfOk result FitsBatches }

    // Each command is of a form that a script may say, and its words are short.
    ensures commands { IfOk result HasScriptCommands }

    // Each value is a number below 1000.
    ensures values { IfOk result (λ s. HasSmallValues (commands_of s)) }
{
    let mut script = Script {
        clients: Vec::new(alloc),
    };
    // The script so far is that of the clients so far.
    for before in 0..clients {
        let commands = batches_of(alloc, seed, before + 1, batches)?;
        script.clients.push(commands)?;
    }
    Ok(script)
}
