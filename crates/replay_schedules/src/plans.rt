//! What the clients of a script will do on the core.

ghost use Rattle.std.specs.Prelude.{◌≡◌, IfOk};
ghost use Rattle.run_scripts.specs.Scripts.{commands_of};

use model_base::NoMemory;
use replay_plans::ClientPlan;
use run_scripts::Script;
use std::alloc::Global;

/// The plan of each client of a script. The words of its commands are parts of the script's lists.
pub fn plans_of(alloc: Global, script: &Script) -> Result<Vec<ClientPlan<'_>>, NoMemory>
    ensures { IfOk result (λ plans. plans.items ≡ commands_of script.now) }
{
    let mut plans = Vec::with_capacity(alloc, script.clients.len())?;
    // There is a plan for each client so far.
    for commands in &script.clients {
        plans.push(ClientPlan::of(alloc, commands)?)?;
    }
    Ok(plans)
}
