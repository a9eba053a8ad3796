//! A script, as it was read, or why none was read.

use model_base::ScriptFault;
use run_command_list::CommandList;

/// The commands of each client, in order of the clients' numbers.
#[derive(Debug, Drop)]
pub struct Script {
    pub clients: Vec<CommandList>,
}

/// Why a text is no script.
#[derive(Clone, Copy, Debug, PartialEq, Eq)]
pub enum ScriptError {
    /// The first fault, and the number of its line, from 1; 0 where the fault is the whole text's.
    Fault { line: u64, kind: ScriptFault },
    NoMemory,
}
