//! What a client will do.

ghost use Rattle.std.specs.Prelude.{◌≡◌, ◌<◌, length, map, Some, IfOk, slice_get};
ghost use Rattle.run_command_list.specs.Views.{command_of};

use model_base::NoMemory;
use run_command_list::{CommandList, CommandView};
use std::alloc::Global;
use std::marker::Model;

/// A client's commands, in the order in which it runs them. Their words are parts of the list that the plan was made
/// from. Contracts see the list of commands. The core knows nothing of the write controller's tokens: a client that
/// reaches a command about one stays there.
#[derive(Drop)]
pub struct ClientPlan<'a> {
    lines: Vec<CommandView<'a>>,
}

impl<'a> Model for ClientPlan<'a> {
    ghost use Rattle.std.specs.Prelude.{List, map};
    ghost use Rattle.model_base.specs.Calls.{Command};
    ghost use Rattle.run_command_list.specs.Views.{command_of};

    ghost Value = { List Command };

    ghost view = { λ p. map command_of p.lines.items };
}

impl<'a> ClientPlan<'a> {
    /// The plan with the commands of a list.
    pub fn of(alloc: Global, commands: &'a CommandList) -> Result<ClientPlan<'a>, NoMemory>
        ensures { IfOk result (λ plan. plan ≡ commands.now) }
    {
        let mut lines = Vec::with_capacity(alloc, commands.len())?;
        // The plan has the commands so far, in order.
        for command in commands.commands() {
            lines.push(command)?;
        }
        Ok(ClientPlan { lines })
    }

    /// How many lines it has.
    pub fn len(&self) -> usize
        ensures { result ≡ length self.now }
    {
        self.lines.len()
    }

    /// Its lines, from the first on.
    pub fn lines(&self) -> &[CommandView<'a>]
        ensures { map command_of result.now ≡ self.now }
    {
        &self.lines
    }

    /// The line at a place, counted from 0.
    pub fn line(&self, place: usize) -> &CommandView<'a>
        requires { place < length self.now }
        ensures { slice_get self.now place ≡ Some (command_of result.now) }
    {
        &self.lines[place]
    }
}

/// The lines of a client's plan from the place `from` on and before the place `to`, counted from 0. What they add is a
/// batch.
#[derive(Clone, Copy, Debug, PartialEq, Eq)]
pub struct Lines {
    pub from: usize,
    pub to: usize,
}
