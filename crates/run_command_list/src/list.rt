//! The list of commands.

ghost use Rattle.std.specs.Prelude.{◌≡◌, ◌<◌, ◌^◌, ◌++◌, ◌∷◌, [], length, OnOk, OnErr};
ghost use Rattle.run_command_list.specs.Contents.{IsList, commits_in};
ghost use Rattle.run_command_list.specs.OneList.{IsList-prop};

use crate::command_view::commits_of;
use crate::layout::append_command;
use crate::{CommandView, Commands};
use base_bytes::Bytes;
use model_base::NoMemory;
use std::alloc::Global;
use std::marker::Model;

/// The commands of a client. Contracts see the list of them.
#[derive(Debug, Drop)]
pub struct CommandList {
    bytes: Bytes,
    len: usize,
    commits: usize,
    ghost holds: { IsList bytes len commits } by { IsList-prop bytes len commits },
}

impl Model for CommandList {
    ghost use Rattle.std.specs.Prelude.{List};
    ghost use Rattle.model_base.specs.Calls.{Command};

    ghost Value = { List Command };

    ghost view = { λ l. l.holds.are.commands };
}

impl CommandList {
    ghost use Rattle.run_command_list.specs.Views.{command_of, HasShortWords};

    /// No commands. This takes no memory.
    pub fn new(alloc: Global) -> CommandList
        ensures { result ≡ [] }
    {
        CommandList {
            bytes: Bytes::new(alloc),
            len: 0,
            commits: 0,
        }
    }

    /// Appends a command. Where memory fails, the list stays as it was.
    pub fn push(&mut self, command: CommandView<'_>) -> Result<(), NoMemory>
        requires { HasShortWords command }
        // Contracts see one list, and it is the only one whose bytes, by the layout at the head of `lib.rt`, are those
        // that are kept.
        ensures ok { OnOk result (self.new ≡ self.old ++ command_of command.entry ∷ []) }
        ensures err { OnErr result (self.new ≡ self.old) }
    {
        let end = self.bytes.len();
        if append_command(&mut self.bytes, &command).is_err() {
            self.bytes.truncate(end);
            return Err(NoMemory);
        }
        // Each command has at least one byte.
        prove!(self.len < self.bytes.len());
        self.len += 1;
        self.commits += commits_of(&command);
        Ok(())
    }

    /// How many commands there are.
    pub fn len(&self) -> usize
        ensures { result ≡ length self.now }
    {
        self.len
    }

    /// How many of them are commits.
    pub fn commit_count(&self) -> usize
        ensures { result ≡ commits_in self.now }
    {
        self.commits
    }

    /// The commands, from the first on.
    pub fn commands(&self) -> Commands<'_>
        ensures value { result ≡ self.now }
        ensures bound { length result < 2 ^ 64 }
    {
        Commands::of_body(self.bytes.as_slice())
    }
}
