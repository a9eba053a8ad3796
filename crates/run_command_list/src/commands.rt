//! The commands of a list, in order.

ghost use Rattle.std.specs.Prelude.{◌≡◌, ◌<◌, ◌^◌, length};
ghost use Rattle.std.specs.List.{AllByRecursion};
ghost use Rattle.run_command_list.specs.Layout.{body};
ghost use Rattle.run_command_list.specs.Contents.{Fits, AreCommands};
ghost use Rattle.run_command_list.specs.OneList.{AreCommands-prop};

use crate::CommandView;
use crate::reading::split_command;
use std::marker::Model;

/// The commands that bytes spell, from the first on. Contracts see the commands that are left.
///
/// Each command is read from the bytes as it is asked for, and none is copied.
#[derive(Debug, Drop)]
pub struct Commands<'a> {
    bytes: &'a [u8],
    ghost are: { AreCommands bytes.now } by { AreCommands-prop bytes.now },
}

impl<'a> Model for Commands<'a> {
    ghost use Rattle.std.specs.Prelude.{List};
    ghost use Rattle.model_base.specs.Calls.{Command};

    ghost Value = { List Command };

    ghost view = { λ c. c.are.commands };
}

impl<'a> Iterator for Commands<'a> {
    type Item = CommandView<'a>;

    ghost use Rattle.std.specs.Iterator.{YieldsFirstBy, item_count};
    ghost use Rattle.run_command_list.specs.Views.{command_of};

    ghost next_gives = { YieldsFirstBy command_of (λ left. left) };

    ghost remaining = { item_count (λ left. left) };

    /// The next command, with its words as parts of the list's bytes. There is none exactly where no command is left.
    fn next(&mut self) -> Option<CommandView<'a>> {
        let (command, rest) = split_command(self.bytes)?;
        self.bytes = rest;
        Some(command)
    }
}

impl<'a> Commands<'a> {
    /// The commands that these bytes spell.
    pub(crate) fn of_body(bytes: &'a [u8]) -> Commands<'a>
        requires { AreCommands bytes.now }
        ensures spelled { bytes.now ≡ body result }
        ensures fit { AllByRecursion Fits result }
        ensures bound { length result < 2 ^ 64 }
    {
        Commands { bytes }
    }
}
