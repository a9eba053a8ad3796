//! A command whose words are parts of other bytes.

ghost use Rattle.std.specs.Prelude.{◌≡◌, [], ◌∷◌};
ghost use Rattle.run_command_list.specs.Contents.{commits_in};
ghost use Rattle.run_command_list.specs.Views.{command_of};

use crate::{CommandKind, Keys};
use log_batch::RecordView;
use model_base::WriteOptions;

/// A command of a client, whose words are borrowed. Contracts see it by `command_of`.
///
/// A record that is added names its key's family, or it names none and is about the default one, whose number is 0.
#[derive(Drop)]
pub enum CommandView<'a> {
    /// Adds a value to the client's batch.
    Put {
        family: Option<u32>,
        key: &'a [u8],
        value: &'a [u8],
    },
    /// Adds the deletion of a key.
    Delete {
        family: Option<u32>,
        key: &'a [u8],
    },
    /// Adds the deletion of a key that was put once.
    SingleDelete {
        family: Option<u32>,
        key: &'a [u8],
    },
    /// Adds a note for the log alone.
    Note {
        text: &'a [u8],
    },
    /// Empties the batch.
    Clear,
    /// Writes the batch.
    Commit {
        options: WriteOptions,
    },
    /// Reads a key of a family.
    Get {
        family: u32,
        key: &'a [u8],
    },
    /// Reads several keys in families at one sequence.
    Many {
        keys: Keys<'a>,
    },
    /// Reads the keys of a family from `lo` on and below `hi`.
    Scan {
        family: u32,
        lo: &'a [u8],
        hi: &'a [u8],
    },
    /// Reads the log's records from a sequence on.
    Updates {
        since: u64,
    },
    /// Takes the write controller's stop token for the client, which holds writes back.
    Stop,
    /// Gives the stop token back.
    Unstop,
    /// Takes the write controller's delay token for the client, which slows writes down to `rate` bytes a second.
    Slow {
        rate: u64,
    },
    /// Gives the delay token back.
    Unslow,
}

impl<'a> CommandView<'a> {
    ghost use Rattle.std.specs.Prelude.{option_map};
    ghost use Rattle.log_batch.specs.View.{record_of};
    ghost use Rattle.run_command_list.specs.Kinds.{kind_of, record_added};

    /// What the command is for.
    pub fn kind(&self) -> CommandKind
        ensures { result ≡ kind_of (command_of self.now) }
    {
        match self {
            CommandView::Put { .. }
            | CommandView::Delete { .. }
            | CommandView::SingleDelete { .. }
            | CommandView::Note { .. } => CommandKind::Addition,
            CommandView::Clear => CommandKind::Clear,
            CommandView::Commit { .. } => CommandKind::Commit,
            CommandView::Get { .. }
            | CommandView::Many { .. }
            | CommandView::Scan { .. }
            | CommandView::Updates { .. } => CommandKind::Read,
            CommandView::Stop
            | CommandView::Unstop
            | CommandView::Slow { .. }
            | CommandView::Unslow => CommandKind::Token,
        }
    }

    /// The record that it adds to the client's batch, if it adds one.
    pub fn record(&self) -> Option<RecordView<'a>>
        ensures { option_map record_of result ≡ record_added (command_of self.now) }
    {
        match self {
            CommandView::Put { family, key, value } => Some(RecordView::Value {
                family: *family,
                key,
                value,
            }),
            CommandView::Delete { family, key } => Some(RecordView::Deletion {
                family: *family,
                key,
            }),
            CommandView::SingleDelete { family, key } => Some(RecordView::SingleDeletion {
                family: *family,
                key,
            }),
            CommandView::Note { text } => Some(RecordView::LogData { blob: text }),
            CommandView::Clear
            | CommandView::Commit { .. }
            | CommandView::Get { .. }
            | CommandView::Many { .. }
            | CommandView::Scan { .. }
            | CommandView::Updates { .. }
            | CommandView::Stop
            | CommandView::Unstop
            | CommandView::Slow { .. }
            | CommandView::Unslow => None,
        }
    }
}

/// How many commits a command is: one or none.
pub fn commits_of(command: &CommandView<'_>) -> usize
    ensures { result ≡ commits_in (command_of command.now ∷ []) }
{
    match command {
        CommandView::Commit { .. } => 1,
        _ => 0,
    }
}
