//! Why a script can't be read.

/// What is wrong with a script, or with a line of it.
#[derive(Clone, Copy, Debug, PartialEq, Eq)]
pub enum ScriptFault {
    /// The text is too long.
    Long,
    /// A byte that is neither a space nor a printing character.
    Byte,
    /// The first word of a line is no command.
    Word,
    /// A command with other words after it than it takes.
    Form,
    /// A client's number that isn't the next one, or a command before the first client.
    Client,
    /// More clients than are allowed.
    Clients,
    /// No client at all.
    NoClient,
    /// No schedule where one is wanted.
    NoSchedule,
}
