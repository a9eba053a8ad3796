//! What commands are for.

/// What a command is for, without its words.
#[derive(Clone, Copy, Debug, PartialEq, Eq)]
pub enum CommandKind {
    /// Adds a record to the client's batch.
    Addition,
    /// Empties the batch.
    Clear,
    /// Writes the batch.
    Commit,
    /// Reads keys, or the log.
    Read,
    /// Takes or gives back a token of the write controller.
    Token,
}
