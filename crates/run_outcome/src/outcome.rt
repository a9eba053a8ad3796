//! The outcome of a run: each client's replies, the one history of batches, and what the log then holds.

ghost use Rattle.std.specs.Prelude.{◌≡◌};
ghost use Rattle.std.specs.List.{list_any};
ghost use Rattle.run_outcome.specs.Shows.{is_read_fault, lacks_memory};

use crate::{History, Reply};

/// The outcome of a run. `M` holds the map; contracts see it as a list of keys with their values.
#[derive(Drop)]
pub struct Outcome<M> {
    /// The replies of each client, in order of the clients' numbers.
    pub transcripts: Vec<Vec<Reply>>,
    /// The accepted batches, in order of their sequences.
    pub history: History,
    /// The published sequence, and the map there.
    pub last: u64,
    pub state: M,
    /// The lengths of the full logs, if there are several; then that of the log that was written to last: the bytes
    /// that it kept, and those of the groups that were written whole. Then the count of the fault, if there is one.
    pub full_lens: Vec<u64>,
    pub log_len: u64,
    pub fault: Option<u64>,
}

impl<M> Outcome<M> {
    ghost use Rattle.std.specs.Prelude.{◌≡◌};
    ghost use Rattle.run_outcome.specs.Shows.{has_read_fault, ran_short};

    /// Whether a client ran out of memory.
    pub fn lacks_memory(&self) -> bool
        ensures { result ≡ ran_short self.now }
    {
        self.transcripts
            .iter()
            .any(|replies| any_lacks_memory(replies))
    }

    /// Whether a read of the log failed.
    pub fn has_read_fault(&self) -> bool
        ensures { result ≡ has_read_fault self.now }
    {
        self.transcripts
            .iter()
            .any(|replies| any_is_read_fault(replies))
    }
}

fn any_lacks_memory(replies: &[Reply]) -> bool
    ensures { result ≡ list_any lacks_memory replies.now }
{
    replies.iter().any(|reply| reply.lacks_memory())
}

fn any_is_read_fault(replies: &[Reply]) -> bool
    ensures { result ≡ list_any is_read_fault replies.now }
{
    replies.iter().any(|reply| reply.is_read_fault())
}
