//! Batches that wait to be written, and how they are answered.

use log_batch::Run;
use model_base::{Refusal, WriteOptions};
use replay_plans::Lines;

/// A client's reply to a commit, or to a read of the map or of the log.
#[derive(Clone, Copy, Debug, PartialEq, Eq)]
pub enum CoreReply {
    /// The sequences of the batch.
    Accepted(Run),
    Refused { why: Refusal },
    /// The published sequence at which a read was answered.
    ReadAt { at: u64 },
}

/// The answer that a writer leaves with.
#[derive(Clone, Copy)]
pub(crate) enum Answer {
    Accepted(Run),
    Refused { why: Refusal },
    /// The published sequence up to which the log was read.
    ReadAt { at: u64 },
}

/// A batch that waits: whose it is, how it must be written, how many of its records take a sequence, and its answer,
/// once it has one. Or a read of the log from the sequence `since` on, with no lines.
#[derive(Clone, Copy)]
pub(crate) struct Writer {
    pub(crate) client: u32,
    pub(crate) options: WriteOptions,
    pub(crate) batch: Lines,
    pub(crate) count: u64,
    pub(crate) since: Option<u64>,
    pub(crate) answer: Option<Answer>,
}

impl Writer {
    ghost use Rattle.std.specs.Prelude.{◌≡◌};
    ghost use Rattle.replay_core.specs.Leads.{has_run};

    /// Whether it has a run of sequences.
    pub(crate) fn has_run(&self) -> bool
        ensures { result ≡ has_run self.now.answer }
    {
        matches!(self.answer, Some(Answer::Accepted(_)))
    }
}
