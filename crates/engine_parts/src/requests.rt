//! What a client asks of a leader, and what the leader answers.

ghost use Rattle.std.specs.Prelude.{◌≡◌, ◌≤◌, reverse};
ghost use Rattle.std.specs.Option.{ForNone, ForSome};
ghost use Rattle.model_base.specs.declared.limits.TheConstants.{MAX_SIZE};
ghost use Rattle.model_base.specs.Batch as model;
ghost use Rattle.table_rule.specs.Batches.{new_versions};

use engine_calls::{Receipt, Refused, Since, SinceRefused};
use engine_controller::{Note, Pass};
use log_batch::Batch;
use model_base::WriteOptions;
use std::snapshot::Snapshot;
use table_nodes::Nodes;

/// A batch that should be written, with the nodes that it makes, those of its last record first. Or the log should be
/// read: then the batch is an empty one.
#[derive(Drop)]
pub struct Request {
    pub batch: Batch,
    pub nodes: Nodes,
    pub options: WriteOptions,
    /// What the client has seen of the write controller, until the leader has seen it too.
    pub note: Option<Note>,
    /// The sequence from which on the log should be read, where nothing should be written.
    pub since: Option<u64>,
    /// Up to which sequence the client has seen what is published; 0 where nothing should be written.
    pub shown: u64,
    ghost made_of: { nodes ≡ reverse (new_versions batch.records) },
    ghost some: { ForNone since (1 ≤ model.count_of batch.records) },
    ghost none: { ForSome since (λ _. model.count_of batch.records ≡ 0) },
    ghost small: { model.size_of_batch batch.records ≤ MAX_SIZE },
}

/// A delay that a leader asked for its group: what the leader's pass had seen then, with the delay itself as the last
/// call; what it had seen when it was decided whether the group goes on; and how many calls of the log had worked when
/// the group was answered. It is only there for the proofs.
#[derive(Drop)]
pub struct Delay {
    pub pass: Snapshot<Pass>,
    pub went: Snapshot<Pass>,
    pub made: u64,
}

/// The answer to a request.
#[derive(Drop)]
pub struct Answer {
    pub answer: Result<Receipt, Refused>,
    /// The delay that was asked for the group. A refusal without a group has no such delay, and what is here says
    /// nothing of it.
    pub delay: Snapshot<Delay>,
    /// What the leader has seen of the write controller, where the request was to write. A refusal by the client's own
    /// look has no note.
    pub note: Option<Note>,
    /// What the log was read to be, where it should be read. Its empty batch comes back as a refused one, which says
    /// nothing.
    pub read: Option<Result<Since, SinceRefused>>,
}
