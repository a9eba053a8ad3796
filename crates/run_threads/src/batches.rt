//! A client's batches.

use log_batch::Batch;
use run_batches::{AcceptedBatch, BatchList};

/// What a client has at hand: nothing, the batch in the making, or the last one that was accepted.
#[derive(Drop)]
pub enum CurrentBatch {
    Nothing,
    Pending(Batch),
    Accepted(AcceptedBatch<Batch>),
}

/// A client's batches: those that were accepted, and what it has at hand.
///
/// The last accepted batch stays at hand until the next one is begun. Then it goes into the list, and is emptied for
/// the next one. If there is no memory for that, it stays at hand, so that no batch that was written is lost.
#[derive(Drop)]
pub struct ClientBatches {
    pub list: BatchList,
    pub current: CurrentBatch,
}
