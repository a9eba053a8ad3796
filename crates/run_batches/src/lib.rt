//! The accepted batches of a client, kept as bytes one after another. They take little memory: a batch takes its own
//! bytes, one for how it was committed, four for where it ends, and no allocation of its own.
//!
//! | Bytes | What they are |
//! |---|---|
//! | 1 | the flag: 0 for log, 1 for no log, 2 for sync |
//! | 8 | the batch's sequence, the lowest byte first |
//! | 4 | how many of its records count, the lowest byte first |
//! | the others | its records, as `log_batch` lays them out |
//!
//! There is no length among these bytes. A list next to them says where each batch ends, so that each is found at
//! once.
#![tactic(auto)]

mod accepted;
mod layout;
mod list;

pub use accepted::{AcceptedBatch, AcceptedBatchRef};
pub use list::BatchList;
