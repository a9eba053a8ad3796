//! What the clients of the write path's core will do: each client's plan, the batches that its lines make, and the
//! search for its next call.
#![tactic(auto)]

mod ahead;
mod measure;
mod plan;
mod small;

pub use ahead::{Ahead, commit_at, is_read, look_ahead, missing_family, updates_at};
pub use measure::measure_batch;
pub use plan::{ClientPlan, Lines};
pub use small::are_small;
