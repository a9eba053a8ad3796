//! What the records of batches do to a map.
#![tactic(auto)]

mod effects;

pub use effects::{write_record, write_records};
