//! The script that a seed makes: for each client its batches of random puts and deletions, each written by a plain
//! commit. `base_draws` draws the numbers, `records` and `batches` make commands of them, and `clients` makes the
//! script. `summary` has the sum of the values that a run leaves.
#![tactic(auto)]

mod batches;
mod clients;
mod records;
mod summary;

pub use clients::generate;
pub use summary::sum_of;
