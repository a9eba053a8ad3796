//! Logs in memory, of which no read fails: what a program that has a log's bytes keeps between its calls.
//!
//! - `reading`: a reader of the log's records, up to where reading ends
//! - `scanning`: a scan of its records, also of those after damage
//! - `scan_runs`: a law of its calls, one after another
//! - `recovery_pairs`: the pairs of key and value that were recovered from it and from the logs before it
#![tactic(auto)]

mod reading;
mod recovery_pairs;
mod scan_runs;
mod scanning;

pub use reading::{Reading, log_number};
pub use recovery_pairs::{FamilyPair, RecoveryPairs, order};
pub use scan_runs::calls_of_a_scan;
pub use scanning::{Scan, Scanned};
