//! The top call: it runs a script over the write path and prints the outcome, runs a generated script and prints its
//! summary, prints what a log recovers, or runs a schedule on the core.
//!
//! - `call`, `many`: the call, over one disk and over several, with what it promises of each command (`specs/Answers`)
//! - `parting`: which disks a call uses
//! - `running`, `generating`, `recovering`, `replaying`: one command each
//! - `reading`: reads the script from its source
//! - `report`: what is printed, and the status
//! - `ended`: the status and the disk
#![tactic(auto)]

mod call;
mod ended;
mod generating;
mod many;
mod parting;
mod reading;
mod recovering;
mod replaying;
mod report;
mod running;

pub use call::{run, run_gated};
pub use ended::{Ended, EndedMany};
pub use many::run_many;
