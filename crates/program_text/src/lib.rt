//! What a call prints: the outcome of a run or its summary, what a log recovers, the result of a schedule, or why the
//! call was refused.
#![tactic(auto)]

mod lines;
mod parts;
mod reads;
mod recovered;
mod recovered_state;
mod replayed;
mod states;
mod summary;
mod texts;

pub use recovered::{print_damage, print_logs_damage, print_recovered, print_recovered_logs};
pub use replayed::print_replayed;
pub use summary::print_summary;
pub use texts::{print_high_family, print_not_empty, print_outcome, print_script_fault, usage};
