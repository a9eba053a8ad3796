//! A log that is shown: its records with their operations, one after another, to a sink. A step reads one record and
//! has written its lines when it returns, so that memory is a block or two, a record and its lines, however long the
//! log is.
//!
//! - `settings`: what is shown, and in which form
//! - `wanted`: which records and operations
//! - `lines`: the lines of a record
//! - `listing`: a step
//! - `showing`: the whole log, step by step
//! - `tallies`, `totals`, `summary`: how many there are, in place of the records
//! - `rows`: what is shown of a small log, worked out
#![tactic(auto)]

mod lines;
mod listing;
mod rows;
mod settings;
mod showing;
mod summary;
mod tallies;
mod totals;
mod wanted;

pub use listing::{Listed, Listing};
pub use rows::{a_changed_byte_is_counted, a_changed_byte_is_shown};
pub use settings::Settings;
pub use showing::{Shown, show};
pub use summary::summarize;
