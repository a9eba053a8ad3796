//! Reading a log on after damage: which records are there, also after what doesn't read.
//!
//! `log_reader` ends at the first thing that can't be read, and recovery keeps to that. Here the same reader goes to a
//! later place: where the damaged fragment should end, or the next block. What it finds there is shown to a person, and
//! nothing is recovered from it: what follows damage may be of another history. A compressed log is read no further.
//!
//! - `scanner`: the records, one after another, and what doesn't read between them
//! - `resuming`: where reading is tried again
//! - `front`: the first bytes from a place on
//! - `numbers`: the number that a log's first header has, and whether it reads with it
//!
//! That a file has one scan, and that all whole records in the order of a block are in it, is proved in
//! `log_scan_laws`.
#![tactic(auto)]

mod front;
mod numbers;
mod resuming;
mod scanner;

pub use front::read_front;
pub use numbers::{first_number, own_number};
pub use scanner::{Found, Lost, Scanner, Unread};
