//! Texts that are printed piece by piece, so that no more than a piece of one is in memory.
//!
//! A text is made by calls that each put some bytes of it. They wait until there are enough for a write: so a text of
//! many short words is printed by few writes, and a reader that goes away ends it at the next one.
#![tactic(auto)]

mod error;
mod printer;

pub use error::PrintError;
pub use printer::{Printer, ROOM};
