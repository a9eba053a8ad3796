//! Reads the records of a log one after another, as LevelDB's db/log_reader.cc does. The first thing that can't be
//! read ends the reading, and nothing after it is looked at.
//!
//! A log may have a number, as the recyclable ones of RocksDB's db/log_reader.cc have. It is read with this number,
//! and a fragment that another log left in the file ends the reading too.
//!
//! It holds one block of the log at a time, and the record in hand. It begins at the log's start, or at the end of a
//! record that was read before: so who follows a log that grows doesn't read it anew. It may go to another place of the
//! log, also after it has stopped, and keeps its block where that has the place.
#![tactic(auto)]

mod errors;
mod read_block;
mod reader;
mod see;
mod window;

pub use errors::OpenError;
pub use reader::{LogReader, Next};
