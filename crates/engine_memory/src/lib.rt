//! The write path of many clients with its table in memory, of one shard or of several, over any log.
#![tactic(auto)]

mod opening;

pub use opening::open_engine;
