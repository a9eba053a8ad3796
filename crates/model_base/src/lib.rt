//! The definitions, in `specs/`, that say what the crates built on this one promise. The Rust side has only the plain
//! values that the definitions name.
#![tactic(auto)]

mod batch;
mod coding;
mod group;
mod history;
mod key;
mod limits;
mod log;
mod memory;
mod options;
mod script;
mod write;

pub use batch::BatchError;
pub use coding::CodeError;
pub use group::Item;
pub use history::Flag;
pub use key::Key;
pub use limits::{MAX_CLIENTS, MAX_FAMILIES, MAX_SIZE, TEXT_LIMIT};
pub use log::{Damage, EndReason};
pub use memory::NoMemory;
pub use options::Options;
pub use script::ScriptFault;
pub use write::{ReadRefused, Refusal, WriteOptions};
