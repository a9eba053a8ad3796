//! A published table of any number of shards: how it is opened and closed, and the calls of a client's seat, each made
//! of the atomic steps of `table_rule`. A table of one lock, or of many, chooses the shard of each key.
#![tactic(auto)]

mod calls;
mod closing;
mod launching;
mod member;
mod opening;
mod reading;
mod seat;
mod shared;
mod sizes;

pub use launching::Turn;
pub use seat::TableSeat;
pub use shared::SharedTable;
