//! Point-in-time recovery of a log (RocksDB wiki, "WAL Recovery Modes", kPointInTimeRecovery): the records before the
//! first place that can't be read, or before the first record that is no batch or whose run of sequences doesn't rise.
//!
//! Recovery of any bytes has a result. What follows damage is not looked at: a log is a history, and what follows a
//! gap would be another history.
//!
//! A log may have a number, and is recovered with it. It ends at a fragment that another log left in the file.
//!
//! A mode may accept fewer ends than point-in-time recovery, which accepts any. Then a log that lost more than the
//! mode lets it lose is not taken for whole. What is recovered is the same in each mode.
#![tactic(auto)]

mod following;
mod kept;
mod many;
mod modes;
mod more;
mod picked;
mod recovery;

pub use following::{MoreUpdates, Place, places, updates_from};
pub use kept::GroupNote;
pub use many::{RecoveredMany, recover_many};
pub use modes::Mode;
pub use more::recover_more;
pub use recovery::{End, RecoverError, Recovered, recover, recover_mode};
