//! The writer of a log of groups, like `log::Writer` of LevelDB's db/log_writer.cc.
//!
//! A group is batches that are written together. In the log it is one record, which is a batch too:
//!
//!     +--------------+-----------+--- ... ---+--- ... ---+
//!     | sequence (8) | count (4) | member 1  | member 2  |  ..
//!     +--------------+-----------+--- ... ---+--- ... ---+
//!
//! The sequence is that of the group's first addition that counts, and the count is the sum of the members' counts. Of
//! each member the record has what follows its own header. The record is cut into fragments (see the crate
//! `log_block`). Each fragment is put together in a buffer of one block and handed to the disk by one append.
//!
//! For example `put a 1` and `put b 2`, as one group from sequence 1 on, are a record of 22 bytes, which is
//! `010000000000000002000000`, `0101610131` and `0101620132`, and 29 bytes of log.
//!
//! A log is opened in three ways. On an empty disk it is new. It may also go on after the records that recovery kept
//! of a disk: the rest is cut off, and what is kept is synced before anything is written. With a number, which is in
//! each fragment, it is written over old bytes from the start of the disk, which is only rewound (RocksDB's
//! `recycle_log_file_num`).
//!
//! A crash may come at any moment. What it leaves of the log is a prefix of the records, those that were kept and
//! those that were written, each of them whole, with all that a sync had made safe, unless the checksum of a torn
//! fragment, or of an old one, matches by chance. That is proved of each call, and of all calls since the log was
//! opened. What a crash leaves is longer than what the calls had written only where writes could come that far before
//! the log was opened. So an image that reaches further than writes could come then, and is longer than the text up to
//! the end of a call that synced, begins with this text. Over old bytes the length of an image tells nothing; but once
//! a call that synced has returned, each image begins with the text up to the end of that call.
#![tactic(auto)]

mod counts;
mod errors;
mod group_bytes;
mod group_log;
mod laws;
mod puts;
mod readable_log;
mod reads;
mod set;
mod set_laws;
mod set_opening;
mod writer;

pub use errors::{Fault, OpenError};
pub use group_log::GroupLog;
pub use laws::{
    beginnings, calls_of_each_log, contents_of_sets, crashes_between_calls, crashes_of_sets,
    kept_at_first, written_by_calls,
};
pub use readable_log::ReadableLog;
pub use set::LogSet;
pub use set_laws::{one_cut_of_sets, sets_are_filled, synced_in_sets};
pub use writer::LogWriter;
