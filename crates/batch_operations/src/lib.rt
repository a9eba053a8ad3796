//! The operations of a write batch, of every kind that RocksDB writes and whose layout is public: the head comment of
//! its db/write_batch.cc, `ReadRecordFromWriteBatch` there, and `ValueType` of db/dbformat.h.
//!
//! They are only shown, and not applied: `log_batch` has the seven tags that recovery applies. A batch that it reads is
//! shown here as the same records (`batches_are_shown`), and a fault that it finds is shown too (`refusals_are_shown`).
//!
//! - `layout`: what follows each tag
//! - `split`: the operation with which bytes begin
//! - `head`: the sequence and the count in front of the operations
//! - `laws`: what bytes show is one thing
//! - `rows`: some values
#![tactic(auto)]

mod head;
mod laws;
mod layout;
mod rows;
mod split;
mod view;

pub use head::{Head, read_head};
pub use laws::{a_record_shows_one_thing, batches_are_shown, refusals_are_shown};
pub use layout::{Layout, layout_of};
pub use rows::{layouts_of_tags, spelled_operations};
pub use split::split_operation;
pub use view::{OperationView, Strings};
