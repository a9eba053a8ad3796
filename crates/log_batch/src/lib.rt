//! Write batches, as RocksDB's db/write_batch.cc lays them out, and the checks of a batch before it is written.
//!
//! | part | bytes |
//! |---|---|
//! | sequence | 8, the lowest byte first |
//! | count | 4, the lowest byte first: how many of the records take a sequence |
//! | records | each a tag, perhaps a varint32 for a family, and one or two strings, each after its length |
//!
//! | tag | record | what follows | takes a sequence |
//! |---|---|---|---|
//! | 0 | deletion | key | yes |
//! | 1 | value | key, value | yes |
//! | 3 | log data | blob | no |
//! | 4 | deletion in a family | family, key | yes |
//! | 5 | value in a family | family, key, value | yes |
//! | 7 | single deletion | key | yes |
//! | 8 | single deletion in a family | family, key | yes |
//!
//! - `batch`, `batch_bytes`, `record_bytes`: a batch that is being made.
//! - `view`, `records`, `split`: reading a batch's bytes.
//! - `run`: the sequences of a batch.
//! - `checks`: the refusals of a commit that need nothing but its batch.
#![tactic(auto)]

mod add_error;
mod batch;
mod batch_bytes;
mod checks;
mod record_bytes;
mod record_view;
mod records;
mod run;
mod split;
mod view;

pub use add_error::AddError;
pub use batch::{Batch, MAX_SEQUENCE};
pub use batch_bytes::HEADER_LEN;
pub use checks::{Measure, flag_of, refusal_at_once};
pub use record_bytes::size_with_record;
pub use record_view::{RecordView, named};
pub use records::Records;
pub use run::{Run, next_run};
pub use split::split_record;
pub use view::{BatchView, read_batch};
