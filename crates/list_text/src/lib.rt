//! The lines in which a log is shown: records with their operations, stretches that don't read, gaps, counts and ends.
//! In hexadecimal or as text, plain or as JSON, an object a line.
//!
//! - `form`: which of these
//! - `digits`, `words`: bytes and numbers
//! - `reasons`: why reading ended, or why bytes are no operation
//! - `kinds`: what the tags of operations are called
//! - `records`: a record and its operations
//! - `between`: what is said between records, and at the end
//! - `summary`: counts in place of records
//! - `keys`: a key as it is given on the command line
//! - `rows`: some values
#![tactic(auto)]

mod between;
mod digits;
mod form;
mod keys;
mod kinds;
mod reasons;
mod records;
mod rows;
mod summary;
mod words;

pub use between::{put_end, put_gap, put_order, put_scan_front, put_unread};
pub use digits::put_number;
pub use form::{Form, RecordPlace};
pub use keys::{KeyError, key_of};
pub use reasons::put_reason;
pub use records::{put_operation, put_record_back, put_record_front};
pub use rows::{given_keys, shown_bytes};
pub use summary::{put_count, put_records, put_sequences, put_stretches};
pub use words::put_word;
