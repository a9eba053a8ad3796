//! The proved crates for programs in C, C++, Rust and Python: the functions of `library/wolzenn.h`.
//!
//! - `checksum`, `reader`, `scan`, `recovery`, `more_logs`, `sharing`, `log_place`, `pairs`, `batch`, `batch_bytes`,
//!   `operations`, `log_record`, `handle`: the functions, by kind
//! - `codes`: the numbers that they answer
//! - `handle`, `held`, `object`: what a handle holds, behind a pointer that C can keep
//! - `buffer`: copies to a buffer of the caller
#![tactic(auto)]

mod batch;
mod batch_bytes;
mod buffer;
mod checksum;
mod codes;
mod handle;
mod held;
mod log_place;
mod log_record;
mod more_logs;
mod object;
mod operations;
mod pairs;
mod reader;
mod recovery;
mod scan;
mod sharing;
