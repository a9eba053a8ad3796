//! The text of a record in a buffer, for callers that write the file of a log themselves.
//!
//! A record's text is its fragments one after another (see the crate `log_block`), as they are at the end of a log of
//! a given length, the offset. If fewer bytes than a header has are left of the block there, zeros end the block
//! first. A record for which there isn't room enough in the block is cut. So a log is written by laying each record's
//! text at the offset where the text before it ended.
//!
//! For example, the text of `abc` at the start of a log without a number is the ten bytes `f270e89d 0300 01 616263`.
//! At offset 32764 four zeros come before them. At offset 32760 the text is `ea753d51 0100 02 61` and
//! `c242bf86 0200 04 6263`.
#![tactic(auto)]

mod laying;
mod lengths;

pub use laying::lay_record;
pub use lengths::text_len;
