//! What a damaged log still has, as a new log: each whole batch of known operations that a scan finds, verbatim and in
//! the file's order. A record is in or out, and never cut; and fragments are never joined over bytes that didn't read.
//!
//! - `keeping`: which records are kept, and why one is left out
//! - `new_log`: a log that records are added to, as they go to a sink
//! - `salvaging`: one step, from one record to the next
//! - `counts`: how much was kept, and how much wasn't
//! - `salvaged`: a whole log, step by step
//! - `laws`: what the new log has then
#![tactic(auto)]

mod counts;
mod keeping;
mod laws;
mod new_log;
mod salvaged;
mod salvaging;

pub use counts::Counts;
pub use keeping::{LeftOut, Range, verdict_of};
pub use laws::a_new_log_spells_what_was_kept;
pub use new_log::{AddError, NewLog};
pub use salvaged::{Salvaged, salvage};
pub use salvaging::{Salvaging, Step};
