//! The outcome of a run of a script's clients, as values: the replies that each client gets, the one history of all
//! batches, and what the log then holds. The crate also says what such values show.
//!
//! - [`Reply`] is what a client gets as the reply to a call. A call that only adds to a batch, or empties it, has
//!   none.
//! - [`History`] puts the accepted batches of all clients into the order of their sequences, and leaves them where
//!   they are. A single client has its batches in order already. Those of several clients are found by their places
//!   (`places`), which are sorted by first sequences (`merged`): a place takes sixteen bytes. [`HistoryEntry`] is one
//!   accepted batch with its run.
//! - [`Outcome`] is all of it, with the map and the log's length.
//! - [`LogStart`] is how the log of a run is opened.
//!
//! - `specs/Shows`: the replies, the entries and the outcome of the model that values show.
//! - `specs/Histories`: the history's entries of the clients' lists of accepted batches.
//! - `specs/Places`: where these batches are in the lists.
//! - `specs/Running`: what a run of a script results in.
//! - `proofs/Replies`, `proofs/Entries`: what one more call, or one more batch, changes in them, for higher crates.
#![tactic(auto)]

mod entry;
mod history;
mod history_entry;
mod log_start;
mod merged;
mod outcome;
mod places;
mod reply;

pub use history::History;
pub use history_entry::HistoryEntry;
pub use log_start::LogStart;
pub use outcome::Outcome;
pub use reply::Reply;
