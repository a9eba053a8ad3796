//! Runs the commands of each client over any write path that clients share, each client in a thread of its own, and
//! puts together the outcome as values.
//!
//! - [`run_engine`] runs the clients, closes the write path, and puts together what an outcome has: the replies, the
//!   history and the map at its end. There is one trace of which this is a legal outcome (`specs/Runs`).
//! - [`run_clients`] runs all clients, and says of each that its replies are a transcript of its commands as far as
//!   the client itself can tell (`HasRun` of `model_accounts`).
//! - All room for the replies is made before the first call of a client, and some for the accepted batches; their list
//!   asks for more where they are long. An accepted batch goes into its client's list when the next one is begun, for
//!   which there may be no memory; until then it stays at hand ([`ClientBatches`]).
//! - [`history_of`] puts all clients' accepted batches into the one order of their sequences, and [`state_of`] has the
//!   map that a history makes.
//! - A client stops at its first call that finds no memory. When it stops, or has run all its commands, it gives back
//!   the tokens that it holds.
#![tactic(auto)]

mod adding;
mod answer;
mod batches;
mod client;
mod clients;
mod committing;
mod history;
mod jobs;
mod reading;
mod run;
mod state;
mod tokens;

pub use batches::{ClientBatches, CurrentBatch};
pub use client::run_client;
pub use clients::run_clients;
pub use history::{history_of, lists_of};
pub use run::{ClientsEnd, run_engine};
pub use state::state_of;
