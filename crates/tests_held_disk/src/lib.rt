//! A disk in memory that holds one append back until others have arrived, for tests of overlap: what another thread
//! does while an append is under way.
//!
//! - `hold`: what the append waits for, which threads share
//! - `disk`: the disk
#![tactic(auto)]

mod disk;
mod hold;

pub use disk::HeldDisk;
pub use hold::AppendHold;
