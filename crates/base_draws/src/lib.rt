//! Numbers that are drawn from a seed: for the script that `gen` makes, and for the bytes that a torn write leaves on
//! a disk in memory. A seed gives the same numbers in each run.
#![tactic(auto)]

mod draws;

pub use draws::Draws;
