//! Tests of the line of writers with its second list: who leads, who waits for whom, who works in parallel with its
//! leader and which reply each gets. They run schedules of the calls on one thread, and threads that write at once.
//! They are a crate of their own, so that `line_writers` is proved once, and not again with its tests.
#![tactic(auto)]

mod client;
mod counter;
#[cfg(test)]
mod tests;

pub use client::{PlayerStage, StagePlayer};
pub use counter::CountingRight;
