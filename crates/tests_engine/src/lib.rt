//! Tests of the write path of many clients with its table in memory, over a disk in memory: what its calls answer on
//! one thread, and to threads that write and read at once. Also tests of the write controller that it asks. They are a
//! crate of their own, so that the write path is proved once, and not again with its tests.
#![tactic(auto)]

#[cfg(test)]
mod controller;
mod script;
#[cfg(test)]
mod tests;

pub use script::{Step, StepAnswer};
