//! Tests of the call `run` as a whole, over devices in memory: what it prints, its status, and what it leaves on the
//! disk. They are a crate of their own, so that the call is proved once, and not again with its tests.
#![tactic(auto)]

#[cfg(test)]
mod tests;
