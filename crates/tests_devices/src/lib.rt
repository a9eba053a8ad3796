//! Tests of the base: bytes, numbers, checksums and what reads answer, the devices, and the disk that holds an append
//! back. They are a crate of their own, so that `base_bytes`, `base_devices` and `tests_held_disk` are proved once,
//! and not again with their tests.
//!
//! - `checks`, `calls`: a comparison, and calls of a disk in a table, for the others
//! - `bytes`: bytes, numbers, checksums, lists and the map
//! - `devices`: the devices in memory, and the clocks
//! - `streams`: the standard streams as devices, over a stream whose first call is interrupted by a signal
//! - `files`: a file as a disk, in cases that the program doesn't have; `tests/real_file` has the rest
//! - `held`: the disk that holds an append back
#![tactic(auto)]

#[cfg(test)]
mod bytes;
#[cfg(test)]
mod calls;
#[cfg(test)]
mod checks;
#[cfg(test)]
mod devices;
#[cfg(test)]
mod files;
#[cfg(test)]
mod held;
#[cfg(test)]
mod streams;
