//! Tests of the clients: the checks of their commits, their commands over a write path that finds no memory, the
//! history and the map of all clients, and the script of a seed. They are a crate of their own, so that `run_outcome`,
//! `run_threads` and `run_generator` are proved once, and not again with their tests.
#![tactic(auto)]

#[cfg(test)]
mod checks;
#[cfg(test)]
mod generated;
#[cfg(test)]
mod history;
#[cfg(test)]
mod mute;
#[cfg(test)]
mod no_memory;
