//! A right that counts what is served.

/// The next number to be served, how many groups were served, how many of these didn't come in the counter's order,
/// and how many writers worked in parallel with their leaders.
#[derive(Drop)]
pub struct CountingRight {
    pub next: u64,
    pub groups: u64,
    pub wrong: u64,
    pub helped: u64,
}
