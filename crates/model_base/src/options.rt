//! How a run is set up.

/// The sequence before the first batch, and the limits on groups and batches.
#[derive(Clone, Copy, Debug, PartialEq, Eq)]
pub struct Options {
    /// The sequence before the first batch, at most `2^56 - 1`. Batches are given the sequences after it.
    pub last: u64,
    /// The most bytes of a write group.
    pub group_bytes: u64,
    /// The most bytes of a batch. A larger one is refused.
    pub batch_bytes: u64,
    /// How many column families there are, at least one. They have the numbers below this one.
    pub families: u32,
}
