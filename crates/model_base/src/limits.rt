//! The greatest numbers and sizes that are allowed.

/// The most clients of a write path.
pub const MAX_CLIENTS: u32 = 64;

/// The most column families that a run is set up for.
pub const MAX_FAMILIES: u32 = 16;

/// The most bytes of a batch.
pub const MAX_SIZE: u64 = 16_777_216;

/// The most bytes of a script's text.
pub const TEXT_LIMIT: usize = 16_777_216;
