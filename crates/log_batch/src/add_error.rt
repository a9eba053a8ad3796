//! Why a batch doesn't take an addition.

use thiserror::Error;

/// Why an addition to a batch was refused.
#[derive(Clone, Copy, Debug, PartialEq, Eq, Error)]
pub enum AddError {
    /// There was no memory.
    #[error("no memory")]
    NoMemory,
    /// With the addition the batch would have this many bytes, which are too many. A number above the greatest u64 is
    /// given as the greatest u64.
    #[error("the batch would have {size} bytes")]
    TooLarge { size: u64 },
}
