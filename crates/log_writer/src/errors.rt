//! Why a log was not opened, and why it takes no more.

use thiserror::Error;

/// Why a log was not opened.
#[derive(Clone, Copy, Debug, PartialEq, Eq, Error)]
pub enum OpenError {
    /// The disk failed, and this is its count of faults.
    #[error("fault {count} of the disk")]
    Fault { count: u64 },
    /// The disk isn't empty, and has this number of bytes.
    #[error("the disk has {len} bytes")]
    NotEmpty { len: u64 },
    /// There was no memory.
    #[error("no memory")]
    NoMemory,
}

/// A write failed, and this is the disk's count of faults. The log takes no more.
#[derive(Clone, Copy, Debug, PartialEq, Eq, Error)]
#[error("fault {count} of the disk")]
pub struct Fault {
    pub count: u64,
}
