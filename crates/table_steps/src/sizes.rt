//! What a table knows of its opening at run time.

/// How many clients and shards a table was opened for, and the sequence that was published then.
#[derive(Copy, Clone)]
pub(crate) struct Sizes {
    pub(crate) clients: u64,
    pub(crate) shards: u64,
    pub(crate) start: u64,
}
