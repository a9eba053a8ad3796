//! What a member learns as it finishes.

/// Whether a member was the last of its group to finish.
#[derive(Clone, Copy, Debug, PartialEq, Eq)]
pub enum Finished {
    /// It was, and must publish the group.
    Last,
    /// Others haven't finished yet, and one of them will publish the group.
    Others,
}
