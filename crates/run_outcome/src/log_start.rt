//! How the log of a run is opened.

/// A log begins anew, or goes on.
#[derive(Clone, Copy, Debug, PartialEq, Eq)]
pub enum LogStart {
    /// A plain log, on an empty disk.
    New,
    /// A log with this number, over what is on the disk.
    Over { number: u32 },
    /// A log with a number or a plain one, which goes on after what the disk recovers as such a log.
    Behind { number: Option<u32> },
}
