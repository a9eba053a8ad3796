//! A listener for the steps of a write path.

/// Hears what happens in a run, in the thread in which it happens. It promises nothing, and nothing is promised of it:
/// tests use one to hold a thread back.
pub trait Gate {
    /// A write path was opened, and its table has this number of locks.
    fn opened(&self, locks: u64);

    /// A client begins.
    fn started(&self, client: u32);

    /// A client's write is in the line of writers.
    fn linked(&self, client: u32);

    /// A leader is about to launch its group.
    fn launching(&self, client: u32);

    /// The client's call with this number, counted from 0, was answered.
    fn answered(&self, client: u32, number: u64);
}

/// A gate that does nothing.
#[derive(Clone, Copy, Drop)]
pub struct OpenGate;

impl Gate for OpenGate {
    fn opened(&self, _locks: u64) {}

    fn started(&self, _client: u32) {}

    fn linked(&self, _client: u32) {}

    fn launching(&self, _client: u32) {}

    fn answered(&self, _client: u32, _number: u64) {}
}
