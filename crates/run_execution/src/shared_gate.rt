//! One gate for the write path and for its clients.

use engine_calls::Gate;

/// A gate that others use too.
#[derive(Drop)]
pub struct SharedGate<'a, G> {
    pub gate: &'a G,
}

impl<'a, G: Gate> Gate for SharedGate<'a, G> {
    fn opened(&self, locks: u64) {
        self.gate.opened(locks);
    }

    fn started(&self, client: u32) {
        self.gate.started(client);
    }

    fn linked(&self, client: u32) {
        self.gate.linked(client);
    }

    fn launching(&self, client: u32) {
        self.gate.launching(client);
    }

    fn answered(&self, client: u32, number: u64) {
        self.gate.answered(client, number);
    }
}
