//! A bell for each client.

use crate::bell::Bell;
use crate::pauses::Pauses;
use crate::yields::Yields;
use std::alloc::{AllocError, Global};
use std::sync::Wait;
use std::{rt, thread};

/// One bell for each client, and what is known of yields where the clients wait. Clients are numbered from 1.
#[derive(Drop)]
pub struct Bells {
    bells: Vec<Bell>,
    yields: Yields,
}

impl Bells {
    /// The bells of this number of clients.
    pub fn for_clients(alloc: Global, clients: u32) -> Result<Bells, AllocError> {
        let mut bells = Vec::new(alloc);
        for made in 0..clients {
            bells.push(Bell::new())?;
        }
        let yields = Yields::new();
        Ok(Bells { bells, yields })
    }

    fn of(&self, client: u64) -> Option<&Bell> {
        self.bells.get((client as usize).checked_sub(1)?)
    }

    /// The pauses of a wait that begins. What one wait learns of yields all others know.
    pub fn pauses(&self) -> Pauses<'_> {
        Pauses::new(&self.yields)
    }

    /// Pauses between two checks of what a client waits for.
    pub fn pause<R: Wait + rt::Clock>(&self, rt: &R, pauses: &Pauses<'_>, client: u64) {
        match self.of(client) {
            Some(bell) => bell.pause(rt, pauses),
            None => thread::yield_now(),
        }
    }

    /// Wakes a client, if it sleeps.
    pub fn ring(&self, client: u64) {
        if let Some(bell) = self.of(client) {
            bell.ring();
        }
    }
}
