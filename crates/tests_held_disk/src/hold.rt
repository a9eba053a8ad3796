//! What holds an append back.

ghost use Rattle.std.specs.Prelude.{◌≡◌, IsTrue};
ghost use Rattle.tests_held_disk.specs.HeldDisk.{need_of};

use std::sync::atomic::Ordering::SeqCst;
use std::sync::atomic::{AtomicBool, AtomicU64};
use std::thread;

/// How many turns an append waits at most: more than any test needs, so that a test ends even where the others never
/// arrive.
const MOST_TURNS: u64 = 1_000_000_000;

/// Holds an append back until others have arrived. Threads share it by `&`, so no contract says how many have arrived.
#[derive(Drop)]
pub struct AppendHold {
    need: u64,
    arrived: AtomicU64,
    entered: AtomicBool,
}

impl AppendHold {
    /// The hold opens once [`arrive`](AppendHold::arrive) was called `need` times. Where `need` is 0 it is open at
    /// once.
    pub fn new(need: u64) -> AppendHold
        ensures { need_of result ≡ need }
    {
        AppendHold {
            need,
            arrived: AtomicU64::new(0),
            entered: AtomicBool::new(false),
        }
    }

    /// Notes that one more has arrived.
    pub fn arrive(&self) {
        self.arrived.fetch_add(1, SeqCst);
    }

    /// Whether the held append was begun.
    pub fn is_entered(&self) -> bool {
        self.entered.load(SeqCst)
    }

    /// Whether all have arrived.
    pub fn is_open(&self) -> bool
        ensures { need_of self.now ≡ 0 → IsTrue result }
    {
        self.arrived.load(SeqCst) >= self.need
    }

    /// Notes that the held append was begun, and waits until all have arrived. Each turn lets another thread run. It
    /// answers false where they haven't arrived after all turns.
    pub(crate) fn enter(&self) -> bool
        ensures { need_of self.now ≡ 0 → IsTrue result }
    {
        self.entered.store(true, SeqCst);
        for _ in 0..MOST_TURNS {
            if self.is_open() {
                return true;
            }
            thread::yield_now();
        }
        self.is_open()
    }
}
