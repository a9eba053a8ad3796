//! Standard output as a sink.

ghost use Rattle.std.specs.Prelude.{◌≡◌, None};

use crate::failed::{MAX_TRIES, count_fault};
use crate::{Failed, Sink};
use std::io::ErrorKind;
use std::marker::Model;

/// Standard output. It tells nothing of its bytes. It has no buffer: the bytes that it took were handed to the system.
#[derive(Drop)]
pub struct StdSink<R: Print + Drop> {
    runtime: R,
    faults: u64,
}

impl<R: Print + Drop> Model for StdSink<R> {
    ghost use Rattle.std.specs.Prelude.{ℕ};

    // The count of faults.
    ghost Value = { ℕ };

    ghost view = { λ s. s.faults };
}

impl<R: Print + Drop> StdSink<R> {
    /// Standard output, to which nothing was written yet.
    pub fn new(runtime: R) -> Self
        ensures no_fault { result ≡ 0 }
    {
        StdSink { runtime, faults: 0 }
    }
}

impl<R: Print + Drop> Sink for StdSink<R> {
    ghost taken = { λ _. None };

    ghost faults = { λ count. count };

    /// How many writes have failed.
    fn faults(&self) -> u64 {
        self.faults
    }

    /// One write of the system, made again if a signal interrupted it. Any other error is a fault, and so is a write of
    /// some bytes that took none of them.
    fn write(&mut self, piece: &[u8]) -> Result<usize, Failed> {
        for _ in 0..MAX_TRIES {
            match self.runtime.write_some(piece) {
                Ok(n) if n > 0 || piece.is_empty() => return Ok(n),
                Err(error) if error.kind() == ErrorKind::Interrupted => {}
                _ => break,
            }
        }
        Err(count_fault(&mut self.faults))
    }
}
