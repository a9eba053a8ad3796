//! Standard input as a source.

ghost use Rattle.std.specs.Prelude.{◌≡◌, ◌≤◌, length, None, IfOk};

use crate::failed::{MAX_TRIES, count_fault};
use crate::{Failed, Source};
use std::io::{self, ErrorKind, Read};
use std::marker::Model;

/// Standard input. It tells nothing of its bytes.
#[derive(Drop)]
pub struct StdSource<R: Input> {
    reader: R::Reader,
    faults: u64,
}

impl<R: Input> Model for StdSource<R> {
    ghost use Rattle.std.specs.Prelude.{ℕ};

    // The count of faults.
    ghost Value = { ℕ };

    ghost view = { λ s. s.faults };
}

impl<R: Input> StdSource<R> {
    /// Standard input, of which nothing was read yet.
    pub fn new(rt: &R) -> Self
        ensures no_fault { result ≡ 0 }
    {
        StdSource {
            reader: rt.reader(),
            faults: 0,
        }
    }
}

impl<R: Input> Source for StdSource<R> {
    ghost left = { λ _. None };

    ghost faults = { λ count. count };

    /// How many reads have failed.
    fn faults(&self) -> u64 {
        self.faults
    }

    /// Each error of the system is a fault. A read that a signal interrupts is made again instead.
    fn read(&mut self, buf: &mut [u8]) -> Result<usize, Failed> {
        match read_again(&mut self.reader, buf) {
            Ok(n) => Ok(n),
            Err(_) => Err(count_fault(&mut self.faults)),
        }
    }
}

/// One read of the system, made again if a signal interrupted it.
fn read_again<T: Read>(reader: &mut T, buf: &mut [u8]) -> io::Result<usize>
    ensures at_most { IfOk result (λ n. n ≤ length buf.new) }
{
    for _ in 0..MAX_TRIES {
        match reader.read(buf) {
            Err(error) if error.kind() == ErrorKind::Interrupted => {}
            done => return done,
        }
    }
    Err(io::Error::from(ErrorKind::Interrupted))
}
