//! The standard streams as devices, where signals interrupt their calls. `tests/real_file` tests the rest of them.

ghost use Rattle.std.specs.Prelude.{◌≤◌, IfOk};

use crate::checks::check;
use base_devices::{Sink, Source, StdSink, StdSource};
use std::alloc::Allocator;
use std::cell::Cell;
use std::fmt::Display;
use std::io::{self, BufRead, Lines, Print, Read};

/// A stream whose first call is interrupted. Later calls take or give at most two bytes. As a runtime it is its own
/// output, and its input is another such stream.
#[derive(Drop)]
struct Slow {
    interrupted: Cell<bool>,
}

impl Slow {
    fn new() -> Slow {
        Slow {
            interrupted: Cell::new(false),
        }
    }

    fn count(&self, len: usize) -> io::Result<usize>
        ensures { IfOk result (λ n. n ≤ len) }
    {
        if self.interrupted.replace(true) {
            Ok(len.min(2))
        } else {
            Err(io::Error::from(io::ErrorKind::Interrupted))
        }
    }
}

impl Print for Slow {
    fn print<D: Display + Drop>(&self, _value: D) -> io::Result<()> {
        Ok(())
    }

    fn println<D: Display + Drop>(&self, _value: D) -> io::Result<()> {
        Ok(())
    }

    fn write_all(&self, _bytes: &[u8]) -> io::Result<()> {
        Ok(())
    }

    fn write_some(&self, bytes: &[u8]) -> io::Result<usize> {
        self.count(bytes.len())
    }
}

impl Read for Slow {
    fn read(&mut self, buf: &mut [u8]) -> io::Result<usize> {
        self.count(buf.len())
    }
}

// No test reads lines.
impl BufRead for Slow {
    fn fill_buf(&mut self) -> io::Result<&[u8]> {
        Ok(b"")
    }

    fn consume(&mut self, _amount: usize) {}
}

impl Input for Slow {
    type Reader = Slow;

    fn read_line<A: Allocator + Clone>(&self, _buf: &mut String<A>) -> io::Result<usize> {
        Ok(0)
    }

    fn lines<A: Allocator>(&self, alloc: A) -> Lines<Slow, A> {
        BufRead::lines(Slow::new(), alloc)
    }

    fn reader(&self) -> Slow {
        Slow::new()
    }
}

// Each call takes or gives a part of the bytes, and the interruption is no fault.
#[test]
fn interrupted_calls_are_made_again(rt: HostRuntime) {
    let mut sink = StdSink::new(Slow::new());
    let written = sink.write(b"abc");
    check(&rt, 0, &(written, sink.faults()), &(Ok(2), 0));
    let mut source = StdSource::new(&Slow::new());
    let read = source.read(&mut [0; 3]);
    check(&rt, 1, &(read, source.faults()), &(Ok(2), 0));
}
