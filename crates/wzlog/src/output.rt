//! Standard output.

use std::cell::Cell;
use std::fmt::Display;
use std::io::{self, ErrorKind};

/// Standard output, which notes whether it is a pipe whose reader has ended.
#[derive(Drop)]
pub struct Output<'a, R> {
    runtime: &'a R,
    is_closed: &'a Cell<bool>,
}

impl<'a, R> Output<'a, R> {
    /// That of this runtime. It makes `is_closed` true once a write finds its reader ended.
    pub fn new(runtime: &'a R, is_closed: &'a Cell<bool>) -> Self {
        Output { runtime, is_closed }
    }

    /// Notes it if this is what such a write answered.
    fn look_at<T>(&self, written: &io::Result<T>) {
        if let Err(error) = written {
            if error.kind() == ErrorKind::BrokenPipe {
                self.is_closed.set(true);
            }
        }
    }
}

impl<R: Print> Print for Output<'_, R> {
    fn print<D: Display + Drop>(&self, value: D) -> io::Result<()> {
        let written = self.runtime.print(value);
        self.look_at(&written);
        written
    }

    fn println<D: Display + Drop>(&self, value: D) -> io::Result<()> {
        let written = self.runtime.println(value);
        self.look_at(&written);
        written
    }

    fn write_all(&self, bytes: &[u8]) -> io::Result<()> {
        let written = self.runtime.write_all(bytes);
        self.look_at(&written);
        written
    }

    fn write_some(&self, bytes: &[u8]) -> io::Result<usize> {
        let written = self.runtime.write_some(bytes);
        self.look_at(&written);
        written
    }
}
