//! A source in memory.

ghost use Rattle.std.specs.Prelude.{◌≡◌, ◌<◌, ◌≤◌, length, drop, false, Some, vec_len, IfOk, OnErr};

use crate::calls::Calls;
use crate::{Failed, Source};
use model_base::NoMemory;
use std::alloc::Global;

/// A source of given bytes, which gives up to a number of them in each call. Its reads are numbered from 1, and those
/// of a list fail.
#[derive(Drop)]
pub struct MemSource {
    bytes: Vec<u8>,
    at: usize,
    piece: usize,
    calls: Calls,
    ghost within: { at ≤ vec_len bytes },
    ghost gives: { 0 < piece },
}

impl MemSource {
    ghost use Rattle.base_devices.specs.Listed.{fresh};
    ghost use Rattle.base_devices.specs.MemSource.{left_of, source_piece, source_calls};

    /// A source of `bytes` that gives at most `piece` of them a call, and whose reads with a number in `fails` fail.
    /// It keeps copies of both, and fails if there is no memory for them.
    pub fn new(alloc: Global, bytes: &[u8], piece: usize, fails: &[u64]) -> Result<Self, NoMemory>
        requires { 0 < piece }
        ensures left { IfOk result (λ s. left_of s ≡ bytes.now) }
        ensures piece { IfOk result (λ s. source_piece s ≡ piece) }
        ensures calls { IfOk result (λ s. source_calls s ≡ fresh fails.now) }
    {
        Ok(MemSource {
            bytes: bytes.to_vec(alloc)?,
            at: 0,
            piece,
            calls: Calls::new(alloc, fails)?,
        })
    }
}

impl Source for MemSource {
    ghost use Rattle.base_devices.specs.Faults.{HasCause};
    ghost use Rattle.base_devices.specs.Listed.{FailsAsListed};
    ghost use Rattle.base_devices.specs.MemSource.{left_of, source_piece, gives_of, source_calls};
    ghost use Rattle.base_devices.specs.Streams.{Reads};

    ghost left = { λ s. Some (left_of s) };

    ghost faults = { λ s. (source_calls s).faults };

    /// How many reads have failed: those of the list.
    fn faults(&self) -> u64 {
        self.calls.faults()
    }

    /// It gives as many bytes as it may. A read that fails leaves the buffer as it was.
    fn read(&mut self, buf: &mut [u8]) -> Result<usize, Failed>
        ensures bytes { Reads (Some (left_of self.old)) (Some (left_of self.new)) result buf.new }
        // What the buffer has after these bytes is as it was. No clause of `Source` says so, since of standard input
        // nobody knows it.
        ensures rest { IfOk result (λ n. drop n buf.new ≡ drop n buf.old) }
        ensures failed { OnErr result (buf.new ≡ buf.old) }
        ensures count { IfOk result (λ n. n ≡ gives_of self.old (length buf.old)) }
        ensures piece { source_piece self.new ≡ source_piece self.old }
        ensures listed { FailsAsListed (source_calls self.old) (source_calls self.new) false result }
        ensures cause { HasCause (source_calls self.old).faults (source_calls self.new).faults result }
    {
        self.calls.begin()?;
        let rest = &self.bytes[self.at..];
        let n = rest.len().min(buf.len()).min(self.piece);
        buf[..n].copy_from_slice(&rest[..n]);
        self.at += n;
        Ok(n)
    }
}
