//! A sink in memory.

ghost use Rattle.std.specs.Prelude.{◌≡◌, ◌<◌, ◌≤◌, length, [], Some, vec_len, vec_capacity, IfOk};

use crate::calls::Calls;
use crate::{Failed, Sink};
use model_base::NoMemory;
use std::alloc::Global;

/// A sink that keeps what it takes, up to a number of bytes for each call and up to another in all. Its writes are
/// numbered from 1, and those of a list fail.
#[derive(Drop)]
pub struct MemSink {
    bytes: Vec<u8>,
    capacity: usize,
    piece: usize,
    calls: Calls,
    ghost within: { vec_len bytes ≤ capacity },
    ghost room: { capacity ≤ vec_capacity bytes },
    ghost takes: { 0 < piece },
}

impl MemSink {
    ghost use Rattle.base_devices.specs.Listed.{fresh};
    ghost use Rattle.base_devices.specs.MemSink.{taken_of, sink_capacity, sink_piece, sink_calls};

    /// A sink that takes at most `piece` bytes a call and `capacity` in all, and whose writes with a number in `fails`
    /// fail. Its room is allocated here: this fails if there is no memory for it.
    pub fn new(
        alloc: Global,
        capacity: usize,
        piece: usize,
        fails: &[u64],
    ) -> Result<Self, NoMemory>
        requires { 0 < piece }
        ensures taken { IfOk result (λ s. taken_of s ≡ []) }
        ensures capacity { IfOk result (λ s. sink_capacity s ≡ capacity) }
        ensures piece { IfOk result (λ s. sink_piece s ≡ piece) }
        ensures calls { IfOk result (λ s. sink_calls s ≡ fresh fails.now) }
    {
        Ok(MemSink {
            bytes: Vec::with_capacity(alloc, capacity)?,
            capacity,
            piece,
            calls: Calls::new(alloc, fails)?,
        })
    }

    /// All the bytes that were taken.
    pub fn taken(&self) -> &[u8]
        ensures { result.now ≡ taken_of self.now }
    {
        &self.bytes
    }
}

impl Sink for MemSink {
    ghost use Rattle.base_devices.specs.Faults.{HasCause};
    ghost use Rattle.base_devices.specs.Listed.{FailsAsListed};
    ghost use Rattle.base_devices.specs.MemSink.{taken_of, sink_capacity, sink_piece, takes_of, is_full_for, sink_calls};
    ghost use Rattle.base_devices.specs.Streams.{Writes};

    ghost taken = { λ s. Some (taken_of s) };

    ghost faults = { λ s. (sink_calls s).faults };

    /// How many writes have failed: those of the list, and those for which it was full.
    fn faults(&self) -> u64 {
        self.calls.faults()
    }

    /// It takes as many bytes as it may, and fails exactly at the listed calls, and when it is full and the piece isn't
    /// empty.
    fn write(&mut self, piece: &[u8]) -> Result<usize, Failed>
        ensures bytes { Writes (Some (taken_of self.old)) (Some (taken_of self.new)) result piece.now }
        ensures count { IfOk result (λ n. n ≡ takes_of self.old (length piece.now)) }
        ensures capacity { sink_capacity self.new ≡ sink_capacity self.old }
        ensures piece { sink_piece self.new ≡ sink_piece self.old }
        ensures listed { FailsAsListed (sink_calls self.old) (sink_calls self.new)
            (is_full_for self.old (length piece.now)) result }
        ensures cause { HasCause (sink_calls self.old).faults (sink_calls self.new).faults result }
    {
        self.calls.begin()?;
        let room = self.capacity - self.bytes.len();
        if room == 0 && !piece.is_empty() {
            return Err(self.calls.fail());
        }
        let n = piece.len().min(room).min(self.piece);
        match self.bytes.extend_from_slice(&piece[..n]) {
            Ok(()) => Ok(n),
            Err(_) => unreachable!(),
        }
    }
}
