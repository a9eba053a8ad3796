//! The bytes of a text that wait to be written.

ghost use Rattle.std.specs.Prelude.{◌≡◌, ℕ, List, [], Some, is_none, IfOk, IfSome};
ghost use Rattle.program_printing.specs.Printing.{IsPrinted, Prints, Puts};

use crate::PrintError;
use base_devices::{Sink, write_all};
use model_base::NoMemory;
use std::alloc::Global;
use std::marker::Model;

/// How many bytes wait at most.
pub const ROOM: usize = 65_536;

/// The end of a text that a sink hasn't taken yet. Contracts see the bytes that wait, or `None` once a write of them
/// failed.
///
/// Once a write has failed, nothing more is written, and all that is put is dropped. So a text can be put word by word,
/// and whether it was printed is seen at its end.
#[derive(Drop)]
pub struct Printer {
    waiting: Vec<u8>,
    failed: bool,
}

impl Model for Printer {
    ghost use Rattle.std.specs.Prelude.{◌≤◌, ℕ, List, Option, Some, None, if◌then◌else◌, vec_len, vec_capacity};
    ghost use Rattle.program_printing.specs.declared.printer.TheConstants.{ROOM};

    ghost Value = { Option (List ℕ) };

    ghost view = { λ p. if p.failed then None else Some p.waiting.items };

    ghost invariant = { λ p. (vec_len p.waiting ≤ ROOM) × (ROOM ≤ vec_capacity p.waiting) };
}

impl Printer {
    /// A printer at the start of a text. This takes all the memory that it ever has.
    pub fn new(alloc: Global) -> Result<Printer, NoMemory>
        ensures { IfOk result (λ printer. printer ≡ Some []) }
    {
        Ok(Printer {
            waiting: Vec::with_capacity(alloc, ROOM)?,
            failed: false,
        })
    }

    /// Whether a write failed. Then nothing more need be put.
    pub fn has_failed(&self) -> bool
        ensures { result ≡ is_none self.now }
    {
        self.failed
    }

    /// Puts the next bytes of the text. Where there is no room for them, what waits is written first.
    pub fn put<K: Sink>(&mut self, sink: &mut K, bytes: &[u8])
        ensures { Puts ⟦<K as Sink>⟧ self.old sink.old self.new sink.new bytes.now }
    {
        if bytes.len() > ROOM - self.waiting.len() {
            self.write_waiting(sink);
        }
        self.hold(sink, bytes);
    }

    /// The end of the text: what waits is written.
    pub fn finish<K: Sink>(mut self, sink: &mut K) -> Result<(), PrintError>
        ensures { (start : K) (text : List ℕ) → IsPrinted ⟦<K as Sink>⟧ start self sink.old text
            → Prints ⟦<K as Sink>⟧ start sink.new result text }
    {
        self.write_waiting(sink);
        if self.failed {
            Err(PrintError::Failed)
        } else {
            Ok(())
        }
    }

    /// Has the bytes wait. If they are more than there is room for, they are written at once.
    fn hold<K: Sink>(&mut self, sink: &mut K, bytes: &[u8])
        ensures { Puts ⟦<K as Sink>⟧ self.old sink.old self.new sink.new bytes.now }
    {
        if self.failed {
            return;
        }
        if bytes.len() > ROOM - self.waiting.len() {
            return self.write_through(sink, bytes);
        }
        match self.waiting.extend_from_slice(bytes) {
            Ok(()) => {}
            Err(_) => unreachable!(),
        }
    }

    /// Writes what waits, and then the bytes.
    fn write_through<K: Sink>(&mut self, sink: &mut K, bytes: &[u8])
        ensures { Puts ⟦<K as Sink>⟧ self.old sink.old self.new sink.new bytes.now }
    {
        self.write_waiting(sink);
        if self.failed {
            return;
        }
        self.failed = write_all(sink, bytes).is_err();
    }

    /// Writes what waits.
    fn write_waiting<K: Sink>(&mut self, sink: &mut K)
        ensures puts { Puts ⟦<K as Sink>⟧ self.old sink.old self.new sink.new [] }
        ensures none { IfSome self.new (λ waiting. waiting ≡ []) }
    {
        if self.failed {
            return;
        }
        self.failed = write_all(sink, &self.waiting).is_err();
        self.waiting.clear();
    }
}
