//! What can be read from any place.

ghost use Rattle.std.specs.Prelude.{◌≡◌, ◌+◌, ◌<◌, ◌≤◌, ◌^◌, ℕ, List, length, drop, Option, IfSome, IfOk};
ghost use Rattle.base_devices.specs.Disk.{BytesAt};
ghost use Rattle.base_devices.specs.Faults.{HasCause};

use crate::{Disk, Failed};

/// A file that can be read from any place. Reading changes nothing of it.
pub trait ReadAt {
    /// The content, if it is known.
    ghost held: { Self → Option (List ℕ) };

    /// How many calls have failed.
    ghost failures: { Self → ℕ };

    /// The second value is the first one after calls that only read.
    ghost only_reads: { Self → Self → Type 0 };

    /// How many calls have failed. The count never falls, and stops at the greatest `u64`.
    fn failure_count(&self) -> u64
        ensures { result ≡ failures self.now };

    /// Copies the content from the place `at` on to the start of `buf`, as many bytes as both have, and answers how
    /// many: 0 at the content's end and after it.
    fn read_at(&mut self, at: u64, buf: &mut [u8]) -> Result<usize, Failed>
        ensures bytes { IfSome (held self.old) (λ content. BytesAt content at buf.new result) }
        ensures at_most { IfOk result (λ n. n ≤ length buf.new) }
        // What the buffer has after these bytes is as it was. After a call that failed its bytes may be any.
        ensures rest { IfOk result (λ n. drop n buf.new ≡ drop n buf.old) }
        ensures small { IfOk result (λ n. 0 < n → at + n < 2 ^ 63) }
        ensures same { held self.new ≡ held self.old }
        ensures cause { HasCause (failures self.old) (failures self.new) result }
        ensures only { only_reads self.old self.new };

    /// No call changes nothing.
    ghost reads_none: { (file : Self) → only_reads file file };

    /// Two stretches of reading, one after the other, are one.
    ghost reads_on: { (a b c : Self) → only_reads a b → only_reads b c → only_reads a c };

    /// Reading keeps the content.
    ghost reads_keep: { (a b : Self) → only_reads a b → held b ≡ held a };

    /// The count of faults doesn't fall.
    ghost reads_count: { (a b : Self) → only_reads a b → failures a ≤ failures b };
}

impl<D: Disk> ReadAt for D {
    ghost use Rattle.base_devices.specs.OnlyReads.{OnlyReads, content_of, none_read, more_read, content_kept, count_goes_on};

    ghost held = { λ d. content_of (D.told d) };

    ghost failures = { λ d. D.faults d };

    ghost only_reads = { λ a b. OnlyReads ⟦<D as Disk>⟧ a b };

    ghost reads_none = { λ d. none_read ⟦<D as Disk>⟧ d };

    ghost reads_keep = { λ a b only. content_kept ⟦<D as Disk>⟧ a b only };

    ghost reads_on = { λ a b c first second. more_read ⟦<D as Disk>⟧ a b c first second };

    ghost reads_count = { λ a b only. count_goes_on ⟦<D as Disk>⟧ a b only };

    fn failure_count(&self) -> u64 {
        self.faults()
    }

    fn read_at(&mut self, at: u64, buf: &mut [u8]) -> Result<usize, Failed> {
        self.read(at, buf)
    }
}
