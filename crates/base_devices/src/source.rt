//! Where bytes come from.

ghost use Rattle.std.specs.Prelude.{◌≡◌, ℕ, List, Option};
ghost use Rattle.base_devices.specs.Faults.{HasCause};
ghost use Rattle.base_devices.specs.Streams.{Reads};

use crate::Failed;

/// A source of bytes.
pub trait Source {
    /// The bytes that are left to be read, if the source tells them.
    ghost left: { Self → Option (List ℕ) };

    /// How many calls have failed.
    ghost faults: { Self → ℕ };

    /// How many calls have failed. The count never falls, and stops at the greatest `u64`.
    fn faults(&self) -> u64
        ensures { result ≡ faults self.now };

    /// Moves the first of the bytes that are left to the start of `buf`, and answers how many. The answer 0 for a
    /// buffer that isn't empty means that no bytes are left. A read that fails takes nothing.
    fn read(&mut self, buf: &mut [u8]) -> Result<usize, Failed>
        ensures bytes { Reads (left self.old) (left self.new) result buf.new }
        ensures cause { HasCause (faults self.old) (faults self.new) result };
}
