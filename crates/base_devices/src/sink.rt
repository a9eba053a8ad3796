//! Where bytes go.

ghost use Rattle.std.specs.Prelude.{◌≡◌, ℕ, List, Option};
ghost use Rattle.base_devices.specs.Faults.{HasCause};
ghost use Rattle.base_devices.specs.Streams.{Writes, WritesAll};

use crate::Failed;

/// A sink of bytes.
pub trait Sink {
    /// All the bytes that it has taken, if the sink tells them.
    ghost taken: { Self → Option (List ℕ) };

    /// How many calls have failed.
    ghost faults: { Self → ℕ };

    /// How many calls have failed. The count never falls, and stops at the greatest `u64`.
    fn faults(&self) -> u64
        ensures { result ≡ faults self.now };

    /// Takes a prefix of `piece`, and answers how many bytes: at least one, unless the piece is empty. A sink that
    /// could take none of them fails. A write that fails takes nothing.
    fn write(&mut self, piece: &[u8]) -> Result<usize, Failed>
        ensures bytes { Writes (taken self.old) (taken self.new) result piece.now }
        ensures cause { HasCause (faults self.old) (faults self.new) result };
}

/// Writes all of `piece`, in as many writes as it takes. At the first write that fails it fails too, and then the sink
/// has taken a prefix of the piece, but not all.
pub fn write_all<K: Sink>(sink: &mut K, piece: &[u8]) -> Result<(), Failed>
    // At `Ok` the whole piece was taken, at `Err` a prefix of it that isn't the whole.
    ensures bytes { WritesAll (K.taken sink.old) (K.taken sink.new) result piece.now }
    ensures cause { HasCause (K.faults sink.old) (K.faults sink.new) result }
{
    let mut at = 0;
    while at < piece.len() {
        at += sink.write(&piece[at..])?;
    }
    Ok(())
}
