//! A disk that holds one file. Bytes are appended to it, and it may be cut, and be written again from the start.

ghost use Rattle.std.specs.Prelude.{◌≡◌, ℕ, ◌+◌, ◌<◌, ◌≤◌, ◌^◌, List, length, drop, Option, IfSome, IfOk, OnOk};
ghost use Rattle.base_devices.specs.Disk.{Disk as State, IsDisk, Appended, GrowsBy, Rewound, Cut, Synced, ReadsAt};
ghost use Rattle.base_devices.specs.Disk.{CountsNow, IsOnlyNow, Told, TimePasses};
ghost use Rattle.base_devices.specs.Faults.{HasCause};

use crate::Failed;

/// A disk. Its content has at most `2^63 - 1` bytes.
///
/// It has a place, where the next append writes. When the disk is opened, the place is the content's end.
/// [`Disk::rewind`] sets it to the start, and [`Disk::cut`] to the length that it leaves.
pub trait Disk {
    /// The content, how much of it is safe, how far writes may have reached, and the place, if the disk tells them.
    ghost told: { Self → Option State };

    /// How many bytes appends have added, counted on from some number; from 0 once the disk was rewound, and from its
    /// length once it was cut. This is known also of a disk that doesn't tell its content, so that no sum of lengths
    /// overflows.
    ghost added: { Self → ℕ };

    /// The moment at which the disk is. Calls never turn it back.
    ghost moment: { Self → ℕ };

    /// The first moment for which it still tells what a crash might have left.
    ghost from: { Self → ℕ };

    /// What a crash might have left at some moment between a given one and now, between calls or in the middle of one.
    ghost since: { Self → ℕ → List ℕ → Type 0 };

    /// How many calls have failed.
    ghost faults: { Self → ℕ };

    /// How many calls have failed. The count never falls, and stops at the greatest `u64`.
    fn faults(&self) -> u64
        ensures { result ≡ faults self.now };

    /// How many bytes the content has. This changes nothing.
    fn len(&mut self) -> Result<u64, Failed>
        ensures len { IfSome (told self.old) (λ d. IfOk result (λ n. n ≡ length d.content)) }
        ensures small { IfOk result (λ n. n < 2 ^ 63) }
        ensures same { told self.new ≡ told self.old }
        ensures adds_none { added self.new ≡ added self.old }
        // Moments only go on. From some moment on the disk tells what a crash might have left then, and what it has
        // forgotten it doesn't tell again.
        ensures time { TimePasses told moment from since self.old self.new }
        // Each call of a device has such a clause: one that fails counts exactly one fault, until the count is at its
        // greatest, and one that works leaves the count as it was. So whoever compares the count before and after knows
        // how many calls failed.
        ensures cause { HasCause (faults self.old) (faults self.new) result };

    /// Copies the content from the place `at` on to the start of `buf`, as many bytes as both have, and answers how
    /// many: 0 at the content's end and after it. It changes nothing of the disk.
    fn read(&mut self, at: u64, buf: &mut [u8]) -> Result<usize, Failed>
        ensures bytes { IfSome (told self.old) (λ d. ReadsAt d at buf.new result) }
        ensures at_most { IfOk result (λ n. n ≤ length buf.new) }
        // What the buffer has after these bytes is as it was. After a call that failed its bytes may be any.
        ensures rest { IfOk result (λ n. drop n buf.new ≡ drop n buf.old) }
        ensures small { IfOk result (λ n. 0 < n → at + n < 2 ^ 63) }
        ensures same { told self.new ≡ told self.old }
        ensures adds_none { added self.new ≡ added self.old }
        ensures time { TimePasses told moment from since self.old self.new }
        ensures cause { HasCause (faults self.old) (faults self.new) result };

    /// Writes `piece` at the place, and moves the place to the piece's end. At the content's end this adds the piece,
    /// but after a rewind the piece overwrites old bytes. If it fails, the place and the bytes before it stay, and the
    /// bytes after it may be any. Either way no byte from the place on is safe any more: until the next sync a crash
    /// may leave any bytes after those that are safe, as far as this append wrote or tried to write.
    fn append(&mut self, piece: &[u8]) -> Result<(), Failed>
        ensures appended { Told (told self.old) (told self.new) (λ old new. Appended old new piece.now result) }
        // By this count no sum of lengths overflows. A rewind and a cut set it anew.
        ensures added { GrowsBy (added self.old) (added self.new) (length piece.now) result }
        ensures time { TimePasses told moment from since self.old self.new }
        ensures cause { HasCause (faults self.old) (faults self.new) result };

    /// Sets the place to the start, so that appends overwrite the content. It changes nothing else: what was safe
    /// stays safe until the next append, and the bytes that no append has overwritten yet stay after the place.
    /// If it fails, the place may be the one from before or the start.
    fn rewind(&mut self) -> Result<(), Failed>
        ensures rewound { Told (told self.old) (told self.new) (λ old new. Rewound old new result) }
        // The sum of what was added begins at 0 again.
        ensures counted { OnOk result (added self.new ≡ 0) }
        ensures time { TimePasses told moment from since self.old self.new }
        ensures cause { HasCause (faults self.old) (faults self.new) result };

    /// Cuts the content to its first `at` bytes, and sets the place to their end. Those of them that were safe stay
    /// safe. Until the next sync a crash may leave any bytes after them, as far as writes reached before. If it fails,
    /// the disk may be as it was, or cut.
    fn cut(&mut self, at: u64) -> Result<(), Failed>
        requires there { IfSome (told self.old) (λ d. at ≤ length d.content) }
        ensures cut { Told (told self.old) (told self.new) (λ old new. Cut old new at result) }
        // The sum of what was added begins at this length again.
        ensures counted { OnOk result (added self.new ≡ at) }
        ensures time { TimePasses told moment from since self.old self.new }
        ensures cause { HasCause (faults self.old) (faults self.new) result };

    /// Makes the content safe: from then on a crash leaves the content and nothing else. The place stays. If it fails,
    /// it changes nothing.
    fn sync(&mut self) -> Result<(), Failed>
        ensures synced { Told (told self.old) (told self.new) (λ old new. Synced old new result) }
        ensures adds_none { added self.new ≡ added self.old }
        ensures time { TimePasses told moment from since self.old self.new }
        ensures cause { HasCause (faults self.old) (faults self.new) result };

    /// What the disk tells is a disk in the sense of `IsDisk`.
    ghost is_disk: { (disk : Self) → IfSome (told disk) IsDisk };

    /// An append past the greatest length fails.
    ghost added_small: { (disk : Self) → added disk < 2 ^ 63 };

    /// What a crash may leave now is also what it might have left since an earlier moment.
    ghost counts_now: { (disk : Self) → CountsNow (told disk) (from disk) (moment disk) (since disk) };

    /// Since this very moment a crash might have left nothing else.
    ghost only_now: { (disk : Self) → IsOnlyNow (told disk) (from disk) (moment disk) (since disk) };
}
