//! Reads of one of several logs.

ghost use Rattle.std.specs.Prelude.{◌≡◌, ◌+◌, ◌^◌, ◌<◌, ◌≤◌, [], ◌∷◌, ◌++◌, length, drop, map, IfOk, IfSome};
ghost use Rattle.std.specs.List.{AllZip};
ghost use Rattle.base_devices.specs.Disk.{BytesAt};
ghost use Rattle.base_devices.specs.Faults.{HasCause};
ghost use Rattle.log_writer.specs.Words.{disk_of, len_of};
ghost use Rattle.log_writer.specs.Reads.{WasRead, faults_in, held_at};

use crate::LogWriter;
use base_devices::{Disk, Failed, ReadAt};

/// Reads, from the place `at` on, the log that is the `which`-th of those that are full and the one after them, counted
/// from 0. There is nothing to read after that one.
pub(crate) fn read_in<D: Disk>(
    full: &mut [LogWriter<D>],
    current: &mut LogWriter<D>,
    which: usize,
    at: u64,
    buf: &mut [u8],
) -> Result<usize, Failed>
    ensures bytes { IfSome (held_at (full.old ++ current.old ∷ []) which) (λ file. BytesAt file at buf.new result) }
    ensures at_most { IfOk result (λ n. n ≤ length buf.new) }
    ensures rest { IfOk result (λ n. drop n buf.new ≡ drop n buf.old) }
    ensures small { IfOk result (λ n. 0 < n → at + n < 2 ^ 63) }
    ensures full { AllZip WasRead full.old full.new }
    ensures current { WasRead current.old current.new }
    ensures lens { map len_of full.new ≡ map len_of full.old }
    ensures cause { HasCause (faults_in (full.old ++ current.old ∷ []))
        (faults_in (full.new ++ current.new ∷ [])) result }
{
    if which < full.len() {
        let log = &mut full[which];
        log.read_at(at, buf)
    } else {
        read_current(current, which - full.len(), at, buf)
    }
}

/// Reads the log from the place `at` on, if it is the one with the number 0. After it there is nothing to read.
fn read_current<D: Disk>(
    current: &mut LogWriter<D>,
    which: usize,
    at: u64,
    buf: &mut [u8],
) -> Result<usize, Failed>
    ensures bytes { IfSome (held_at (current.old ∷ []) which) (λ file. BytesAt file at buf.new result) }
    ensures at_most { IfOk result (λ n. n ≤ length buf.new) }
    ensures rest { IfOk result (λ n. drop n buf.new ≡ drop n buf.old) }
    ensures small { IfOk result (λ n. 0 < n → at + n < 2 ^ 63) }
    ensures current { WasRead current.old current.new }
    ensures cause { HasCause (D.faults (disk_of current.old)) (D.faults (disk_of current.new)) result }
{
    if which == 0 {
        current.read_at(at, buf)
    } else {
        Ok(0)
    }
}
