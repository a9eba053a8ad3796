//! The first bytes from a place on.

ghost use Rattle.std.specs.Prelude.{◌≡◌, ◌+◌, ◌<◌, ◌≤◌, ◌^◌, length, IfOk, IfErr, IfSome, OnOk};
ghost use Rattle.base_devices.specs.Faults.{Rose};
ghost use Rattle.log_scan.specs.Fronts.{IsFront};

use base_devices::ReadAt;

/// Reads the bytes of a file from the place `at` on into the first bytes of `buffer`, as many as both have, and answers
/// how many. For a fault it answers the disk's count of faults. No read that failed is tried again.
pub fn read_front<R: ReadAt>(disk: &mut R, at: u64, buffer: &mut [u8]) -> Result<usize, u64>
    ensures bytes { IfSome (R.held disk.old) (λ file. IfOk result (IsFront file at buffer.new)) }
    ensures in_buffer { IfOk result (λ len. len ≤ length buffer.new) }
    // So a place at which there is a byte is small, also where the disk tells nothing.
    ensures small { IfOk result (λ len. 0 < len → at + len < 2 ^ 63) }
    ensures same_len { length buffer.new ≡ length buffer.old }
    ensures worked { OnOk result (R.failures disk.new ≡ R.failures disk.old) }
    ensures fault { IfErr result (λ count. Rose (R.failures disk.old) count × (count ≡ R.failures disk.new)) }
    ensures disk { R.only_reads disk.old disk.new }
{
    let mut len = 0;
    // The first `len` bytes of `buffer` are the disk's from `at` on, and no read has failed.
    while len < buffer.len() {
        let Ok(more) = disk.read_at(at + len as u64, &mut buffer[len..]) else {
            return Err(disk.failure_count());
        };
        if more == 0 {
            break;
        }
        len += more;
    }
    Ok(len)
}
