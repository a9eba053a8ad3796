//! How many calls of several disks have failed.

ghost use Rattle.std.specs.Prelude.{◌≡◌};
ghost use Rattle.base_devices.specs.Faults.{count_in_all};

use crate::Disk;

/// How many calls of these disks have failed in all, or the greatest `u64` where they are more.
pub fn count_faults<D: Disk>(disks: &[D]) -> u64
    ensures { result ≡ count_in_all D.faults disks.now }
{
    let mut count = 0u64;
    for disk in disks {
        count = count.saturating_add(disk.faults());
    }
    count
}
