//! Bytes in memory as a file to read.

ghost use Rattle.std.specs.Prelude.{◌≡◌, ◌<◌, ◌^◌, length};

use crate::{Failed, ReadAt};

/// Bytes in memory as a file to read: no read of it fails.
#[derive(Drop)]
pub struct SliceDisk<'a> {
    bytes: &'a [u8],
    ghost small: { length bytes.now < 2 ^ 63 },
}

impl<'a> SliceDisk<'a> {
    ghost use Rattle.base_devices.specs.SliceDisk.{slice_bytes};

    /// A file with these bytes.
    pub fn new(bytes: &'a [u8]) -> SliceDisk<'a>
        ensures { slice_bytes result ≡ bytes.now }
    {
        SliceDisk { bytes }
    }
}

impl<'a> ReadAt for SliceDisk<'a> {
    ghost use Rattle.std.specs.Prelude.{Some, refl};
    ghost use Rattle.base_devices.specs.SliceDisk.{slice_bytes, slice_reads_on, slice_reads_keep, slice_counts_none};

    ghost held = { λ d. Some (slice_bytes d) };

    ghost failures = { λ _. 0 };

    ghost only_reads = { λ a b. b ≡ a };

    ghost reads_none = { λ _. refl };

    ghost reads_on = { slice_reads_on };

    ghost reads_keep = { slice_reads_keep };

    ghost reads_count = { slice_counts_none };

    /// It is always 0.
    fn failure_count(&self) -> u64 {
        0
    }

    /// This never fails.
    fn read_at(&mut self, at: u64, buf: &mut [u8]) -> Result<usize, Failed> {
        let len = self.bytes.len();
        if at >= len as u64 {
            return Ok(0);
        }
        let rest = &self.bytes[at as usize..];
        let n = rest.len().min(buf.len());
        buf[..n].copy_from_slice(&rest[..n]);
        Ok(n)
    }
}
