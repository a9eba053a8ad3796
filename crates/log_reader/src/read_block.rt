//! Reading a block from the disk.

ghost use Rattle.std.specs.Prelude.{◌≡◌, ◌+◌, ◌^◌, ◌<◌, ◌≤◌, length, IfOk, IfErr, IfSome, OnOk};
ghost use Rattle.base_devices.specs.Faults.{Rose};
ghost use Rattle.log_reader.specs.Blocks.{ReadsBlock};

use base_devices::ReadAt;
use log_block::BLOCK_LEN;

/// Reads the block that begins at the offset `start` into the first bytes of `block`, as far as the disk has it, and
/// answers how many bytes it read. For a fault it answers the disk's count of faults. No read that failed is tried
/// again.
pub fn read_block<R: ReadAt>(disk: &mut R, start: u64, block: &mut [u8]) -> Result<usize, u64>
    requires room { length block.old ≡ BLOCK_LEN }
    requires small { start < 2 ^ 63 }
    ensures bytes { IfSome (R.held disk.old) (λ file. IfOk result (ReadsBlock file start block.new)) }
    ensures in_block { IfOk result (λ len. len ≤ BLOCK_LEN) }
    ensures in_file { IfOk result (λ len. start + len < 2 ^ 63) }
    ensures worked { OnOk result (R.failures disk.new ≡ R.failures disk.old) }
    ensures fault { IfErr result (λ count. Rose (R.failures disk.old) count × (count ≡ R.failures disk.new)) }
    ensures disk { R.only_reads disk.old disk.new }
{
    let mut len = 0;
    // The first `len` bytes of `block` are the disk's from `start` on, and no read has failed.
    while len < block.len() {
        let Ok(more) = disk.read_at(start + len as u64, &mut block[len..]) else {
            return Err(disk.failure_count());
        };
        if more == 0 {
            break;
        }
        len += more;
    }
    Ok(len)
}
