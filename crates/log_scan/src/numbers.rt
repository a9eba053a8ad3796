//! The number that a log's first header has.

ghost use Rattle.std.specs.Prelude.{◌≡◌, IfOk, IfErr, IfSome, OnOk};
ghost use Rattle.base_devices.specs.Faults.{Rose};
ghost use Rattle.log_reader.specs.Opens.{IsOpenError};
ghost use Rattle.log_scan.specs.Fronts as fronts;
ghost use Rattle.log_scan.specs.Resuming as resuming;

use crate::front::read_front;
use base_devices::ReadAt;
use byteorder::{ByteOrder, LittleEndian};
use log_reader::{LogReader, OpenError};
use std::alloc::Global;

/// How many bytes a header with a number has.
const HEADER_LEN: usize = 11;

/// The number in the first header of the log that a disk holds, if the header's kind is one of a log with a number, 5
/// to 8 (`kRecyclableFullType` and so on of RocksDB's db/log_format.h). Nothing else is looked at, so the log may be
/// damaged there. For a fault it answers the disk's count of faults.
pub fn first_number<R: ReadAt>(disk: &mut R) -> Result<Option<u32>, u64>
    ensures number { IfSome (R.held disk.old) (λ file. IfOk result (λ number. number ≡ fronts.first_number file)) }
    ensures worked { OnOk result (R.failures disk.new ≡ R.failures disk.old) }
    ensures fault { IfErr result (λ count. Rose (R.failures disk.old) count × (count ≡ R.failures disk.new)) }
    ensures disk { R.only_reads disk.old disk.new }
{
    let mut header = [0; HEADER_LEN];
    let len = read_front(disk, 0, &mut header)?;
    if len < HEADER_LEN || header[6] < 5 || header[6] > 8 {
        return Ok(None);
    }
    Ok(Some(LittleEndian::read_u32(&header[7..])))
}

/// The number in the first header, if a fragment reads there with it. So a damaged byte doesn't make a log one with a
/// number. The error is `Fault` where the disk failed, and `NoMemory` where there was no memory for a block.
pub fn own_number<R: ReadAt>(alloc: Global, disk: &mut R) -> Result<Option<u32>, OpenError>
    ensures number { IfSome (R.held disk.old) (λ file. IfOk result (λ number. number ≡ resuming.own_number file)) }
    ensures worked { OnOk result (R.failures disk.new ≡ R.failures disk.old) }
    ensures error { IfErr result (IsOpenError (R.failures disk.old) (R.failures disk.new)) }
    ensures disk { R.only_reads disk.old disk.new }
{
    match first_number(disk) {
        Ok(None) => Ok(None),
        Ok(Some(number)) => number_if_it_reads(alloc, disk, number),
        Err(count) => Err(OpenError::Fault { count }),
    }
}

/// This number, if a fragment reads with it at the log's start.
fn number_if_it_reads<R: ReadAt>(
    alloc: Global,
    disk: &mut R,
    number: u32,
) -> Result<Option<u32>, OpenError>
    ensures number { IfSome (R.held disk.old) (λ file. IfOk result (λ n. n ≡ resuming.if_it_reads file number)) }
    ensures worked { OnOk result (R.failures disk.new ≡ R.failures disk.old) }
    ensures error { IfErr result (IsOpenError (R.failures disk.old) (R.failures disk.new)) }
    ensures disk { R.only_reads disk.old disk.new }
{
    let mut reader = LogReader::open(alloc, Some(number))?;
    match reader.is_damaged_at(0, disk) {
        Ok(true) => Ok(None),
        Ok(false) => Ok(Some(number)),
        Err(count) => Err(OpenError::Fault { count }),
    }
}
