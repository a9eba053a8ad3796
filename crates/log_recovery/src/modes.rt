//! Which ends of recovery a mode accepts.

ghost use Rattle.std.specs.Prelude.{◌≡◌, ◌↔◌, IsTrue, IfOk, IfErr, IfSome, OnOk, drop, true};
ghost use Rattle.base_devices.specs.Faults.{Rose};
ghost use Rattle.model_base.specs.Reading.{are_zeros};
ghost use Rattle.log_recovery.specs.declared.modes.Mode.TheVariants.{Point};
ghost use Rattle.log_recovery.specs.Modes.{Accepts, IsWholeEnd, IsCutOff, PassesFile};

use crate::recovery::End;
use base_devices::ReadAt;
use byteorder::{ByteOrder, LittleEndian};
use log_block::{BLOCK_LEN, header_len};
use model_base::{Damage, EndReason};

/// Which ends of a log recovery accepts. Any other end is damage.
#[derive(Clone, Copy, Debug, PartialEq, Eq)]
pub enum Mode {
    /// Any end at all: the records before it are recovered.
    Point,
    /// The end of a whole log, and one where the last write was cut off.
    Tail,
    /// The end of a whole log.
    Absolute,
}

/// Whether the mode accepts this end, which recovery found for the log that the disk holds. For a fault of the disk it
/// answers the disk's count of faults.
pub fn accepts<R: ReadAt>(
    disk: &mut R,
    number: Option<u32>,
    mode: Mode,
    end: End,
) -> Result<bool, u64>
    ensures decided { IfSome (R.held disk.old) (λ file. IfOk result
        (λ is. IsTrue is ↔ Accepts number mode file end.at end.why)) }
    ensures any { IfOk result (λ is. mode ≡ Point → is ≡ true) }
    ensures worked { OnOk result (R.failures disk.new ≡ R.failures disk.old) }
    ensures fault { IfErr result (λ count. Rose (R.failures disk.old) count × (count ≡ R.failures disk.new)) }
    ensures disk { R.only_reads disk.old disk.new }
{
    match mode {
        Mode::Point => Ok(true),
        Mode::Tail => {
            if is_whole_end(end.why) {
                Ok(true)
            } else {
                is_cut_off(disk, number, end)
            }
        }
        Mode::Absolute => Ok(is_whole_end(end.why)),
    }
}

/// Whether a log that ends for this reason ends as a whole one does.
fn is_whole_end(why: EndReason) -> bool
    ensures { IsTrue result ↔ IsWholeEnd why }
{
    match why {
        EndReason::Clean => true,
        EndReason::Broken(Damage::OldLog(_)) => true,
        _ => false,
    }
}

/// Whether the log ends there because its last write was cut off.
fn is_cut_off<R: ReadAt>(disk: &mut R, number: Option<u32>, end: End) -> Result<bool, u64>
    ensures decided { IfSome (R.held disk.old) (λ file. IfOk result
        (λ is. IsTrue is ↔ IsCutOff number file end.at end.why)) }
    ensures worked { OnOk result (R.failures disk.new ≡ R.failures disk.old) }
    ensures fault { IfErr result (λ count. Rose (R.failures disk.old) count × (count ≡ R.failures disk.new)) }
    ensures disk { R.only_reads disk.old disk.new }
{
    match end.why {
        EndReason::Unfinished => Ok(true),
        EndReason::Broken(Damage::ShortHeader) => Ok(true),
        EndReason::Broken(Damage::BadLength) => passes_file(disk, number, end.at),
        EndReason::Broken(Damage::Zeros) => are_zeros_from(disk, end.at),
        _ => Ok(false),
    }
}

// No header is longer than this.
const HEADER_ROOM: usize = 11;

/// Whether the fragment at the place `at` goes on past the end of the file, and not past the end of its block.
fn passes_file<R: ReadAt>(disk: &mut R, number: Option<u32>, at: u64) -> Result<bool, u64>
    ensures decided { IfSome (R.held disk.old) (λ file. IfOk result (λ is. IsTrue is ↔ PassesFile number file at)) }
    ensures worked { OnOk result (R.failures disk.new ≡ R.failures disk.old) }
    ensures fault { IfErr result (λ count. Rose (R.failures disk.old) count × (count ≡ R.failures disk.new)) }
    ensures disk { R.only_reads disk.old disk.new }
{
    let mut header = [0; HEADER_ROOM];
    let Ok(len) = disk.read_at(at, &mut header) else {
        return Err(disk.failure_count());
    };
    if len < header_len(number) {
        return Ok(false);
    }
    let fragment_len = header_len(number) + usize::from(LittleEndian::read_u16(&header[4..6]));
    if fragment_len > BLOCK_LEN - (at % BLOCK_LEN as u64) as usize {
        return Ok(false);
    }
    let last = at + fragment_len as u64 - 1;
    let Ok(len) = disk.read_at(last, &mut [0]) else {
        return Err(disk.failure_count());
    };
    Ok(len == 0)
}

// How many bytes are looked at in one go.
const PIECE: usize = 4096;

/// Whether all bytes of a file from this place on are zeros.
fn are_zeros_from<R: ReadAt>(disk: &mut R, from: u64) -> Result<bool, u64>
    ensures decided { IfSome (R.held disk.old) (λ file. IfOk result (λ is. is ≡ are_zeros (drop from file))) }
    ensures worked { OnOk result (R.failures disk.new ≡ R.failures disk.old) }
    ensures fault { IfErr result (λ count. Rose (R.failures disk.old) count × (count ≡ R.failures disk.new)) }
    ensures disk { R.only_reads disk.old disk.new }
{
    let mut piece = [0; PIECE];
    let mut at = from;
    // From `from` up to `at` there are only zeros, and no read has failed.
    loop {
        let Ok(len) = disk.read_at(at, &mut piece) else {
            return Err(disk.failure_count());
        };
        if len == 0 {
            return Ok(true);
        }
        if !are_all_zeros(&piece[..len]) {
            return Ok(false);
        }
        at += len as u64;
    }
}

/// Whether each byte is 0.
fn are_all_zeros(bytes: &[u8]) -> bool
    ensures { result ≡ are_zeros bytes.now }
{
    bytes.iter().all(|byte| *byte == 0)
}
