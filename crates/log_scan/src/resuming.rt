//! Where reading is tried again after it has ended.

ghost use Rattle.std.specs.Prelude.{◌≡◌, ℕ, ◌+◌, ◌<◌, ◌≤◌, ◌%◌, ◌^◌, ◌==◌, ◌&&◌, min, length, nat_lt, Some, None, option_and_then, IfOk, IfErr, IfSome, OnOk, if◌then◌else◌};
ghost use Rattle.base_devices.specs.Faults.{Rose};
ghost use Rattle.model_base.specs.Log.{Kind, kind_code};
ghost use Rattle.model_base.specs.Reading.{ReadingEnds, type_field};
ghost use Rattle.log_reader.specs.Reader.{Follows, HasBlock, IsSmallEnd};
ghost use Rattle.log_scan.specs.Resuming as resuming;

use base_devices::ReadAt;
use byteorder::{ByteOrder, LittleEndian};
use log_block::{BLOCK_LEN, FIRST, FULL, header, header_len, plain_type};
use log_reader::LogReader;
use model_base::EndReason;

/// The type of the fragment with which a compressed log begins.
const SET_COMPRESSION: u8 = 9;

/// Where reading of the log that a disk holds is tried again, after it has ended at this place for this reason; `None`
/// if it isn't. The reader goes there. For a fault of the disk it answers the disk's count of faults.
pub fn resume<R: ReadAt>(
    reader: &mut LogReader,
    disk: &mut R,
    number: Option<u32>,
    at: u64,
    why: EndReason,
) -> Result<Option<u64>, u64>
    requires numbered { reader.old.number ≡ number }
    requires small { IsSmallEnd at why }
    ensures place { IfSome (R.held disk.old) (λ file. Follows file reader.old → (from : ℕ)
        → ReadingEnds number file from at why
        → IfOk result (λ place. place ≡ resuming.resumes_at number file at why)) }
    ensures is_there { IfSome (R.held disk.old) (λ file. Follows file reader.old → (from : ℕ)
        → ReadingEnds number file from at why
        → IfOk result (λ place. IfSome place (λ p. (reader.new.place ≡ p) × Follows file reader.new))) }
    ensures going { IfOk result (λ place. IfSome place (λ _. reader.new.stopped ≡ None)) }
    ensures small { IfOk result (λ place. IfSome place (λ p. p < 2 ^ 63)) }
    ensures number { reader.new.number ≡ number }
    ensures worked { OnOk result (R.failures disk.new ≡ R.failures disk.old) }
    ensures fault { IfErr result (λ count. Rose (R.failures disk.old) count × (count ≡ R.failures disk.new)) }
    ensures disk { R.only_reads disk.old disk.new }
{
    let place = place_after(reader, disk, number, at, why)?;
    go_if_there(reader, disk, place)
}

/// Goes to this place, if there is one and the file has a byte there.
fn go_if_there<R: ReadAt>(
    reader: &mut LogReader,
    disk: &mut R,
    place: Option<u64>,
) -> Result<Option<u64>, u64>
    requires small { IfSome place (λ p. p < 2 ^ 63) }
    ensures place { IfSome (R.held disk.old) (λ file. Follows file reader.old
        → IfOk result (λ some. some ≡ option_and_then (resuming.there file) place)) }
    ensures is_there { IfSome (R.held disk.old) (λ file. Follows file reader.old
        → IfOk result (λ some. IfSome some (λ p. (reader.new.place ≡ p) × Follows file reader.new))) }
    ensures going { IfOk result (λ some. IfSome some (λ _. reader.new.stopped ≡ None)) }
    ensures small { IfOk result (λ some. IfSome some (λ p. p < 2 ^ 63)) }
    ensures number { reader.new.number ≡ reader.old.number }
    ensures worked { OnOk result (R.failures disk.new ≡ R.failures disk.old) }
    ensures fault { IfErr result (λ count. Rose (R.failures disk.old) count × (count ≡ R.failures disk.new)) }
    ensures disk { R.only_reads disk.old disk.new }
{
    let Some(place) = place else {
        return Ok(None);
    };
    if reader.go_to(place, disk)? {
        Ok(Some(place))
    } else {
        Ok(None)
    }
}

/// Where reading goes on after this end, if the file has that place. The reader goes to the end's place, and may go on
/// in its block.
fn place_after<R: ReadAt>(
    reader: &mut LogReader,
    disk: &mut R,
    number: Option<u32>,
    at: u64,
    why: EndReason,
) -> Result<Option<u64>, u64>
    requires numbered { reader.old.number ≡ number }
    requires small { IsSmallEnd at why }
    ensures place { IfSome (R.held disk.old) (λ file. Follows file reader.old → (from : ℕ)
        → ReadingEnds number file from at why → IfOk result (λ place.
        option_and_then (resuming.there file) place ≡ resuming.resumes_at number file at why)) }
    ensures follows { IfSome (R.held disk.old) (λ file. Follows file reader.old → (from : ℕ)
        → ReadingEnds number file from at why → OnOk result (Follows file reader.new)) }
    ensures small { IfOk result (λ place. IfSome place (λ p. p < 2 ^ 63)) }
    ensures number { reader.new.number ≡ number }
    ensures worked { OnOk result (R.failures disk.new ≡ R.failures disk.old) }
    ensures fault { IfErr result (λ count. Rose (R.failures disk.old) count × (count ≡ R.failures disk.new)) }
    ensures disk { R.only_reads disk.old disk.new }
{
    match why {
        EndReason::BadOrder => {
            reader.go_to(at, disk)?;
            Ok(after_misplaced(number, reader.rest(), reader.place()))
        }
        EndReason::Broken(_) => {
            reader.go_to(at, disk)?;
            if is_compressed(at, reader.rest()) {
                return Ok(None);
            }
            after_damage(reader, disk, number)
        }
        _ => Ok(None),
    }
}

/// Where reading goes on after a fragment in a wrong place, at the front of these bytes: with it, if it begins a record,
/// and after it otherwise. Such a fragment is whole.
fn after_misplaced(number: Option<u32>, rest: &[u8], place: u64) -> Option<u64>
    requires small { place + length rest.now < 2 ^ 63 }
    ensures place { (kind : Kind) → type_field rest.now ≡ kind_code number kind
        → resuming.fragment_len number rest.now ≤ length rest.now
        → result ≡ Some (resuming.after_header number rest.now place) }
    ensures small { IfSome result (λ p. p < 2 ^ 63) }
{
    if rest.len() < header_len(number) {
        return None;
    }
    match plain_type(number, rest[6]) {
        FULL | FIRST => Some(place),
        _ => Some(place + len_in(number, rest) as u64),
    }
}

/// Where reading goes on after damage at the reader's place, if the file has that place: at the end of the fragment, by
/// its header, if it is in the same block and there is no damage; otherwise at the next block.
fn after_damage<R: ReadAt>(
    reader: &mut LogReader,
    disk: &mut R,
    number: Option<u32>,
) -> Result<Option<u64>, u64>
    requires numbered { reader.old.number ≡ number }
    requires block { HasBlock reader.old }
    requires going { reader.old.stopped ≡ None }
    ensures place { IfSome (R.held disk.old) (λ file. Follows file reader.old → IfOk result (λ place.
        option_and_then (resuming.there file) place
        ≡ resuming.there file (resuming.after_damage number file reader.old.place))) }
    ensures follows { IfSome (R.held disk.old) (λ file. Follows file reader.old
        → OnOk result (Follows file reader.new)) }
    ensures small { IfOk result (λ place. IfSome place (λ p. p < 2 ^ 63)) }
    ensures number { reader.new.number ≡ number }
    ensures worked { OnOk result (R.failures disk.new ≡ R.failures disk.old) }
    ensures fault { IfErr result (λ count. Rose (R.failures disk.old) count × (count ≡ R.failures disk.new)) }
    ensures disk { R.only_reads disk.old disk.new }
{
    let at = reader.place();
    let rest = reader.rest();
    let left = rest.len() as u64;
    let len = len_in(number, rest) as u64;
    if len == left {
        return Ok(next_block(at, left));
    }
    if reader.is_damaged_at(at + len, disk)? {
        Ok(next_block(at, left))
    } else {
        Ok(Some(at + len))
    }
}

/// Where the next block begins, if the file has `left` bytes of this one from a place on. If that is only a part of the
/// block's rest, the file has no next one.
fn next_block(place: u64, left: u64) -> Option<u64>
    requires small { place + left < 2 ^ 63 }
    ensures { result ≡ (if nat_lt (place % 32768 + left) 32768 then None else Some (place + left)) }
{
    if place % BLOCK_LEN as u64 + left < BLOCK_LEN as u64 {
        None
    } else {
        Some(place + left)
    }
}

/// How many of these bytes are the fragment's at their front, as its header says: all, if the header isn't whole.
fn len_in(number: Option<u32>, bytes: &[u8]) -> usize
    ensures { result ≡ min (resuming.fragment_len number bytes.now) (length bytes.now) }
{
    let header = header_len(number);
    if bytes.len() < header {
        return bytes.len();
    }
    (header + usize::from(LittleEndian::read_u16(&bytes[4..6]))).min(bytes.len())
}

/// Whether the log is compressed, by the bytes of a block from this place on.
fn is_compressed(place: u64, rest: &[u8]) -> bool
    requires { length rest.now ≤ BLOCK_LEN }
    ensures { result ≡ (place == 0 && resuming.sets_compression rest.now) }
{
    if place > 0 || rest.len() < 7 {
        return false;
    }
    &rest[..7] == header(None, SET_COMPRESSION, &rest[7..len_in(None, rest)]).as_slice()
}
