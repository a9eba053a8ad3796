//! Reading the records of a log.

ghost use Rattle.std.specs.Prelude.{◌≡◌, ◌≢◌, ◌⊎◌, ◌↔◌, ◌<◌, ℕ, length, None, MatchOption};
ghost use Rattle.log_reader.specs.declared.reader.Next.TheVariants.{Fault};
ghost use Rattle.wolzenn_c.specs.Buffers.{Copies};
ghost use Rattle.wolzenn_c.specs.Objects.{as_reader};
ghost use Rattle.wolzenn_c.specs.ReaderCalls.{IsOpened, IsOpenedAt, Tells, IsNext, IsNextSince, record_of};

use crate::buffer::copy_to;
use crate::codes::{CLOSED, DONE, END, NO_MEMORY, RANGE, WzEnd, end_of};
use crate::handle::WzHandle;
use crate::object::Object;
use log_in_memory::Reading;
use log_reader::Next;
use std::alloc::Global;

/// A record: the offset of its first fragment, the one after its last, and how many bytes it has.
#[repr(C)]
#[derive(Clone, Copy, Debug, Drop)]
pub struct WzRecord {
    pub start: u64,
    pub end: u64,
    pub len: usize,
}

/// Opens a reader at the start of a log. The log has this number, or none where it is 0.
///
/// What the handle held before is freed. `DONE`: the handle holds the reader. `NO_MEMORY`: it holds nothing.
#[unsafe(no_mangle)]
pub extern "C" fn wz_reader_open(alloc: Global, handle: &mut WzHandle, number: u32) -> u32
    ensures code { (result ≡ DONE) ⊎ (result ≡ NO_MEMORY) }
    ensures done { result ≡ DONE → MatchOption (as_reader handle.new.held.object) ⊥ (IsOpened number) }
    ensures no_memory { result ≡ NO_MEMORY → handle.new.held.object ≡ None }
{
    handle.clear(alloc);
    let Ok(reading) = Reading::open(alloc, number) else {
        return NO_MEMORY;
    };
    let Ok(object) = Box::new(alloc, Object::Reader(reading)) else {
        return NO_MEMORY;
    };
    handle.put(alloc, object);
    DONE
}

/// Opens a reader at a place of the log that these bytes are, which are the caller's: the end of a record that was read
/// before, or the log's start. At any other place it reads what would be read if a record ended there. The log has this
/// number, or none where it is 0.
///
/// What the handle held before is freed. `DONE`: the handle holds the reader. `RANGE`: the log ends before the place.
/// `NO_MEMORY`. At any answer but `DONE` it holds nothing.
#[unsafe(no_mangle)]
pub extern "C" fn wz_reader_open_at(
    alloc: Global,
    handle: &mut WzHandle,
    number: u32,
    place: u64,
    log: &[u8],
) -> u32
    ensures code { (result ≡ DONE) ⊎ ((result ≡ RANGE) ⊎ (result ≡ NO_MEMORY)) }
    ensures done { result ≡ DONE → MatchOption (as_reader handle.new.held.object) ⊥ (IsOpenedAt number place log.now) }
    ensures range { (result ≡ RANGE) ↔ (length log.now < place) }
    ensures nothing { result ≢ DONE → handle.new.held.object ≡ None }
{
    handle.clear(alloc);
    if (log.len() as u64) < place {
        return RANGE;
    }
    let Ok(reading) = Reading::open_at(alloc, number, place, log) else {
        return NO_MEMORY;
    };
    let Ok(object) = Box::new(alloc, Object::Reader(reading)) else {
        return NO_MEMORY;
    };
    handle.put(alloc, object);
    DONE
}

/// Reads the next record of the log that these bytes are. They are the caller's, and should be the same at each call
/// of this reader.
///
/// `DONE`: `found` is where the record's fragments begin and end in the log, as offsets in bytes, and how many bytes
/// the record has. `END`: `end` is at which offset no more is read, and why. `NO_MEMORY`. After `END` and `NO_MEMORY`
/// each further call answers the same. `CLOSED`: the handle holds no reader. What an answer doesn't set stays as it
/// was.
#[unsafe(no_mangle)]
pub extern "C" fn wz_reader_next(
    alloc: Global,
    handle: &mut WzHandle,
    log: &[u8],
    found: &mut WzRecord,
    end: &mut WzEnd,
) -> u32
    // The answer in numbers is that of `LogReader::next`. A fault never comes, since the bytes are in memory.
    ensures next { MatchOption (as_reader handle.old.held.object) (result ≡ CLOSED)
        (λ old. MatchOption (as_reader handle.new.held.object) ⊥
        (λ new. IsNext log.now old new (found.old, end.old) result (found.new, end.new))) }
    // A handle of another kind keeps what it holds.
    ensures closed { result ≡ CLOSED → handle.new.held.object ≡ handle.old.held.object }
    ensures untold { result ≡ CLOSED → (found.new ≡ found.old) × (end.new ≡ end.old) }
{
    let Some(mut object) = handle.take(alloc) else {
        return CLOSED;
    };
    let code = match &mut *object {
        Object::Reader(reading) => next_of(reading, log, found, end),
        Object::Scan(_) | Object::Recovery(_) | Object::Batch(_) => CLOSED,
    };
    handle.put(alloc, object);
    code
}

/// Reads on, and tells the answer.
fn next_of(reading: &mut Reading, log: &[u8], found: &mut WzRecord, end: &mut WzEnd) -> u32
    ensures { IsNext log.now reading.old reading.new (found.old, end.old) result (found.new, end.new) }
{
    let answer = reading.next(log);
    tell(answer, reading.reader.record().len(), found, end)
}

/// Reads on as `wz_reader_next` does, up to the next record of the sequence `since` or of later ones: it skips batches
/// that take no sequence, or whose last one is lower. A record that is no batch isn't skipped. The answers are those of
/// `wz_reader_next`.
#[unsafe(no_mangle)]
pub extern "C" fn wz_reader_next_since(
    alloc: Global,
    handle: &mut WzHandle,
    since: u64,
    log: &[u8],
    found: &mut WzRecord,
    end: &mut WzEnd,
) -> u32
    ensures next { MatchOption (as_reader handle.old.held.object) (result ≡ CLOSED)
        (λ old. MatchOption (as_reader handle.new.held.object) ⊥
        (λ new. IsNextSince log.now since old new (found.old, end.old) result (found.new, end.new))) }
    // A handle of another kind keeps what it holds.
    ensures closed { result ≡ CLOSED → handle.new.held.object ≡ handle.old.held.object }
    ensures untold { result ≡ CLOSED → (found.new ≡ found.old) × (end.new ≡ end.old) }
{
    let Some(mut object) = handle.take(alloc) else {
        return CLOSED;
    };
    let code = match &mut *object {
        Object::Reader(reading) => next_since_of(reading, since, log, found, end),
        Object::Scan(_) | Object::Recovery(_) | Object::Batch(_) => CLOSED,
    };
    handle.put(alloc, object);
    code
}

/// Reads on from a sequence on, and tells the answer.
fn next_since_of(
    reading: &mut Reading,
    since: u64,
    log: &[u8],
    found: &mut WzRecord,
    end: &mut WzEnd,
) -> u32
    ensures { IsNextSince log.now since reading.old reading.new (found.old, end.old) result (found.new, end.new) }
{
    let answer = reading.next_since(log, since);
    tell(answer, reading.reader.record().len(), found, end)
}

/// Tells an answer in numbers.
fn tell(answer: Next, len: usize, found: &mut WzRecord, last: &mut WzEnd) -> u32
    requires { (count : ℕ) → answer ≢ Fault count }
    ensures { Tells answer len (found.old, last.old) result (found.new, last.new) }
{
    match answer {
        Next::Record { start, end } => {
            *found = WzRecord { start, end, len };
            DONE
        }
        Next::End { at, why } => {
            *last = end_of(at, why);
            END
        }
        Next::Fault { .. } => unreachable!(),
        Next::NoMemory => NO_MEMORY,
    }
}

/// Copies the record that the last `wz_reader_next` or `wz_reader_next_since` of this reader read to the start of the
/// caller's buffer, and touches nothing after it.
///
/// `DONE`. `SMALL`: the buffer has fewer bytes than the record. `END`: that call read no record, or there was no call
/// yet. `CLOSED`: the handle holds no reader. With these three nothing is written. The handle holds what it held.
#[unsafe(no_mangle)]
pub extern "C" fn wz_reader_record(alloc: Global, handle: &mut WzHandle, buffer: &mut [u8]) -> u32
    ensures same { handle.new.held.object ≡ handle.old.held.object }
    ensures record { MatchOption (as_reader handle.old.held.object) ((result ≡ CLOSED) × (buffer.new ≡ buffer.old))
        (λ r. MatchOption (record_of r) ((result ≡ END) × (buffer.new ≡ buffer.old))
        (λ bytes. Copies bytes buffer.old result buffer.new)) }
{
    let Some(object) = handle.take(alloc) else {
        return CLOSED;
    };
    let code = match object.reader() {
        Some(reading) => copy_record(reading, buffer),
        None => CLOSED,
    };
    handle.put(alloc, object);
    code
}

/// Copies the record in hand, if there is one.
fn copy_record(reading: &Reading, buffer: &mut [u8]) -> u32
    ensures { MatchOption (record_of reading.now) ((result ≡ END) × (buffer.new ≡ buffer.old))
        (λ bytes. Copies bytes buffer.old result buffer.new) }
{
    if reading.has_record {
        copy_to(reading.reader.record(), buffer)
    } else {
        END
    }
}
