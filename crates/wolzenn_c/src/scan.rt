//! Reading the records of a log, also those after damage.

ghost use Rattle.std.specs.Prelude.{◌≡◌, ◌≢◌, ◌⊎◌, ◌↔◌, ◌<◌, length, None, MatchOption};
ghost use Rattle.log_in_memory.specs.Scans.{record_of_scan};
ghost use Rattle.wolzenn_c.specs.Buffers.{Copies};
ghost use Rattle.wolzenn_c.specs.Objects.{as_scan};
ghost use Rattle.wolzenn_c.specs.ScanCalls.{IsScanAt, IsScanNext, TellsScan};

use crate::buffer::copy_to;
use crate::codes::{CLOSED, DONE, END, NO_MEMORY, RANGE, UNREAD, WzEnd, end_of};
use crate::handle::WzHandle;
use crate::object::Object;
use crate::reader::WzRecord;
use log_in_memory::{Scan, Scanned};
use std::alloc::Global;

/// A stretch of a log in which no record reads: the offset where it begins, which is the end of a record or the place
/// where the scan began, the one where the next record begins, and where and why reading first ended there.
#[repr(C)]
#[derive(Clone, Copy, Debug, Drop)]
pub struct WzUnread {
    pub from: u64,
    pub to: u64,
    pub end: WzEnd,
}

/// Opens a scan at a place of the log that these bytes are, which are the caller's: the end of a record that was found
/// before, or the log's start. At any other place it finds what would be found if a record ended there. The log has
/// this number, or none where it is 0.
///
/// What the handle held before is freed. `DONE`: the handle holds the scan. `RANGE`: the log ends before the place.
/// `NO_MEMORY`. At any answer but `DONE` it holds nothing.
#[unsafe(no_mangle)]
pub extern "C" fn wz_scan_open_at(
    alloc: Global,
    handle: &mut WzHandle,
    number: u32,
    place: u64,
    log: &[u8],
) -> u32
    ensures code { (result ≡ DONE) ⊎ ((result ≡ RANGE) ⊎ (result ≡ NO_MEMORY)) }
    ensures done { result ≡ DONE → MatchOption (as_scan handle.new.held.object) ⊥ (IsScanAt number place log.now) }
    ensures range { (result ≡ RANGE) ↔ (length log.now < place) }
    ensures nothing { result ≢ DONE → handle.new.held.object ≡ None }
{
    handle.clear(alloc);
    if (log.len() as u64) < place {
        return RANGE;
    }
    let Ok(scan) = Scan::open_at(alloc, number, place, log) else {
        return NO_MEMORY;
    };
    let Ok(object) = Box::new(alloc, Object::Scan(scan)) else {
        return NO_MEMORY;
    };
    handle.put(alloc, object);
    DONE
}

/// Finds the next record of the log that these bytes are, also after damage. They are the caller's, and should be the
/// same at each call of this scan.
///
/// `DONE`: `found` is where the record's fragments begin and end in the log, as offsets in bytes, and how many bytes
/// the record has. `UNREAD`: the same, and `unread` is the stretch before it, in which no record reads. `END`: no
/// record follows, and `end` is where and why reading first ended since the last one. `NO_MEMORY`. After `END` and
/// `NO_MEMORY` each further call answers the same. `CLOSED`: the handle holds no scan. What an answer doesn't set stays
/// as it was.
#[unsafe(no_mangle)]
pub extern "C" fn wz_scan_next(
    alloc: Global,
    handle: &mut WzHandle,
    log: &[u8],
    found: &mut WzRecord,
    unread: &mut WzUnread,
    end: &mut WzEnd,
) -> u32
    // The answer in numbers is that of `Scan::next`.
    ensures next { MatchOption (as_scan handle.old.held.object) (result ≡ CLOSED)
        (λ old. MatchOption (as_scan handle.new.held.object) ⊥
        (λ new. IsScanNext log.now old new (found.old, unread.old, end.old) result (found.new, unread.new, end.new))) }
    // A handle of another kind keeps what it holds.
    ensures closed { result ≡ CLOSED → handle.new.held.object ≡ handle.old.held.object }
    ensures untold { result ≡ CLOSED → (found.new ≡ found.old) × (unread.new ≡ unread.old) × (end.new ≡ end.old) }
{
    let Some(mut object) = handle.take(alloc) else {
        return CLOSED;
    };
    let code = match &mut *object {
        Object::Scan(scan) => scan_on(alloc, scan, log, found, unread, end),
        Object::Reader(_) | Object::Recovery(_) | Object::Batch(_) => CLOSED,
    };
    handle.put(alloc, object);
    code
}

/// Finds the next record, and tells the answer.
fn scan_on(
    alloc: Global,
    scan: &mut Scan,
    log: &[u8],
    found: &mut WzRecord,
    unread: &mut WzUnread,
    end: &mut WzEnd,
) -> u32
    ensures { IsScanNext log.now scan.old scan.new (found.old, unread.old, end.old) result
        (found.new, unread.new, end.new) }
{
    let answer = scan.next(alloc, log);
    tell(answer, scan.scanner.record().len(), found, unread, end)
}

/// Tells an answer in numbers.
fn tell(
    answer: Scanned,
    len: usize,
    found: &mut WzRecord,
    stretch: &mut WzUnread,
    last: &mut WzEnd,
) -> u32
    ensures { TellsScan answer len (found.old, stretch.old, last.old) result (found.new, stretch.new, last.new) }
{
    match answer {
        Scanned::Record { unread, start, end } => {
            *found = WzRecord { start, end, len };
            let Some(unread) = unread else {
                return DONE;
            };
            *stretch = WzUnread {
                from: unread.from,
                to: unread.to,
                end: end_of(unread.at, unread.why),
            };
            UNREAD
        }
        Scanned::End { at, why } => {
            *last = end_of(at, why);
            END
        }
        Scanned::NoMemory => NO_MEMORY,
    }
}

/// Copies the record that the last `wz_scan_next` of this scan found to the start of the caller's buffer, and touches
/// nothing after it.
///
/// `DONE`. `SMALL`: the buffer has fewer bytes than the record. `END`: that call found no record, or there was no call
/// yet. `CLOSED`: the handle holds no scan. With these three nothing is written. The handle holds what it held.
#[unsafe(no_mangle)]
pub extern "C" fn wz_scan_record(alloc: Global, handle: &mut WzHandle, buffer: &mut [u8]) -> u32
    ensures same { handle.new.held.object ≡ handle.old.held.object }
    ensures record { MatchOption (as_scan handle.old.held.object) ((result ≡ CLOSED) × (buffer.new ≡ buffer.old))
        (λ s. MatchOption (record_of_scan s) ((result ≡ END) × (buffer.new ≡ buffer.old))
        (λ bytes. Copies bytes buffer.old result buffer.new)) }
{
    let Some(object) = handle.take(alloc) else {
        return CLOSED;
    };
    let code = match object.scan() {
        Some(scan) => copy_found(scan, buffer),
        None => CLOSED,
    };
    handle.put(alloc, object);
    code
}

/// Copies the record in hand, if there is one.
fn copy_found(scan: &Scan, buffer: &mut [u8]) -> u32
    ensures { MatchOption (record_of_scan scan.now) ((result ≡ END) × (buffer.new ≡ buffer.old))
        (λ bytes. Copies bytes buffer.old result buffer.new) }
{
    match scan.record() {
        Some(bytes) => copy_to(bytes, buffer),
        None => END,
    }
}
