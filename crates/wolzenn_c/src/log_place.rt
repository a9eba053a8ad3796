//! Recovery of a log without its pairs: how far it is kept, and its last sequence.

ghost use Rattle.std.specs.Prelude.{◌≡◌, ◌≢◌, ◌<◌, ◌⊎◌, ◌↔◌, ℕ, List, length};
ghost use Rattle.model_base.specs.Recovery.{Logged};
ghost use Rattle.log_recovery.specs.Following.{StandsAt};
ghost use Rattle.wolzenn_c.specs.LogPlaces.{log_start, place_of, KeepsUpTo, GoesOnTo};
ghost use Rattle.log_in_memory.specs.Readings.{number_of};

use crate::codes::{DONE, NO_MEMORY, RANGE, WzEnd, end_of};
use base_devices::SliceDisk;
use log_in_memory::log_number;
use log_recovery::{Place, RecoverError, places, updates_from};
use std::alloc::Global;

/// A place in a log: the end of a record, or the log's start; and the last sequence up to there, 0 where there is none.
#[repr(C)]
#[derive(Clone, Copy, Debug)]
pub struct WzPlace {
    pub at: u64,
    pub last: u64,
}

/// Moves a place of the log that these bytes are, which are the caller's, to the end of the last record that recovery
/// keeps, whose last sequence it has then. No pair is made, and no record is kept in memory. The place is the log's
/// start (zeros), or what an earlier call left there: of a log that grows each record is read once. The log has this
/// number, or none where it is 0. Any end is accepted.
///
/// `DONE`: `end` is where recovery ends, and why. `RANGE`: the log ends before the place. Whether the place is one of
/// this log isn't looked at. `NO_MEMORY`. At these two the place and `end` stay as they were.
#[unsafe(no_mangle)]
pub extern "C" fn wz_recover_place(
    alloc: Global,
    number: u32,
    log: &[u8],
    place: &mut WzPlace,
    end: &mut WzEnd,
) -> u32
    ensures code { (result ≡ DONE) ⊎ ((result ≡ RANGE) ⊎ (result ≡ NO_MEMORY)) }
    // From the start on it is what recovery keeps.
    ensures from_start { place.old ≡ log_start → result ≢ NO_MEMORY
        → (result ≡ DONE) × KeepsUpTo (number_of number) log.now place.new end.new }
    // Any other place is known by the batches before it, of this log or of one that was shorter.
    ensures goes_on { (start : ℕ) (before : List Logged)
        → StandsAt start (number_of number) log.now (place_of place.old) before → result ≢ NO_MEMORY
        → (result ≡ DONE) × GoesOnTo start (number_of number) log.now before place.new end.new }
    ensures range { (result ≡ RANGE) ↔ (length log.now < place.old.at) }
    ensures untold { result ≢ DONE → (place.new ≡ place.old) × (end.new ≡ end.old) }
{
    places();
    if (log.len() as u64) < place.at {
        return RANGE;
    }
    let from = Place {
        at: place.at,
        last: place.last,
    };
    let mut disk = SliceDisk::new(log);
    // No sequence is as high, so that no record is picked, and reading doesn't stop before an end.
    match updates_from(
        alloc,
        &mut disk,
        log_number(number),
        from,
        u64::MAX,
        u64::MAX,
    ) {
        Ok(more) => match more.end {
            Some(last) => {
                *place = WzPlace {
                    at: more.place.at,
                    last: more.place.last,
                };
                *end = end_of(last.at, last.why);
                DONE
            }
            None => unreachable!(),
        },
        Err(RecoverError::NoMemory) => NO_MEMORY,
        Err(RecoverError::Fault { .. } | RecoverError::Damage { .. }) => unreachable!(),
    }
}
