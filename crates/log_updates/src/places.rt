//! Places in logs that were written one after another, and where the reads of clients begin.

ghost use Rattle.std.specs.Prelude.{◌≡◌, ◌⊎◌, ◌-◌, ◌<◌, ◌≤◌, ℕ, List, [], length, slice_set, Contains, IfOk, Option};
ghost use Rattle.std.specs.List.{AllByRecursion};
ghost use Rattle.model_base.specs.Recovery.{Logged};
ghost use Rattle.log_writer.specs.GoOn.{GoOn};
ghost use Rattle.log_updates.specs.declared.places.LogPlace.{LogPlace as Place};
ghost use Rattle.log_updates.specs.Places.{IsFixed, StandsIn, first_place};

use model_base::NoMemory;
use std::alloc::Global;
use std::marker::Model;

/// A place in logs that were written one after another: which of them it is in, counted from 0, the end of a record of
/// that one or its start, and the last sequence up to there, in all logs.
#[derive(Clone, Copy, Debug, PartialEq, Eq)]
pub struct LogPlace {
    pub log: usize,
    pub at: u64,
    pub last: u64,
}

impl LogPlace {
    /// Before all records.
    pub fn start() -> LogPlace
        ensures first { result ≡ first_place }
        ensures stands { (number : Option ℕ) (files : List (List ℕ)) → 0 < length files
            → StandsIn number files result [] }
    {
        LogPlace {
            log: 0,
            at: 0,
            last: 0,
        }
    }
}

/// A place is the end of the same batches when the logs are written on, if it is one that doesn't move. The first place
/// is before all records, whatever the logs have.
pub fn places_stay()
    ensures stay { (number : Option ℕ) (files later : List (List ℕ)) (place : Place) (before : List Logged)
        → GoOn files later → IsFixed place → StandsIn number files place before
        → StandsIn number later place before }
    ensures first { (number : Option ℕ) (files : List (List ℕ)) → 0 < length files
        → StandsIn number files first_place [] }
{}

/// Where the reads of clients may begin: for each client the place up to which its last read came. Contracts see the
/// places, in the order of the clients' numbers.
#[derive(Debug, Drop)]
pub struct ReadPlaces {
    places: Vec<LogPlace>,
}

impl Model for ReadPlaces {
    ghost use Rattle.std.specs.Prelude.{List};
    ghost use Rattle.log_updates.specs.declared.places.LogPlace.{LogPlace as Place};

    ghost Value = { List Place };

    ghost view = { λ r. r.places.items };
}

impl ReadPlaces {
    /// Each client's reads begin at the start.
    pub fn for_clients(alloc: Global, clients: u32) -> Result<ReadPlaces, NoMemory>
        ensures start { IfOk result (λ r. (length r ≡ clients) × AllByRecursion (λ p. p ≡ first_place) r) }
    {
        Ok(ReadPlaces {
            places: vec![in alloc; LogPlace::start(); clients as usize]?,
        })
    }

    /// The last of the places that are before the sequence `since`; where there is none, the start.
    pub fn nearest(&self, since: u64) -> LogPlace
        ensures one_of { (result ≡ first_place) ⊎ (Contains self.now result × (result.last < since)) }
        ensures last { AllByRecursion (λ p. p.last < since → p.last ≤ result.last) self.now }
    {
        let mut nearest = LogPlace::start();
        // The nearest place is one of those so far that are before `since`, and none of them is after it; or it is the
        // start.
        for place in &self.places {
            nearest = nearer(nearest, *place, since);
        }
        nearest
    }

    /// The reads of the client with this number, from 1 on, came up to this place. Nothing is kept for a number that no
    /// client has.
    pub fn reach(&mut self, client: u32, place: LogPlace)
        ensures reach { 0 < client → self.new ≡ slice_set self.old (client - 1) place }
        ensures none { client ≡ 0 → self.new ≡ self.old }
        ensures many { length self.new ≡ length self.old }
    {
        let client = client as usize;
        if client > 0 && client <= self.places.len() {
            self.places[client - 1] = place;
        }
    }
}

/// The later one of these places, if the second one is before the sequence `since`; if it isn't, the first one.
fn nearer(nearest: LogPlace, place: LogPlace, since: u64) -> LogPlace
    ensures one_of { (result ≡ nearest) ⊎ ((result ≡ place) × (result.last < since)) }
    ensures later { nearest.last ≤ result.last }
    ensures last { place.last < since → place.last ≤ result.last }
{
    if place.last < since && nearest.last < place.last {
        place
    } else {
        nearest
    }
}
