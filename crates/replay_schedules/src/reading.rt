//! A map that moves on from read to read.

ghost use Rattle.std.specs.Prelude.{◌≡◌, ◌≤◌, ◌+◌, nat_le, List, length, map, drop, take_while, IfOk, OnOk};
ghost use Rattle.std.specs.List.{prefix_len};
ghost use Rattle.model_base.specs.History as history;
ghost use Rattle.model_base.specs.Map.{key_at, rows_within, value_at};
ghost use Rattle.base_bytes.specs.Answers.{found_value};
ghost use Rattle.model_core.specs.Core as core;
ghost use Rattle.model_core.specs.CoreLaw.{IsCore};
ghost use Rattle.replay_core.specs.Shown.{CoreEntry};
ghost use Rattle.replay_core.specs.Shows.{Shows};
ghost use Rattle.replay_schedules.specs.Maps.{IsMapOf, map_up_to};

use crate::answers::{rows_in, value_in, values_in};
use crate::maps::write_entries;
use base_bytes::{Found, FoundList, PairList};
use base_maps::FamilyMap;
use model_base::NoMemory;
use replay_core::State;
use replay_plans::Lines;
use run_command_list::Keys;
use run_outcome::HistoryEntry;
use std::alloc::Global;

/// The map of the first entries of a core, up to a sequence. A read at a later sequence writes only the entries that
/// the map doesn't have yet, so reads whose sequences never fall write each entry only once in all.
#[derive(Drop)]
pub struct MapUpTo {
    alloc: Global,
    map: FamilyMap,
    /// The sequence; `count` is how many entries are in the map.
    at: u64,
    count: usize,
}

impl MapUpTo {
    /// The map before the first entry. This takes no memory.
    pub fn new(alloc: Global) -> MapUpTo
        ensures { (entries : List history.Entry) → IsMapOf entries result }
    {
        MapUpTo {
            alloc,
            map: FamilyMap::new(alloc),
            at: 0,
            count: 0,
        }
    }

    /// The value of a family's key after the entries whose runs end at a sequence or before. The map moves to that
    /// sequence. Where there is no memory it begins anew before the first entry.
    pub fn value(
        &mut self,
        state: &State<'_>,
        family: u32,
        key: &[u8],
        at: u64,
    ) -> Result<Found, NoMemory>
        ensures value { (o : core.Options) (s : core.State) → IsCore o s → Shows state.now o s
            → IsMapOf s.entries self.old
            → IfOk result (λ found. found_value found
            ≡ value_at (map_up_to at s.entries) (key_at family key.now)) }
        // It is the map of some first entries of the history, also where memory was short: so it can go on from there.
        ensures kept { (o : core.Options) (s : core.State) → IsCore o s → Shows state.now o s
            → IsMapOf s.entries self.old
            → IsMapOf s.entries self.new }
    {
        self.move_to(state, at)?;
        value_in(self.alloc, &self.map, family, key)
    }

    /// The values of several keys after the entries whose runs end at a sequence or before, in the order of the keys,
    /// all at that one sequence. The map moves there as for one key.
    pub fn values(
        &mut self,
        state: &State<'_>,
        keys: Keys<'_>,
        at: u64,
    ) -> Result<FoundList, NoMemory>
        ensures values { (o : core.Options) (s : core.State) → IsCore o s → Shows state.now o s
            → IsMapOf s.entries self.old
            → IfOk result (λ values. values ≡ map (value_at (map_up_to at s.entries)) keys.entry) }
        ensures kept { (o : core.Options) (s : core.State) → IsCore o s → Shows state.now o s
            → IsMapOf s.entries self.old
            → IsMapOf s.entries self.new }
    {
        self.move_to(state, at)?;
        values_in(self.alloc, &self.map, keys)
    }

    /// The keys of a family from `lo` on and below `hi`, with their values after the entries whose runs end at a
    /// sequence or before, in the byte order of the keys. The map moves there as for one key.
    pub fn rows(
        &mut self,
        state: &State<'_>,
        family: u32,
        lo: &[u8],
        hi: &[u8],
        at: u64,
    ) -> Result<PairList, NoMemory>
        ensures rows { (o : core.Options) (s : core.State) → IsCore o s → Shows state.now o s
            → IsMapOf s.entries self.old
            → IfOk result (λ rows. rows ≡ rows_within family lo.now hi.now (map_up_to at s.entries)) }
        ensures kept { (o : core.Options) (s : core.State) → IsCore o s → Shows state.now o s
            → IsMapOf s.entries self.old
            → IsMapOf s.entries self.new }
    {
        self.move_to(state, at)?;
        rows_in(self.alloc, &self.map, family, lo, hi)
    }

    /// The map as it is now.
    pub(crate) fn into_map(self) -> FamilyMap
        ensures { result ≡ self.map }
    {
        self.map
    }

    /// Moves the map to a sequence. Where there is no memory it begins anew.
    pub(crate) fn move_to(&mut self, state: &State<'_>, at: u64) -> Result<(), NoMemory>
        ensures map { (o : core.Options) (s : core.State) → IsCore o s → Shows state.now o s
            → IsMapOf s.entries self.old
            → OnOk result (self.new.map ≡ map_up_to at s.entries) }
        ensures kept { (o : core.Options) (s : core.State) → IsCore o s → Shows state.now o s
            → IsMapOf s.entries self.old
            → IsMapOf s.entries self.new }
    {
        self.move_back(at);
        let written = self.move_on(state, at);
        if written.is_err() {
            *self = MapUpTo::new(self.alloc);
        }
        written
    }

    /// If the map is past a sequence, it begins anew.
    fn move_back(&mut self, at: u64)
        ensures at { self.new.at ≤ at }
        ensures kept { (entries : List history.Entry) → IsMapOf entries self.old → IsMapOf entries self.new }
    {
        if at < self.at {
            self.map = FamilyMap::new(self.alloc);
            self.at = at;
            self.count = 0;
        }
    }

    /// Moves the map on to a sequence, which isn't before its own. After an error it isn't used.
    fn move_on(&mut self, state: &State<'_>, at: u64) -> Result<(), NoMemory>
        ensures map { (o : core.Options) (s : core.State) → IsCore o s → Shows state.now o s
            → IsMapOf s.entries self.old → self.old.at ≤ at
            → OnOk result (self.new.map ≡ map_up_to at s.entries) }
        ensures kept { (o : core.Options) (s : core.State) → IsCore o s → Shows state.now o s
            → IsMapOf s.entries self.old → self.old.at ≤ at
            → OnOk result (IsMapOf s.entries self.new) }
    {
        let entries = state.entries();
        let written = self.count.min(entries.len());
        let more = up_to(entries, written, at);
        write_entries(&mut self.map, state, more)?;
        self.at = at;
        self.count = written + more.len();
        Ok(())
    }
}

/// The entries from a place on whose runs end at a sequence or before.
fn up_to(entries: &[HistoryEntry<Lines>], from: usize, at: u64) -> &[HistoryEntry<Lines>]
    requires { from ≤ length entries.now }
    ensures items { result.now ≡ take_while (λ (e : CoreEntry). nat_le e.run.last at) (drop from entries.now) }
    ensures few { from + length result.now ≤ length entries.now }
{
    let left = &entries[from..];
    &left[..count_up_to(left, at)]
}

/// How many entries from the first on have runs that end at a sequence or before.
fn count_up_to(entries: &[HistoryEntry<Lines>], at: u64) -> usize
    ensures { result ≡ prefix_len (λ (e : CoreEntry). nat_le e.run.last at) entries.now }
{
    entries
        .iter()
        .take_while(|entry| entry.run.last <= at)
        .count()
}
