//! A set of logs, which are written one after another.

ghost use Rattle.std.specs.Prelude.{◌≡◌, ◌+◌, ◌-◌, ◌^◌, ◌<◌, ◌≤◌, [], ◌∷◌, ◌++◌, map, vec_len, vec_capacity, None};
ghost use Rattle.std.specs.List.{AllByRecursion};
ghost use Rattle.std.proofs.Props.{props};
ghost use Rattle.log_writer.specs.Words.{len_of, fault_of};

use crate::counts::{count_faults, move_disks};
use crate::reads::read_in;
use crate::{Fault, LogWriter};
use base_devices::{Disk, Failed, ReadAt};
use log_batch::Batch;
use std::mem;

/// Logs on disks of their own, which are written one after another: once the current one has as many bytes as the
/// limit, it is synced, and the next group goes into the next log. The last one has no limit.
///
/// So each log but the last one that was begun is safe, and a crash leaves a front of what all of them have: some whole
/// logs, and a front of the one after them. Once a write or a sync has failed, the set takes no more.
pub struct LogSet<D: Disk> {
    /// The full logs, the first one first.
    pub(crate) full: Vec<LogWriter<D>>,
    /// The log that is written to.
    pub(crate) current: LogWriter<D>,
    /// The logs that nothing is written to yet, the next one first.
    pub(crate) later: Vec<LogWriter<D>>,
    /// The lengths of the full logs, and of the current one.
    pub(crate) lens: Vec<u64>,
    /// From which length on a log is full.
    pub(crate) limit: u64,
    /// How many calls of the disks had failed when a write or a sync failed, if one did.
    pub(crate) fault: Option<u64>,
    /// Room for the disks, for when they are given back.
    pub(crate) room: Vec<D>,
    /// Which log is read, counted from 0.
    pub(crate) chosen: usize,
    ghost lens_are: { lens.items ≡ map len_of full.items ++ len_of current ∷ [] },
    ghost alive: { fault ≡ None → fault_of current ≡ None } by { Prim.hlevel props },
    ghost fresh: { AllByRecursion (λ log. fault_of log ≡ None) later.items } by { Prim.hlevel props },
    ghost full_room: { vec_len full + vec_len later ≤ vec_capacity full },
    ghost lens_room: { vec_len lens + vec_len later ≤ vec_capacity lens },
    ghost no_disks: { room.items ≡ [] },
    ghost disks_room: { vec_len full + 1 + vec_len later ≤ vec_capacity room },
}

impl<D: Disk> LogSet<D> {
    ghost use Rattle.std.specs.Prelude.{length, true, false, MatchOption, OnOk, IfSome};
    ghost use Rattle.model_base.specs.History.{max_sequence};
    ghost use Rattle.log_writer.specs.Groups.{counts_of, body_lens_of};
    ghost use Rattle.log_writer.specs.Adding.{call_of, count_of_fault};
    ghost use Rattle.log_writer.specs.Sets.{AddsHere, AddsTo, GoesOn, HasRoom, IsStuck, MakesRoom, SetWasRead, begun_in, chosen_of, count_in, full_of, current_of, later_of, logs_of, limit_of, fault_in, len_in};
    ghost use Rattle.log_writer.specs.Words.{disk_of, len_of};

    /// Writes a group of batches as one record, to the current log, or to the next one where the current log is full
    /// and another one is left; then that one is synced first. It takes no memory.
    ///
    /// A fault of any disk ends the set: each later call is answered with the count that was kept, and leaves the disks
    /// alone. The count is that of all disks together.
    pub fn add_group(&mut self, first: u64, members: &[Batch], sync: bool) -> Result<(), Fault>
        requires some { 0 < length members.now }
        requires counts { counts_of members.now < 2 ^ 32 }
        requires run { first + counts_of members.now - 1 ≤ max_sequence }
        requires lens { body_lens_of members.now < 2 ^ 63 }
        ensures { AddsTo (call_of first members.now sync result) self.old self.new }
    {
        if let Some(count) = self.fault {
            return Err(Fault { count });
        }
        match self.make_room() {
            Ok(()) => self.add_here(first, members, sync),
            Err(fault) => Err(fault),
        }
    }

    /// Syncs the current log, if it is full and another one is left, and goes on in that one.
    fn make_room(&mut self) -> Result<(), Fault>
        requires alive { fault_in self.old ≡ None }
        ensures made { MatchOption (count_of_fault result) (MakesRoom self.old self.new) (IsStuck self.old self.new) }
        ensures alive { OnOk result (fault_in self.new ≡ None) }
    {
        if self.is_full() { self.fill() } else { Ok(()) }
    }

    /// Whether the current log is full, and another one is left.
    fn is_full(&self) -> bool
        ensures full { result ≡ true → limit_of self.now ≤ len_of (current_of self.now) }
        ensures some { result ≡ true → 0 < length (later_of self.now) }
        ensures room { result ≡ false → HasRoom self.now }
    {
        !self.later.is_empty() && self.limit <= self.current.len()
    }

    /// Syncs the current log, which is full, and goes on in the next one.
    fn fill(&mut self) -> Result<(), Fault>
        requires alive { fault_in self.old ≡ None }
        requires full { limit_of self.old ≤ len_of (current_of self.old) }
        requires some { 0 < length (later_of self.old) }
        ensures filled { MatchOption (count_of_fault result) (GoesOn self.old self.new) (IsStuck self.old self.new) }
        ensures alive { OnOk result (fault_in self.new ≡ None) }
    {
        match self.current.sync() {
            Ok(()) => {
                self.go_on();
                Ok(())
            }
            Err(_) => {
                let count = count_faults(&self.full, &self.current, &self.later);
                self.fault = Some(count);
                Err(Fault { count })
            }
        }
    }

    /// Goes on in the next log.
    fn go_on(&mut self)
        requires alive { fault_in self.old ≡ None }
        requires some { 0 < length (later_of self.old) }
        ensures full { full_of self.new ≡ full_of self.old ++ current_of self.old ∷ [] }
        ensures later { later_of self.old ≡ current_of self.new ∷ later_of self.new }
        ensures limit { limit_of self.new ≡ limit_of self.old }
        ensures alive { fault_in self.new ≡ None }
    {
        let next = self.later.remove(0);
        self.lens.push_reserved(next.len());
        let done = mem::replace(&mut self.current, next);
        self.full.push_reserved(done);
    }

    /// Writes a group to the current log.
    fn add_here(&mut self, first: u64, members: &[Batch], sync: bool) -> Result<(), Fault>
        requires alive { fault_in self.old ≡ None }
        requires some { 0 < length members.now }
        requires counts { counts_of members.now < 2 ^ 32 }
        requires run { first + counts_of members.now - 1 ≤ max_sequence }
        requires lens { body_lens_of members.now < 2 ^ 63 }
        ensures { AddsHere (call_of first members.now sync result) self.old self.new }
    {
        match self.current.add_group(first, members, sync) {
            Ok(()) => {
                self.lens.truncate(self.full.len());
                self.lens.push_reserved(self.current.len());
                Ok(())
            }
            Err(_) => {
                let count = count_faults(&self.full, &self.current, &self.later);
                self.fault = Some(count);
                Err(Fault { count })
            }
        }
    }

    /// The lengths of the full logs and of the current one: the bytes of the groups that were written whole.
    pub fn lens(&self) -> &[u64]
        ensures { result.now ≡ map len_of (begun_in self.now) }
    {
        &self.lens
    }

    /// The length of all logs together, or the greatest `u64` if it is more.
    pub fn len(&self) -> u64
        ensures { result ≡ len_in self.now }
    {
        let mut len = 0u64;
        for more in &self.lens {
            len = len.saturating_add(*more);
        }
        len
    }

    /// The count of the fault that ended the set, if one did: how many calls of all its disks had failed then.
    pub fn fault(&self) -> Option<u64>
        ensures { result ≡ fault_in self.now }
    {
        self.fault
    }

    /// How many calls of all its disks have failed, or the greatest `u64` where they are more.
    pub(crate) fn faults(&self) -> u64
        ensures { result ≡ count_in (logs_of self.now) }
    {
        count_faults(&self.full, &self.current, &self.later)
    }

    /// How many logs it has.
    pub(crate) fn many(&self) -> usize
        ensures { result ≡ length (logs_of self.now) }
    {
        self.full.len() + 1 + self.later.len()
    }

    /// Chooses the log that is read.
    pub(crate) fn choose(&mut self, which: usize)
        ensures chosen { chosen_of self.new ≡ which }
        ensures was_read { SetWasRead self.old self.new }
        ensures counts { count_in (logs_of self.new) ≡ count_in (logs_of self.old) }
    {
        self.chosen = which;
    }

    /// The disks as they are, in their order. It takes no memory.
    pub fn into_disks(self) -> Vec<D>
        ensures { result.items ≡ map disk_of (logs_of self) }
    {
        let (disks, _) = self.into_parts();
        disks
    }

    /// The disks as they are, in their order, and the lengths of the full logs and of the current one. It takes no
    /// memory.
    pub fn into_parts(self) -> (Vec<D>, Vec<u64>)
        ensures disks { result.0.items ≡ map disk_of (logs_of self) }
        ensures lens { result.1.items ≡ map len_of (begun_in self) }
    {
        let LogSet {
            mut full,
            current,
            mut later,
            lens,
            limit: _,
            fault: _,
            mut room,
            chosen: _,
        } = self;
        move_disks(&mut full, &mut room);
        full.destroy_empty();
        room.push_reserved(current.into_disk());
        move_disks(&mut later, &mut room);
        later.destroy_empty();
        (room, lens)
    }
}

/// The log that is chosen is read, up to its end; the first one, until another one is chosen. A log that has not begun
/// has nothing to read.
impl<D: Disk> ReadAt for LogSet<D> {
    ghost use Rattle.log_writer.specs.Sets.{count_in, logs_of};
    ghost use Rattle.log_writer.specs.ReadableLogs.{ChosenWasRead, chosen_held};
    ghost use Rattle.log_writer.specs.ReadLaws.{chosen_not_read, chosen_read_on, chosen_keeps, chosen_counts};

    ghost held = { λ set. chosen_held set };

    ghost failures = { λ set. count_in (logs_of set) };

    ghost only_reads = { λ a b. ChosenWasRead a b };

    ghost reads_none = { λ set. chosen_not_read set };

    ghost reads_on = { λ a b c first second. chosen_read_on a b c first second };

    ghost reads_keep = { λ a b r. chosen_keeps a b r };

    ghost reads_count = { λ a b r. chosen_counts a b r };

    /// It is that of all its disks.
    fn failure_count(&self) -> u64 {
        self.faults()
    }

    fn read_at(&mut self, at: u64, buf: &mut [u8]) -> Result<usize, Failed> {
        read_in(&mut self.full, &mut self.current, self.chosen, at, buf)
    }
}
