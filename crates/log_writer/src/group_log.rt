//! A log of groups, whatever it is made of.

ghost use Rattle.std.specs.Prelude.{◌≡◌, ◌+◌, ◌-◌, ◌^◌, ◌<◌, ◌≤◌, [], ◌∷◌, ◌++◌, length, None, Some, IfSome};
ghost use Rattle.model_base.specs.History.{max_sequence};
ghost use Rattle.log_writer.specs.Groups.{counts_of, body_lens_of};
ghost use Rattle.log_writer.specs.Adding.{call_of, count_of_fault};
ghost use Rattle.log_writer.specs.GroupLogs.{CameInCall, CameInCalls};
ghost use Rattle.log_writer.specs.GoOn.{GoOn};

use crate::{Fault, LogSet, LogWriter};
use base_devices::Disk;
use log_batch::Batch;

/// A log to which groups of batches are written, one after another: on one disk ([`LogWriter`]), or on several that are
/// written one after another ([`LogSet`]). Once a write has failed it takes no more.
///
/// [`LogSet`]: crate::LogSet
pub trait GroupLog {
    ghost use Rattle.std.specs.Prelude.{ℕ, List, Option};
    ghost use Rattle.model_base.specs.LogContents.{GroupCall};
    ghost use Rattle.model_base.specs.Recovery.{Logged};

    /// These calls of `add_group`, and no others, have turned the first log into the second one. It may have been read
    /// between them.
    ghost wrote: { Self → List GroupCall → Self → Type 0 };

    /// As it was opened it has these batches, and nothing else; and its disks tell what they hold.
    ghost keeps: { Self → List Logged → Type 0 };

    /// Its length: the bytes that it kept, and those of the groups that were written whole.
    ghost len: { Self → ℕ };

    /// The count of the fault that ended the log, if one did.
    ghost fault: { Self → Option ℕ };

    /// How many calls of its disks have failed.
    ghost faults: { Self → ℕ };

    /// These are the bytes of its logs, one after another. Where a disk doesn't tell what it holds, there are none of
    /// which this is known.
    ghost holds: { Self → List (List ℕ) → Type 0 };

    /// How many logs it has.
    ghost many: { Self → ℕ };

    /// The number of its logs, if they have one.
    ghost number: { Self → Option ℕ };

    /// Writes a group of batches as one record, after what the log has, and syncs it if that is asked. It takes no
    /// memory. A fault ends the log: each later call is answered with the count that was kept, and does nothing.
    fn add_group(&mut self, first: u64, members: &[Batch], sync: bool) -> Result<(), Fault>
        requires some { 0 < length members.now }
        requires counts { counts_of members.now < 2 ^ 32 }
        requires run { first + counts_of members.now - 1 ≤ max_sequence }
        requires lens { body_lens_of members.now < 2 ^ 63 }
        ensures wrote { (opened : Self) (calls : List GroupCall) → wrote opened calls self.old
            → wrote opened (calls ++ call_of first members.now sync result ∷ []) self.new }
        ensures fault { fault self.old ≡ None → fault self.new ≡ count_of_fault result }
        ensures dead { IfSome (fault self.old)
            (λ count. (count_of_fault result ≡ Some count) × (self.new ≡ self.old)) }
        // The disks have counted a fault where the call failed, and else none.
        ensures cause { fault self.old ≡ None
            → CameInCall (faults self.old) (faults self.new) (count_of_fault result) }
        // It has as many logs, with the same number.
        ensures same { (number self.new ≡ number self.old) × (many self.new ≡ many self.old) }
        // What its logs held is a front of what they hold.
        ensures grows { (opened : Self) (kept : List Logged) (calls : List GroupCall) (files : List (List ℕ))
            → keeps opened kept → wrote opened calls self.old → holds self.old files
            → (later : List (List ℕ)) × holds self.new later × GoOn files later };

    /// The length of the log: the bytes that it kept, and those of the groups that were written whole.
    fn len(&self) -> u64
        ensures { result ≡ len self.now };

    /// The count of the fault that ended the log, if one did.
    fn fault(&self) -> Option<u64>
        ensures { result ≡ fault self.now };

    /// How many calls of its disks have failed, or the greatest `u64` where they are more.
    fn faults(&self) -> u64
        ensures { result ≡ faults self.now };

    /// No call leaves a log as it is.
    ghost no_call: { (log : Self) → wrote log [] log };

    /// A fault came in one of the calls.
    ghost cause: { (opened log : Self) (calls : List GroupCall) → fault opened ≡ None → wrote opened calls log
        → CameInCalls (faults opened) (faults log) (fault log) };
}

impl<D: Disk> GroupLog for LogWriter<D> {
    ghost use Rattle.log_writer.specs.Words.{disk_of, number_of, len_of, fault_of};
    ghost use Rattle.log_writer.specs.Written.{Wrote, no_call};
    ghost use Rattle.log_writer.specs.FaultLaws.{caused_in_calls};
    ghost use Rattle.log_writer.specs.ReadableLogs.{KeepsBatches, IsOneFile};

    ghost wrote = { λ old calls new. Wrote old calls new };

    ghost keeps = { λ log batches. KeepsBatches log batches };

    ghost len = { λ log. len_of log };

    ghost fault = { λ log. fault_of log };

    ghost faults = { λ log. D.faults (disk_of log) };

    ghost holds = { λ log files. IsOneFile log files };

    ghost many = { λ log. 1 };

    ghost number = { λ log. number_of log };

    ghost no_call = { λ log. no_call };

    ghost cause = { λ opened log calls alive wrote. caused_in_calls opened calls log alive wrote };

    fn add_group(&mut self, first: u64, members: &[Batch], sync: bool) -> Result<(), Fault> {
        self.add_group(first, members, sync)
    }

    fn len(&self) -> u64 {
        self.len()
    }

    fn fault(&self) -> Option<u64> {
        self.fault()
    }

    fn faults(&self) -> u64 {
        self.faults()
    }
}

impl<D: Disk> GroupLog for LogSet<D> {
    ghost use Rattle.log_writer.specs.Sets.{WroteSet, count_in, fault_in, len_in, logs_of};
    ghost use Rattle.log_writer.specs.Sets as sets;
    ghost use Rattle.log_writer.specs.SetFaultLaws.{caused_in_set};
    ghost use Rattle.log_writer.specs.ReadableLogs.{SetKeepsNone, AreSetFiles};

    ghost wrote = { λ old calls new. WroteSet old calls new };

    ghost keeps = { λ set batches. SetKeepsNone set batches };

    ghost len = { λ set. len_in set };

    ghost fault = { λ set. fault_in set };

    ghost faults = { λ set. count_in (logs_of set) };

    ghost holds = { λ set files. AreSetFiles set files };

    ghost many = { λ set. length (logs_of set) };

    // Its logs have no number.
    ghost number = { λ set. None };

    ghost no_call = { λ set. sets.no_call };

    ghost cause = { λ opened set calls alive wrote. caused_in_set opened calls set alive wrote };

    fn add_group(&mut self, first: u64, members: &[Batch], sync: bool) -> Result<(), Fault> {
        self.add_group(first, members, sync)
    }

    fn len(&self) -> u64 {
        self.len()
    }

    fn fault(&self) -> Option<u64> {
        self.fault()
    }

    fn faults(&self) -> u64 {
        self.faults()
    }
}
