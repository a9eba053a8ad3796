//! A log that can be read while it is open.

ghost use Rattle.std.specs.Prelude.{◌≡◌, ◌<◌, ◌≤◌, ◌++◌, length, slice_get};
ghost use Rattle.log_writer.specs.ReadableLogs.{HoldInTurn, batches_by};

use crate::{GroupLog, LogSet, LogWriter};
use base_devices::{Disk, ReadAt};

/// A log of groups that can be read while it is open, whatever it is made of. Reading it changes nothing of it.
///
/// It is one log ([`LogWriter`]), or several ([`LogSet`]); one of them at a time is read, from the first on until
/// another one is chosen. What has not begun has no bytes. A group whose write failed is no part of what is read.
///
/// [`LogSet`]: crate::LogSet
pub trait ReadableLog: GroupLog + ReadAt {
    ghost use Rattle.std.specs.Prelude.{ℕ, List, []};
    ghost use Rattle.model_base.specs.LogContents.{GroupCall};
    ghost use Rattle.model_base.specs.Recovery.{Logged};

    /// Which of its logs is read, counted from 0.
    ghost chosen: { Self → ℕ };

    /// The second value is the first one after calls that only read, or choose another log.
    ghost stays: { Self → Self → Type 0 };

    /// How many logs it has.
    fn logs(&self) -> usize
        ensures many { result ≡ Self.many self.now }
        // Its logs hold the batches that they kept, and those of the calls that wrote it, and nothing else.
        ensures holds { (opened : Self) (kept : List Logged) (calls : List GroupCall) (files : List (List ℕ))
            → Self.keeps opened kept → Self.wrote opened calls self.now → Self.holds self.now files
            → HoldInTurn (Self.number self.now) files (kept ++ batches_by calls) };

    /// Chooses the log that is read from now on.
    fn turn_to(&mut self, which: usize)
        requires there { which < Self.many self.old }
        ensures chosen { chosen self.new ≡ which }
        ensures stays { stays self.old self.new }
        ensures counts_none { Self.faults self.new ≡ Self.faults self.old };

    /// The number of its logs, if they have one.
    fn number(&self) -> Option<u32>
        ensures { result ≡ Self.number self.now };

    /// What its logs hold stays known.
    ghost known: { (opened log : Self) (kept : List Logged) (calls : List GroupCall) → Self.keeps opened kept
        → Self.wrote opened calls log → (files : List (List ℕ)) × Self.holds log files };

    /// There is a log.
    ghost some_logs: { (log : Self) → 0 < Self.many log };

    /// The bytes of the log that is chosen are what is read.
    ghost holds_chosen: { (log : Self) (files : List (List ℕ)) → Self.holds log files → chosen log < Self.many log
        → Self.held log ≡ slice_get files (chosen log) };

    ghost as_many: { (log : Self) (files : List (List ℕ)) → Self.holds log files → length files ≡ Self.many log };

    /// No call at all, and two stretches of reading, one after the other.
    ghost stays_none: { (log : Self) → stays log log };

    ghost stays_on: { (a b c : Self) → stays a b → stays b c → stays a c };

    /// Reading lets all stay.
    ghost reads_stay: { (a b : Self) → Self.only_reads a b → stays a b };

    /// It is still written by the same calls.
    ghost stays_written: { (opened a b : Self) (calls : List GroupCall) → Self.wrote opened calls a → stays a b
        → Self.wrote opened calls b };

    /// And where no call was made, it was only read.
    ghost only_stays: { (opened log : Self) → Self.wrote opened [] log → stays opened log };

    ghost stays_held: { (a b : Self) (files : List (List ℕ)) → stays a b → Self.holds a files → Self.holds b files };

    ghost stays_many: { (a b : Self) → stays a b → Self.many b ≡ Self.many a };

    ghost stays_number: { (a b : Self) → stays a b → Self.number b ≡ Self.number a };

    ghost stays_long: { (a b : Self) → stays a b → Self.len b ≡ Self.len a };

    ghost stays_failed: { (a b : Self) → stays a b → Self.fault b ≡ Self.fault a };

    ghost stays_counted: { (a b : Self) → stays a b → Self.faults a ≤ Self.faults b };

    /// The faults of reads are counted with those of writes.
    ghost one_count: { (log : Self) → Self.failures log ≡ Self.faults log };
}

impl<D: Disk> ReadableLog for LogWriter<D> {
    ghost use Rattle.std.specs.Prelude.{refl};
    ghost use Rattle.log_writer.specs.Reads.{WasRead};
    ghost use Rattle.log_writer.specs.ReadLaws as laws;
    ghost use Rattle.log_writer.specs.TellLaws as telling;

    ghost chosen = { λ log. 0 };

    ghost stays = { λ a b. WasRead a b };

    ghost known = { λ opened log kept calls keeps wrote. telling.one_file_known opened log kept calls keeps wrote };

    ghost some_logs = { λ log. laws.one_log };

    ghost holds_chosen = { λ log files is there. laws.one_file_held log files is };

    ghost as_many = { λ log files is. laws.one_file_many log files is };

    ghost stays_none = { λ log. laws.not_read log };

    ghost stays_on = { λ a b c first second. laws.read_on a b c first second };

    ghost reads_stay = { λ a b r. r };

    ghost stays_written = { λ opened a b calls wrote r. laws.read_later opened a b calls wrote r };

    ghost only_stays = { λ opened log wrote. laws.only_read opened log wrote };

    ghost stays_held = { λ a b files r is. laws.one_file_kept a b files r is };

    ghost stays_many = { λ a b r. refl };

    ghost stays_number = { λ a b r. r.number };

    ghost stays_long = { λ a b r. r.len };

    ghost stays_failed = { λ a b r. r.fault };

    ghost stays_counted = { λ a b r. laws.read_counts a b r };

    ghost one_count = { λ log. refl };

    /// It is 1.
    fn logs(&self) -> usize {
        1
    }

    /// There is no other log.
    fn turn_to(&mut self, _which: usize) {}

    fn number(&self) -> Option<u32> {
        self.number()
    }
}

impl<D: Disk> ReadableLog for LogSet<D> {
    ghost use Rattle.std.specs.Prelude.{refl};
    ghost use Rattle.log_writer.specs.Sets.{chosen_of, SetWasRead};
    ghost use Rattle.log_writer.specs.ReadLaws as laws;
    ghost use Rattle.log_writer.specs.TellLaws as telling;

    ghost chosen = { λ set. chosen_of set };

    ghost stays = { λ a b. SetWasRead a b };

    ghost known = { λ opened set kept calls keeps wrote. telling.set_files_known opened set kept calls keeps wrote };

    ghost some_logs = { λ set. laws.set_some_logs set };

    ghost holds_chosen = { λ set files are there. laws.set_file_held set files are there };

    ghost as_many = { λ set files are. laws.set_files_many set files are };

    ghost stays_none = { λ set. laws.set_not_read set };

    ghost stays_on = { λ a b c first second. laws.set_read_on a b c first second };

    ghost reads_stay = { λ a b r. r.was_read };

    ghost stays_written = { λ opened a b calls wrote r. laws.set_read_later opened a b calls wrote r };

    ghost only_stays = { λ opened set wrote. laws.set_only_read opened set wrote };

    ghost stays_held = { λ a b files r are. laws.set_files_kept a b files r are };

    ghost stays_many = { λ a b r. laws.set_as_many a b r };

    ghost stays_number = { λ a b r. refl };

    ghost stays_long = { λ a b r. laws.set_as_long a b r };

    ghost stays_failed = { λ a b r. r.fault };

    ghost stays_counted = { λ a b r. laws.set_counts a b r };

    ghost one_count = { λ set. refl };

    /// It is how many disks the set was opened on.
    fn logs(&self) -> usize {
        self.many()
    }

    fn turn_to(&mut self, which: usize) {
        self.choose(which);
    }

    fn number(&self) -> Option<u32> {
        None
    }
}
