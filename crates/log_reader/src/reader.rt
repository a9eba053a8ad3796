//! The records of a log, one after another.

ghost use Rattle.std.specs.Prelude.{◌≡◌, ◌+◌, ◌^◌, ◌<◌, ◌≤◌, ℕ, List, [], ◌++◌, length, take, drop, slice_range, nat_lt, None, Some, IfOk, IfErr, IfSome, OnOk};
ghost use Rattle.base_devices.specs.Faults.{Rose};
ghost use Rattle.model_base.specs.Log.{Kind, kind_code, room};
ghost use Rattle.log_reader.specs.declared.reader.Next.TheVariants.{Fault};
ghost use Rattle.log_reader.specs.Blocks.{IsNext};
ghost use Rattle.log_reader.specs.Damaged.{is_damaged};
ghost use Rattle.log_reader.specs.Opens.{IsOpenError, starts_at};
ghost use Rattle.log_reader.specs.Windows.{IsSound, IsOn, IsMovedTo, HasBytes, offset_of, bytes_of};
ghost use Rattle.log_reader.specs.Records.{Reads, HasFault, stopped_by};
ghost use Rattle.log_reader.specs.Steps as steps;
ghost use Rattle.log_reader.specs.Steps.{HasReadPart, StepIs, EndsAt, Moves, HasFaultStep, end_of_reading};
ghost use Rattle.log_reader.specs.Reader.{Follows, HasBlock, PlaceAfter, GoesForward, IsSmall};

use crate::errors::OpenError;
use crate::window::Window;
use base_devices::ReadAt;
use log_block::{BLOCK_LEN, FIRST, FULL, LAST, MIDDLE, Seen, plain_type};
use model_base::{EndReason, NoMemory};
use std::alloc::Global;
use std::marker::Model;

/// What reading on gives.
#[derive(Clone, Copy, Debug, PartialEq, Eq)]
pub enum Next {
    /// A record, which is now in hand: the offset of its first fragment, and the one after its last.
    Record { start: u64, end: u64 },
    /// No more records are read: the offset where that shows, and why.
    End { at: u64, why: EndReason },
    /// The disk failed, and this is its count of faults.
    Fault { count: u64 },
    /// There was no memory for the record.
    NoMemory,
}

/// Reads the records of a log, from the first on. Contracts see the log's number, if it has one, the place up to which
/// it has read records, the record in hand, whether it has stopped and with which answer, and its window.
///
/// The disk is passed to each call and isn't kept: if a value that owns memory borrowed the disk, no contract could
/// say what the disk is afterwards.
#[derive(Debug, Drop)]
pub struct LogReader {
    number: Option<u32>,
    window: Window,
    in_hand: Vec<u8>,
    place: u64,
    stopped: Option<Next>,
}

impl Model for LogReader {
    ghost use Rattle.log_reader.specs.Reader.{Reader, IsReader};

    ghost Value = { Reader };

    ghost view = { λ r. record {
      number = r.number;
      place = r.place;
      in_hand = r.in_hand.items;
      stopped = r.stopped;
      window = r.window;
    } };

    ghost invariant = { λ r. IsReader (record {
      number = r.number;
      place = r.place;
      in_hand = r.in_hand.items;
      stopped = r.stopped;
      window = r.window;
    }) };
}

impl LogReader {
    /// A reader at the start of a log with this number, if it has one. It has read nothing yet. This call makes the
    /// room for a block.
    pub fn open(alloc: Global, number: Option<u32>) -> Result<LogReader, NoMemory>
        ensures number { IfOk result (λ r. r.number ≡ number) }
        ensures start { IfOk result (λ r. r.place ≡ 0) }
        ensures going { IfOk result (λ r. r.stopped ≡ None) }
        ensures empty { IfOk result (λ r. r.in_hand ≡ []) }
        ensures follows { IfOk result (λ r. (file : List ℕ) → Follows file r) }
    {
        Ok(LogReader {
            number,
            window: Window::new(alloc)?,
            in_hand: Vec::new(alloc),
            place: 0,
            stopped: None,
        })
    }

    /// A reader of a log with this number, if it has one, which begins at an offset: the end of a record that was read
    /// before, or any other place at which a record may begin. It reads the block that has the place.
    pub fn open_at<R: ReadAt>(
        alloc: Global,
        number: Option<u32>,
        place: u64,
        disk: &mut R,
    ) -> Result<LogReader, OpenError>
        requires small { place < 2 ^ 63 }
        ensures number { IfOk result (λ r. r.number ≡ number) }
        ensures going { IfOk result (λ r. r.stopped ≡ None) }
        ensures empty { IfOk result (λ r. r.in_hand ≡ []) }
        ensures there { IfSome (R.held disk.old) (λ file. place ≤ length file
            → IfOk result (λ r. (r.place ≡ place) × Follows file r)) }
        // If the file ends before the place, the reader's place may be before it too.
        ensures within { IfOk result (λ r. r.place ≤ place) }
        ensures worked { OnOk result (R.failures disk.new ≡ R.failures disk.old) }
        ensures error { IfErr result (IsOpenError (R.failures disk.old) (R.failures disk.new)) }
        ensures disk { R.only_reads disk.old disk.new }
    {
        let mut reader = LogReader::open(alloc, number)?;
        match reader.go_to(place, disk) {
            Ok(_) => Ok(reader),
            Err(count) => Err(OpenError::Fault { count }),
        }
    }

    /// Goes to an offset of the same log, also after the reader has stopped, and answers whether the file has a byte
    /// there. The block that has the offset is read, unless the reader has it. The record in hand stays. For a fault of
    /// the disk it answers the disk's count of faults, and the reader has stopped.
    pub fn go_to<R: ReadAt>(&mut self, place: u64, disk: &mut R) -> Result<bool, u64>
        requires small { place < 2 ^ 63 }
        ensures number { self.new.number ≡ self.old.number }
        ensures going { OnOk result (self.new.stopped ≡ None) }
        ensures stopped { IfErr result (λ count. self.new.stopped ≡ Some (Fault count)) }
        ensures in_hand { self.new.in_hand ≡ self.old.in_hand }
        ensures has { IfSome (R.held disk.old) (λ file. Follows file self.old
            → IfOk result (λ has. has ≡ nat_lt place (length file))) }
        ensures there { IfSome (R.held disk.old) (λ file. Follows file self.old → place ≤ length file
            → OnOk result (self.new.place ≡ place)) }
        // If the file ends before the place, the reader's place may be before it too.
        ensures within { OnOk result (self.new.place ≤ place) }
        ensures follows { IfSome (R.held disk.old) (λ file. Follows file self.old → starts_at place ≤ length file
            → Follows file self.new) }
        ensures block { OnOk result (HasBlock self.new) }
        ensures worked { OnOk result (R.failures disk.new ≡ R.failures disk.old) }
        ensures fault { IfErr result (λ count. Rose (R.failures disk.old) count × (count ≡ R.failures disk.new)) }
        ensures disk { R.only_reads disk.old disk.new }
    {
        self.move_to(place, disk)?;
        Ok(place < self.window.end())
    }

    /// Goes to an offset of the same log, as `go_to` does, and answers whether there is damage.
    pub fn is_damaged_at<R: ReadAt>(&mut self, place: u64, disk: &mut R) -> Result<bool, u64>
        requires small { place < 2 ^ 63 }
        ensures is { IfSome (R.held disk.old) (λ file. Follows file self.old
            → IfOk result (λ is. is ≡ is_damaged self.old.number file place)) }
        ensures number { self.new.number ≡ self.old.number }
        ensures going { OnOk result (self.new.stopped ≡ None) }
        ensures stopped { IfErr result (λ count. self.new.stopped ≡ Some (Fault count)) }
        ensures in_hand { self.new.in_hand ≡ self.old.in_hand }
        ensures follows { IfSome (R.held disk.old) (λ file. Follows file self.old → starts_at place ≤ length file
            → Follows file self.new) }
        ensures worked { OnOk result (R.failures disk.new ≡ R.failures disk.old) }
        ensures fault { IfErr result (λ count. Rose (R.failures disk.old) count × (count ≡ R.failures disk.new)) }
        ensures disk { R.only_reads disk.old disk.new }
    {
        self.move_to(place, disk)?;
        Ok(self.window.is_damaged(self.number))
    }

    /// The place up to which it has read records, or the one to which it went.
    pub fn place(&self) -> u64
        ensures { result ≡ self.now.place }
    {
        self.place
    }

    /// The bytes of the log from the reader's place to the end of its block, as far as the file has them, once the
    /// reader went there by `go_to`.
    pub fn rest(&self) -> &[u8]
        ensures in_block { length result.now ≤ BLOCK_LEN }
        ensures small { self.now.stopped ≡ None → self.now.place + length result.now < 2 ^ 63 }
        ensures bytes { (file : List ℕ) → Follows file self.now → HasBlock self.now → self.now.stopped ≡ None
            → result.now ≡ take (room self.now.place) (drop self.now.place file) }
    {
        self.window.part(self.window.at, self.window.len)
    }

    /// Goes to an offset of the same log, also after the reader has stopped. For a fault of the disk it answers the
    /// disk's count of faults, and the reader has stopped.
    fn move_to<R: ReadAt>(&mut self, place: u64, disk: &mut R) -> Result<(), u64>
        requires small { place < 2 ^ 63 }
        ensures number { self.new.number ≡ self.old.number }
        ensures going { OnOk result (self.new.stopped ≡ None) }
        ensures stopped { IfErr result (λ count. self.new.stopped ≡ Some (Fault count)) }
        ensures in_hand { self.new.in_hand ≡ self.old.in_hand }
        ensures moved { OnOk result (IsMovedTo place self.new.window) }
        ensures place { OnOk result (self.new.place ≡ offset_of self.new.window) }
        ensures bytes { IfSome (R.held disk.old) (λ file. Follows file self.old → HasBytes file self.new.window) }
        ensures follows { IfSome (R.held disk.old) (λ file. Follows file self.old → starts_at place ≤ length file
            → Follows file self.new) }
        ensures worked { OnOk result (R.failures disk.new ≡ R.failures disk.old) }
        ensures fault { IfErr result (λ count. Rose (R.failures disk.old) count × (count ≡ R.failures disk.new)) }
        ensures disk { R.only_reads disk.old disk.new }
    {
        match self.window.move_to(place, disk) {
            Ok(()) => {
                self.place = self.window.offset();
                self.stopped = None;
                Ok(())
            }
            Err(count) => {
                self.stopped = Some(Next::Fault { count });
                Err(count)
            }
        }
    }

    /// Reads the next record of the log that the disk holds, which should be the same log at each call. After any
    /// answer but `Record` the same answer comes again, and the disk isn't touched. A read that failed is never tried
    /// again.
    pub fn next<R: ReadAt>(&mut self, disk: &mut R) -> Next
        // Of a file whose content is known: the next record of the definition, with its place and its bytes in hand, or
        // where nothing more is read and why.
        ensures reads { IfSome (R.held disk.old) (λ file. Follows file self.old → self.old.stopped ≡ None
            → Reads self.old.number file self.old.place self.new.in_hand result) }
        ensures number { self.new.number ≡ self.old.number }
        ensures place { self.old.stopped ≡ None → PlaceAfter self.old self.new result }
        // A loop over the records ends: each of them ends after the place before it.
        ensures forward { self.old.stopped ≡ None → GoesForward self.old.place result }
        // Also where the disk tells nothing.
        ensures small { IsSmall result }
        // So the clause `reads` is good for the next call as well.
        ensures follows { IfSome (R.held disk.old) (λ file. Follows file self.old → Follows file self.new) }
        // A fault is answered only where the count rose in this call, with the count that the disk then has, and any
        // other answer only where it stayed as it was.
        ensures fault { self.old.stopped ≡ None → HasFault (R.failures disk.old) (R.failures disk.new) result }
        ensures stopped { self.old.stopped ≡ None → self.new.stopped ≡ stopped_by result }
        ensures again { IfSome self.old.stopped (λ answer. (result ≡ answer) × (self.new ≡ self.old)) }
        ensures untouched { IfSome self.old.stopped (λ _. disk.new ≡ disk.old) }
        // The disk is only read.
        ensures disk { R.only_reads disk.old disk.new }
    {
        if let Some(answer) = self.stopped {
            return answer;
        }
        let answer = read_record(self.number, &mut self.window, &mut self.in_hand, disk);
        match answer {
            Next::Record { end, .. } => self.place = end,
            _ => self.stopped = Some(answer),
        }
        answer
    }

    /// The record in hand: the one that the last call of `next` read, where it answered `Record`.
    pub fn record(&self) -> &[u8]
        ensures { result.now ≡ self.now.in_hand }
    {
        &self.in_hand
    }
}

/// What one more fragment gives.
enum Step {
    /// The record goes on. It begins at this offset.
    More(u64),
    Done(Next),
}

/// How a record continues with a fragment.
enum Continuation {
    /// It ends there. It begins at this offset.
    Last(u64),
    /// It goes on. It begins at this offset.
    More(u64),
    /// No fragment of this type may come there.
    Misplaced,
}

/// Reads the next record, from the window's place on.
fn read_record<R: ReadAt>(
    number: Option<u32>,
    window: &mut Window,
    in_hand: &mut Vec<u8>,
    disk: &mut R,
) -> Next
    requires { IsSound window.old }
    ensures sound { IsSound window.new }
    ensures reads { IfSome (R.held disk.old) (λ file. IsOn file window.old
        → Reads number file (offset_of window.old) in_hand.new.items result) }
    ensures on { IfSome (R.held disk.old) (λ file. IsOn file window.old → IsOn file window.new) }
    ensures end { EndsAt (offset_of window.old) (offset_of window.new) result }
    ensures fault { HasFault (R.failures disk.old) (R.failures disk.new) result }
    ensures disk { R.only_reads disk.old disk.new }
{
    in_hand.clear();
    let mut begun = None;
    // The fragments read so far are the beginning of one record, and `in_hand` has their parts joined.
    loop {
        match read_part(number, window, in_hand, begun, disk) {
            Step::More(start) => begun = Some(start),
            Step::Done(answer) => return answer,
        }
    }
}

/// Reads one more fragment of a record. `begun` is where the record begins, if fragments of it were read already.
fn read_part<R: ReadAt>(
    number: Option<u32>,
    window: &mut Window,
    in_hand: &mut Vec<u8>,
    begun: Option<u64>,
    disk: &mut R,
) -> Step
    requires { IsSound window.old }
    ensures sound { IsSound window.new }
    ensures step { IfSome (R.held disk.old) (λ file. (place : ℕ) → IsOn file window.old
        → HasReadPart number file place begun in_hand.old.items (offset_of window.old)
        → StepIs number file place in_hand.new.items (offset_of window.new) result) }
    ensures on { IfSome (R.held disk.old) (λ file. IsOn file window.old → IsOn file window.new) }
    ensures moves { Moves (offset_of window.old) (offset_of window.new) result }
    ensures fault { HasFaultStep (R.failures disk.old) (R.failures disk.new) result }
    ensures disk { R.only_reads disk.old disk.new }
{
    match window.look(number, disk) {
        Ok(Seen::Fragment { kind, start, end }) => take_part(
            number, window, in_hand, begun, kind, start, end,
        ),
        Ok(Seen::End) => Step::Done(end_of_file(begun, window.end())),
        Ok(Seen::Damage(damage)) => Step::Done(Next::End {
            at: window.offset(),
            why: EndReason::Broken(damage),
        }),
        Err(count) => Step::Done(Next::Fault { count }),
    }
}

/// What it means that the file ends at this offset.
fn end_of_file(begun: Option<u64>, file_len: u64) -> Next
    ensures { result ≡ end_of_reading begun file_len }
{
    match begun {
        None => Next::End {
            at: file_len,
            why: EndReason::Clean,
        },
        Some(at) => Next::End {
            at,
            why: EndReason::Unfinished,
        },
    }
}

/// Adds to the record the part of a fragment of this type, if it may come there: the block's bytes from `start` to
/// `end`.
fn take_part(
    number: Option<u32>,
    window: &mut Window,
    in_hand: &mut Vec<u8>,
    begun: Option<u64>,
    kind: u8,
    start: usize,
    end: usize,
) -> Step
    requires sound { IsSound window.old }
    requires after { window.old.at < start }
    requires ordered { start ≤ end }
    requires in_block { end ≤ window.old.len }
    ensures sound { IsSound window.new }
    ensures step { (file : List ℕ) (place offset : ℕ) → IsOn file window.old
        → HasReadPart number file place begun in_hand.old.items offset
        → IsNext number file offset window.old.start (bytes_of window.old) window.old.at kind start end
        → StepIs number file place in_hand.new.items (offset_of window.new) result }
    ensures on { (file : List ℕ) → IsOn file window.old → IsOn file window.new }
    ensures moves { Moves (offset_of window.old) (offset_of window.new) result }
    ensures no_fault { (count : ℕ) → HasFaultStep count count result }
{
    let at = window.offset();
    match continuation_of(number, kind, begun, at) {
        Continuation::Misplaced => Step::Done(Next::End {
            at,
            why: EndReason::BadOrder,
        }),
        Continuation::More(first) => match add_part(window, in_hand, start, end) {
            Ok(()) => Step::More(first),
            Err(_) => Step::Done(Next::NoMemory),
        },
        Continuation::Last(first) => match add_part(window, in_hand, start, end) {
            Ok(()) => Step::Done(Next::Record {
                start: first,
                end: window.offset(),
            }),
            Err(_) => Step::Done(Next::NoMemory),
        },
    }
}

/// How a record continues with a fragment of this type at the offset `at`. It begins at `begun`, if it has begun.
fn continuation_of(number: Option<u32>, kind: u8, begun: Option<u64>, at: u64) -> Continuation
    ensures { (k : Kind) → kind ≡ kind_code number k → result ≡ steps.continuation_of k begun at }
{
    match (plain_type(number, kind), begun) {
        (FULL, None) => Continuation::Last(at),
        (FIRST, None) => Continuation::More(at),
        (MIDDLE, Some(first)) => Continuation::More(first),
        (LAST, Some(first)) => Continuation::Last(first),
        _ => Continuation::Misplaced,
    }
}

/// Adds the part from `start` to `end` of the block to the record. The window's place is after the part then.
fn add_part(
    window: &mut Window,
    in_hand: &mut Vec<u8>,
    start: usize,
    end: usize,
) -> Result<(), NoMemory>
    requires sound { IsSound window.old }
    requires ordered { start ≤ end }
    requires in_block { end ≤ window.old.len }
    ensures sound { IsSound window.new }
    ensures added { OnOk result (in_hand.new.items ≡ in_hand.old.items ++ slice_range (bytes_of window.old) start end) }
    ensures there { OnOk result (offset_of window.new ≡ window.old.start + end) }
    ensures on { (file : List ℕ) → IsOn file window.old → IsOn file window.new }
{
    in_hand.extend_from_slice(window.part(start, end))?;
    window.go_to(end);
    Ok(())
}
