//! The log of groups.

ghost use Rattle.std.specs.Prelude.{◌≡◌, ◌≤◌, vec_len, IfOk, IfSome, None};
ghost use Rattle.std.proofs.Props.{props};

use crate::group_bytes::assure_batch;
use crate::puts::{keep, put_group, sync_if};
use crate::{Fault, OpenError};
use base_devices::{Disk, Failed, ReadAt};
use log_batch::Batch;
use log_block::BLOCK_LEN;
use model_base::NoMemory;
use std::alloc::Global;

/// A log on a disk, to which groups of batches are written. Once a write has failed it takes no more.
pub struct LogWriter<D: Disk> {
    disk: D,
    /// Where a fragment is put together: as many bytes as a block has.
    block: Vec<u8>,
    /// The log's number, if it has one.
    number: Option<u32>,
    /// The length of the log: the bytes that it kept, and those of the groups that were written whole.
    len: u64,
    /// The disk's count of faults when a write or a sync failed, if one did.
    fault: Option<u64>,
    ghost room: { vec_len block ≡ 32768 },
    ghost within: { len ≤ D.added disk },
    ghost told_len: { fault ≡ None → IfSome (D.told disk) (λ d. d.place ≡ len) } by { Prim.hlevel props },
}

impl<D: Disk> LogWriter<D> {
    ghost use Rattle.std.specs.Prelude.{◌+◌, ◌-◌, ◌^◌, ◌<◌, length, IsTrue, IfErr, OnOk, MatchOption, Some};
    ghost use Rattle.model_base.specs.History.{max_sequence};
    ghost use Rattle.log_writer.specs.Words.{disk_of, number_of, len_of, fault_of, room_of};
    ghost use Rattle.log_writer.specs.Groups.{counts_of, body_lens_of, record_of_group};
    ghost use Rattle.log_writer.specs.Crashes.{LeavesPrefix, IsDurable};
    ghost use Rattle.log_writer.specs.Adding.{Adds, Syncs, FailsToSync, call_of, count_of_fault};
    ghost use Rattle.log_writer.specs.Opening.{HasOpened, HasReused, HasResumed, SpellsInFront, IsOpenError, IsReuseError, IsResumeError};
    ghost use Rattle.log_writer.specs.SetOpening.{IsEmpty, IsNew};

    /// Opens the log of an empty disk, with one look at its length.
    pub fn open(alloc: Global, mut disk: D) -> Result<LogWriter<D>, (D, OpenError)>
        // The log has nothing yet, and no number, and the disk was found empty.
        ensures ok { IfOk result (HasOpened disk) }
        // The disk comes back as it was. Where the reason is another one than a fault, none was counted.
        ensures err { IfErr result (λ e. IsOpenError ⟦<D as Disk>⟧ disk e.0 e.1) }
    {
        let len = match disk.len() {
            Ok(len) => len,
            Err(_) => {
                let count = disk.faults();
                return Err((disk, OpenError::Fault { count }));
            }
        };
        if len > 0 {
            return Err((disk, OpenError::NotEmpty { len }));
        }
        match empty_block(alloc) {
            Ok(block) => Ok(LogWriter {
                disk,
                block,
                number: None,
                len: 0,
                fault: None,
            }),
            Err(_) => Err((disk, OpenError::NoMemory)),
        }
    }

    /// The log of an empty disk, over this block.
    pub(crate) fn on(disk: D, block: Vec<u8>) -> LogWriter<D>
        requires block { vec_len block ≡ BLOCK_LEN }
        requires empty { IsEmpty ⟦<D as Disk>⟧ disk }
        ensures disk { disk_of result ≡ disk }
        ensures new { IsNew result }
    {
        LogWriter {
            disk,
            block,
            number: None,
            len: 0,
            fault: None,
        }
    }

    /// Opens a log with a number that is written over what is on the disk, from its start on, as RocksDB recycles log
    /// files (`recycle_log_file_num`). The disk is only rewound: the bytes of an older log stay until they are written
    /// over, and a reader tells them from the new ones by their number. So the number must be one that no log on this
    /// disk had.
    ///
    /// Where that fails, by a fault of the disk or for want of memory, the disk is handed back with the error. Memory
    /// is asked for first: where there is none, the disk is as it was.
    pub fn reuse(alloc: Global, mut disk: D, number: u32) -> Result<LogWriter<D>, (D, OpenError)>
        // Until the first append a crash leaves only what it might have left before.
        ensures ok { IfOk result (HasReused disk number) }
        // After a fault the disk is as it was, or rewound. The error has the count of that fault.
        ensures err { IfErr result (λ e. IsReuseError ⟦<D as Disk>⟧ disk e.0 e.1) }
    {
        let block = match empty_block(alloc) {
            Ok(block) => block,
            Err(_) => return Err((disk, OpenError::NoMemory)),
        };
        match disk.rewind() {
            Ok(()) => Ok(LogWriter {
                disk,
                block,
                number: Some(number),
                len: 0,
                fault: None,
            }),
            Err(_) => {
                let count = disk.faults();
                Err((disk, OpenError::Fault { count }))
            }
        }
    }

    /// Opens the log with this number, or with none, after the first `kept` bytes of the disk, which are records of
    /// such a log. What follows them is cut off, and what is kept is synced: so a crash can't bring back what was cut
    /// off, in front of what is written later.
    ///
    /// Where that fails, by a fault of the disk or for want of memory, the disk is handed back with the error. Memory
    /// is asked for first: where there is none, the disk is as it was.
    pub fn resume(
        alloc: Global,
        mut disk: D,
        kept: u64,
        number: Option<u32>,
    ) -> Result<LogWriter<D>, (D, OpenError)>
        requires records { IfSome (D.told disk) (λ d. SpellsInFront number kept d.content) }
        // What is kept is all that the disk has then, and it is safe. A crash in the call leaves those of these bytes
        // that were safe before, and nothing past what writes could reach.
        ensures ok { IfOk result (HasResumed disk kept number) }
        // After a fault the disk is as it was, or cut. The error has the count of that fault.
        ensures err { IfErr result (λ e. IsResumeError ⟦<D as Disk>⟧ disk e.0 kept e.1) }
    {
        let block = match empty_block(alloc) {
            Ok(block) => block,
            Err(_) => return Err((disk, OpenError::NoMemory)),
        };
        match keep(&mut disk, kept) {
            Ok(()) => Ok(LogWriter {
                disk,
                block,
                number,
                len: kept,
                fault: None,
            }),
            Err(_) => {
                let count = disk.faults();
                Err((disk, OpenError::Fault { count }))
            }
        }
    }

    /// Writes a group of batches as one record, after what the log has: a header of twelve bytes, which are the
    /// sequence `first` and the sum of the members' counts, and then the members' bytes after their headers. There is
    /// one append for each block that the record touches, and one sync if that is asked. It takes no memory.
    ///
    /// A fault of the disk ends the log: each later call is answered with the count of faults that was kept, and
    /// leaves the disk alone, since nobody knows what is after the log's end. A write or a sync that failed is never
    /// tried again.
    ///
    /// Unless a checksum matches by chance, a crash at any moment of the call leaves a prefix of the earlier records
    /// followed by this one, with all that was safe. Once a call that syncs has worked, a crash leaves all of them.
    pub fn add_group(&mut self, first: u64, members: &[Batch], sync: bool) -> Result<(), Fault>
        requires some { 0 < length members.now }
        requires counts { counts_of members.now < 2 ^ 32 }
        requires run { first + counts_of members.now - 1 ≤ max_sequence }
        requires lens { body_lens_of members.now < 2 ^ 63 }
        // The record is in the log, and safe if a sync was asked; or the log is as it was, with any bytes after it, and
        // takes no more. What is written is a batch, so recovery can keep it.
        ensures adds { Adds (call_of first members.now sync result) self.old self.new }
        ensures no_fault { OnOk result (D.faults (disk_of self.new) ≡ D.faults (disk_of self.old)) }
        // A leader that writes its group needs no answer for want of memory.
        ensures room { room_of self.new ≡ room_of self.old }
        // At any moment of the call. What was safe before stays, whatever becomes of this record.
        ensures crash { let record_bytes = record_of_group first members.now in
            LeavesPrefix ⟦<D as Disk>⟧ (disk_of self.old) (disk_of self.new) record_bytes }
        // Recovery finds it then, and a reader too, under the premise that no torn or older fragment has a right
        // checksum by chance.
        ensures durable { let record_bytes = record_of_group first members.now in
            OnOk result (IsTrue sync
            → IsDurable ⟦<D as Disk>⟧ (number_of self.old) (disk_of self.old) (disk_of self.new) record_bytes) }
    {
        assure_batch(first, members);
        if let Some(count) = self.fault {
            return Err(Fault { count });
        }
        match put_group(
            &mut self.disk,
            &mut self.block,
            self.number,
            self.len,
            first,
            members,
            sync,
        ) {
            Ok(end) => {
                self.len = end;
                Ok(())
            }
            Err(_) => {
                let count = self.disk.faults();
                self.fault = Some(count);
                Err(Fault { count })
            }
        }
    }

    /// Makes all that was written safe, by one sync of the disk. A fault ends the log, as it does in [`add_group`].
    ///
    /// [`add_group`]: LogWriter::add_group
    pub fn sync(&mut self) -> Result<(), Fault>
        ensures dead { IfSome (fault_of self.old)
            (λ count. (count_of_fault result ≡ Some count) × (self.new ≡ self.old)) }
        ensures synced { fault_of self.old ≡ None
            → MatchOption (count_of_fault result) (Syncs self.old self.new) (FailsToSync self.old self.new) }
        ensures room { room_of self.new ≡ room_of self.old }
    {
        if let Some(kept) = self.fault {
            return Err(Fault { count: kept });
        }
        match sync_if(&mut self.disk, true) {
            Ok(()) => Ok(()),
            Err(_) => {
                let count = self.disk.faults();
                self.fault = Some(count);
                Err(Fault { count })
            }
        }
    }

    /// How many calls of the disk have failed.
    pub(crate) fn faults(&self) -> u64
        ensures { result ≡ D.faults (disk_of self.now) }
    {
        self.disk.faults()
    }

    /// The length of the log: the bytes that it kept, and those of the groups that were written whole.
    pub fn len(&self) -> u64
        ensures { result ≡ len_of self.now }
    {
        self.len
    }

    /// The log's number, if it has one.
    pub fn number(&self) -> Option<u32>
        ensures { result ≡ number_of self.now }
    {
        self.number
    }

    /// The count of the fault that ended the log, if one did.
    pub fn fault(&self) -> Option<u64>
        ensures { result ≡ fault_of self.now }
    {
        self.fault
    }

    /// The disk as it is.
    pub fn into_disk(self) -> D
        ensures { result ≡ disk_of self }
    {
        let LogWriter {
            disk,
            block: _,
            number: _,
            len: _,
            fault: _,
        } = self;
        disk
    }
}

/// The log is read up to its end, which is that of the last group that was written whole. What a group whose write
/// failed has left after it is never read.
impl<D: Disk> ReadAt for LogWriter<D> {
    ghost use Rattle.log_writer.specs.Words.{disk_of};
    ghost use Rattle.log_writer.specs.Reads.{WasRead, held_in};
    ghost use Rattle.log_writer.specs.ReadLaws.{not_read, read_on, read_keeps, read_counts};

    ghost held = { λ log. held_in log };

    ghost failures = { λ log. D.faults (disk_of log) };

    ghost only_reads = { λ a b. WasRead a b };

    ghost reads_none = { λ log. not_read log };

    ghost reads_on = { λ a b c first second. read_on a b c first second };

    ghost reads_keep = { λ a b r. read_keeps a b r };

    ghost reads_count = { λ a b r. read_counts a b r };

    fn failure_count(&self) -> u64 {
        self.disk.faults()
    }

    fn read_at(&mut self, at: u64, buf: &mut [u8]) -> Result<usize, Failed> {
        if at >= self.len {
            return Ok(0);
        }
        let some = (self.len - at).min(buf.len() as u64) as usize;
        self.disk.read(at, &mut buf[..some])
    }
}

/// Room to put a fragment together: as many bytes as a block has.
pub(crate) fn empty_block(alloc: Global) -> Result<Vec<u8>, NoMemory>
    ensures { IfOk result (λ block. vec_len block ≡ BLOCK_LEN) }
{
    Ok(vec![in alloc; 0u8; BLOCK_LEN]?)
}
