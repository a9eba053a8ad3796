//! The block of a log in which a reader is.

ghost use Rattle.std.specs.Prelude.{◌≡◌, ◌+◌, ◌%◌, ◌^◌, ◌<◌, ◌≤◌, ℕ, List, length, slice_range, IfOk, IfErr, IfSome, OnOk, true, false};
ghost use Rattle.base_devices.specs.Faults.{Rose};
ghost use Rattle.model_base.specs.Reading.{seen_in_block};
ghost use Rattle.log_reader.specs.Damaged.{is_damage};
ghost use Rattle.log_reader.specs.Opens.{starts_at};
ghost use Rattle.log_reader.specs.Windows.{IsSound, IsOn, IsMovedTo, HasBytes, offset_of, SeesNext, PartLies, bytes_of};

use crate::read_block::read_block;
use crate::see::see;
use base_devices::ReadAt;
use log_block::{BLOCK_LEN, Seen, read_fragment};
use model_base::NoMemory;
use std::alloc::Global;

/// The block in which a reader is, and its place there.
#[derive(Debug, Drop)]
pub struct Window {
    /// Room for a block. Its first bytes are the block's, once it is read.
    pub room: Vec<u8>,
    /// How many bytes the file has of the block.
    pub len: usize,
    /// Whether the block is read.
    pub is_read: bool,
    /// The offset of the block.
    pub start: u64,
    /// Where in the block the next fragment is looked for.
    pub at: usize,
}

impl Window {
    /// The first block of a log, not read yet.
    pub fn new(alloc: Global) -> Result<Window, NoMemory>
        ensures sound { IfOk result IsSound }
        ensures begins { IfOk result (λ w. offset_of w ≡ 0) }
        ensures unread { IfOk result (λ w. w.is_read ≡ false) }
        ensures on { IfOk result (λ w. (file : List ℕ) → IsOn file w) }
    {
        Ok(Window {
            room: vec![in alloc; 0u8; BLOCK_LEN]?,
            len: 0,
            is_read: false,
            start: 0,
            at: 0,
        })
    }

    /// Goes to this offset of a file. The block that has it is read, unless it is here. If the file ends before the
    /// offset, the place is before it too. For a fault of the disk it answers the disk's count of faults.
    pub fn move_to<R: ReadAt>(&mut self, place: u64, disk: &mut R) -> Result<(), u64>
        requires sound { IsSound self.old }
        requires small { place < 2 ^ 63 }
        ensures sound { IsSound self.new }
        ensures moved { OnOk result (IsMovedTo place self.new) }
        ensures bytes { IfSome (R.held disk.old) (λ file. IsOn file self.old → HasBytes file self.new) }
        ensures on { IfSome (R.held disk.old) (λ file. IsOn file self.old → starts_at place ≤ length file
            → IsOn file self.new) }
        ensures worked { OnOk result (R.failures disk.new ≡ R.failures disk.old) }
        ensures fault { IfErr result (λ count. Rose (R.failures disk.old) count × (count ≡ R.failures disk.new)) }
        ensures disk { R.only_reads disk.old disk.new }
    {
        let start = place - place % BLOCK_LEN as u64;
        self.enter(start);
        self.fill(disk)?;
        self.at = ((place - start) as usize).min(self.len);
        Ok(())
    }

    /// Goes to the block that begins at this offset. It isn't read yet, unless it is here.
    fn enter(&mut self, start: u64)
        requires sound { IsSound self.old }
        requires aligned { start % BLOCK_LEN ≡ 0 }
        requires small { start < 2 ^ 63 }
        ensures sound { IsSound self.new }
        ensures start { self.new.start ≡ start }
        ensures bytes { (file : List ℕ) → IsOn file self.old → HasBytes file self.new }
        ensures on { (file : List ℕ) → IsOn file self.old → start ≤ length file → IsOn file self.new }
    {
        if start != self.start {
            self.start = start;
            self.at = 0;
            self.len = 0;
            self.is_read = false;
        }
    }

    /// What the reader of a log with this number, if it has one, sees next. The reader's place is there then. For a
    /// fault of the disk it answers the disk's count of faults.
    pub fn look<R: ReadAt>(&mut self, number: Option<u32>, disk: &mut R) -> Result<Seen, u64>
        requires { IsSound self.old }
        ensures sound { IsSound self.new }
        ensures seen { IfSome (R.held disk.old) (λ file. IsOn file self.old
            → IfOk result (SeesNext number file (offset_of self.old) self.new)) }
        ensures on { IfSome (R.held disk.old) (λ file. IsOn file self.old → IsOn file self.new) }
        ensures part { IfOk result (PartLies self.new) }
        ensures forward { offset_of self.old ≤ offset_of self.new }
        ensures worked { OnOk result (R.failures disk.new ≡ R.failures disk.old) }
        ensures fault { IfErr result (λ count. Rose (R.failures disk.old) count × (count ≡ R.failures disk.new)) }
        ensures disk { R.only_reads disk.old disk.new }
    {
        // From the place where the window was at the call, the blocks before this one have nothing more.
        loop {
            self.fill(disk)?;
            match see(number, &self.room[..self.len], self.at) {
                Seen::End => {
                    if self.len < BLOCK_LEN {
                        return Ok(Seen::End);
                    }
                    self.go_on();
                }
                seen => return Ok(seen),
            }
        }
    }

    /// Reads the block, if it isn't read yet.
    fn fill<R: ReadAt>(&mut self, disk: &mut R) -> Result<(), u64>
        requires { IsSound self.old }
        ensures sound { IsSound self.new }
        ensures read { OnOk result (self.new.is_read ≡ true) }
        ensures bytes { IfSome (R.held disk.old) (λ file. HasBytes file self.old → HasBytes file self.new) }
        ensures on { IfSome (R.held disk.old) (λ file. IsOn file self.old → IsOn file self.new) }
        ensures start { self.new.start ≡ self.old.start }
        ensures at { self.new.at ≡ self.old.at }
        ensures worked { OnOk result (R.failures disk.new ≡ R.failures disk.old) }
        ensures fault { IfErr result (λ count. Rose (R.failures disk.old) count × (count ≡ R.failures disk.new)) }
        ensures disk { R.only_reads disk.old disk.new }
    {
        if !self.is_read {
            self.len = read_block(disk, self.start, &mut self.room)?;
            self.is_read = true;
        }
        Ok(())
    }

    /// Goes to the start of the next block.
    fn go_on(&mut self)
        requires sound { IsSound self.old }
        requires read { self.old.is_read ≡ true }
        requires full { self.old.len ≡ BLOCK_LEN }
        ensures sound { IsSound self.new }
        ensures on { (file : List ℕ) → IsOn file self.old → IsOn file self.new }
        ensures begins { offset_of self.new ≡ self.old.start + BLOCK_LEN }
        ensures start { self.new.start ≡ self.old.start + BLOCK_LEN }
    {
        self.start += BLOCK_LEN as u64;
        self.at = 0;
        self.len = 0;
        self.is_read = false;
    }

    /// The reader's offset in the log.
    pub fn offset(&self) -> u64
        requires { IsSound self.now }
        ensures { result ≡ offset_of self.now }
    {
        self.start + self.at as u64
    }

    /// The offset in the log where the block ends, as far as the file has it.
    pub fn end(&self) -> u64
        requires { IsSound self.now }
        ensures { result ≡ self.now.start + length (bytes_of self.now) }
    {
        self.start + self.len as u64
    }

    /// The bytes of the block from `start` to `end`.
    pub fn part(&self, start: usize, end: usize) -> &[u8]
        requires sound { IsSound self.now }
        requires ordered { start ≤ end }
        requires in_block { end ≤ self.now.len }
        ensures { result.now ≡ slice_range (bytes_of self.now) start end }
    {
        &self.room[start..end]
    }

    /// Whether there is damage at the reader's place of the block, in a log with this number, if it has one.
    pub fn is_damaged(&self, number: Option<u32>) -> bool
        requires { IsSound self.now }
        ensures { result ≡ is_damage (seen_in_block number (bytes_of self.now) self.now.at) }
    {
        matches!(
            read_fragment(number, &self.room[..self.len], self.at),
            Seen::Damage(_)
        )
    }

    /// Goes to this place of the block.
    pub fn go_to(&mut self, at: usize)
        requires sound { IsSound self.old }
        requires in_block { at ≤ self.old.len }
        ensures sound { IsSound self.new }
        ensures on { (file : List ℕ) → IsOn file self.old → IsOn file self.new }
        ensures there { offset_of self.new ≡ self.old.start + at }
    {
        self.at = at;
    }
}
