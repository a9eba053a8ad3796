//! The records that recovery keeps.

ghost use Rattle.std.specs.Prelude.{◌≡◌, ◌==◌, ◌+◌, ◌-◌, ℕ, List, [], IfOk, MatchOption, if◌then◌else◌};
ghost use Rattle.model_base.specs.Batch.{IsBatchError};
ghost use Rattle.model_base.specs.Recovery.{RecordEnds};
ghost use Rattle.log_recovery.specs.Keeping.{Adds, Refuses, MayRun, IsRunEnd};

use base_maps::FamilyMap;
use log_batch::{MAX_SEQUENCE, read_batch};
use log_effects::write_records;
use model_base::{BatchError, EndReason, NoMemory};
use std::alloc::Global;

/// What is noted of a record that is kept: the first sequence that its header says, how many sequences it takes, and
/// how many bytes it has.
#[derive(Clone, Copy, Debug, PartialEq, Eq)]
pub struct GroupNote {
    pub first: u64,
    pub count: u32,
    pub size: u64,
}

/// What the records that are kept so far give.
#[derive(Drop)]
pub struct Kept {
    pub groups: Vec<GroupNote>,
    pub map: FamilyMap,
    /// The last sequence, 0 before the first.
    pub last: u64,
    /// The offset after these records.
    pub end: u64,
}

impl Kept {
    /// Nothing is kept yet. This takes no memory.
    pub fn new(alloc: Global) -> Kept
        ensures groups { result.groups.items ≡ [] }
        ensures map { result.map ≡ [] }
        ensures last { result.last ≡ 0 }
        ensures end { result.end ≡ 0 }
    {
        Kept {
            groups: Vec::new(alloc),
            map: FamilyMap::new(alloc),
            last: 0,
            end: 0,
        }
    }

    /// Keeps the record of these bytes, which ends at the offset `end`, or says why it can't be kept.
    pub fn keep(&mut self, bytes: &[u8], end: u64) -> Result<Option<EndReason>, NoMemory>
        ensures { IfOk result (λ r. MatchOption r
            (Adds self.old self.new bytes.now end)
            (λ why. (self.new ≡ self.old) × Refuses self.old.last bytes.now why)) }
    {
        let batch = match read_batch(bytes) {
            Ok(batch) => batch,
            Err(error) => return Ok(Some(end_of(error))),
        };
        let first = batch.sequence();
        let count = batch.count();
        if let Some(why) = run_end(self.last, first, count) {
            return Ok(Some(why));
        }
        self.groups.push(GroupNote {
            first,
            count,
            size: bytes.len() as u64,
        })?;
        write_records(&mut self.map, batch.records())?;
        self.last = last_after(self.last, first, count);
        self.end = end;
        Ok(None)
    }
}

/// Why a record that is no batch ends recovery.
pub fn end_of(error: BatchError) -> EndReason
    ensures { (last : ℕ) (bytes : List ℕ) → IsBatchError bytes error → RecordEnds last bytes result }
{
    match error {
        BatchError::Short => EndReason::Short,
        BatchError::BadVarint => EndReason::BadVarint,
        BatchError::Tag(tag) => EndReason::Tag(tag),
        BatchError::Count { said, found } => EndReason::Count { said, found },
    }
}

/// Why a run of `count` sequences can't follow the last one, if it can't.
pub fn run_end(last: u64, first: u64, count: u32) -> Option<EndReason>
    ensures { MatchOption result (MayRun last first count) (IsRunEnd last first count) }
{
    if count == 0 {
        None
    } else if first <= last {
        Some(EndReason::Order { first, last })
    } else if first > MAX_SEQUENCE || MAX_SEQUENCE - first < u64::from(count - 1) {
        Some(EndReason::High { first, count })
    } else {
        None
    }
}

/// The last sequence after a run of `count` sequences, which may follow.
pub fn last_after(last: u64, first: u64, count: u32) -> u64
    requires { MayRun last first count }
    ensures { result ≡ (if count == 0 then last else first + count - 1) }
{
    if count == 0 {
        last
    } else {
        first + u64::from(count - 1)
    }
}
