//! How a set of logs is opened on empty disks.

ghost use Rattle.std.specs.Prelude.{◌≡◌, ◌<◌, ◌≤◌, [], ◌∷◌, length, map, vec_len, vec_capacity, Err, IfOk, IfErr, OnOk, MatchOption};
ghost use Rattle.std.specs.List.{AllByRecursion, AllZip};
ghost use Rattle.base_devices.specs.Faults.{count_in_all};
ghost use Rattle.log_writer.specs.Words.{disk_of};
ghost use Rattle.log_writer.specs.Opening.{IsLookedAt};
ghost use Rattle.log_writer.specs.SetOpening.{IsEmpty, IsNew, IsWhyNot, IsSetOpenError, with_count};
ghost use Rattle.log_writer.specs.SetCrashes.{HasOpenedSet};
ghost use Rattle.log_writer.specs.Sets.{limit_of};

use crate::writer::empty_block;
use crate::{LogSet, LogWriter, OpenError};
use base_devices::{Disk, count_faults};
use log_block::BLOCK_LEN;
use model_base::NoMemory;
use std::alloc::Global;

/// The memory of a set of logs.
struct SetRoom<D: Disk> {
    full: Vec<LogWriter<D>>,
    later: Vec<LogWriter<D>>,
    lens: Vec<u64>,
    disks: Vec<D>,
    blocks: Vec<Vec<u8>>,
}

impl<D: Disk> SetRoom<D> {
    /// Memory for as many logs.
    fn make(alloc: Global, logs: usize) -> Result<SetRoom<D>, NoMemory>
        ensures none { IfOk result (λ r. (r.full.items ≡ []) × (r.later.items ≡ []) × (r.lens.items ≡ [])
            × (r.disks.items ≡ [])) }
        ensures empty { IfOk result (λ r. (vec_len r.full ≡ 0) × (vec_len r.later ≡ 0) × (vec_len r.lens ≡ 0)
            × (vec_len r.disks ≡ 0)) }
        ensures room { IfOk result (λ r. (logs ≤ vec_capacity r.full) × (logs ≤ vec_capacity r.later)
            × (logs ≤ vec_capacity r.lens) × (logs ≤ vec_capacity r.disks)) }
        ensures count { IfOk result (λ r. vec_len r.blocks ≡ logs) }
        ensures whole { IfOk result (λ r. AllByRecursion (λ block. vec_len block ≡ BLOCK_LEN) r.blocks.items) }
    {
        let blocks = empty_blocks(alloc, logs)?;
        let lens = Vec::with_capacity(alloc, logs)?;
        let full = Vec::with_capacity(alloc, logs)?;
        let Ok(later) = Vec::with_capacity(alloc, logs) else {
            full.destroy_empty();
            return Err(NoMemory);
        };
        let Ok(disks) = Vec::with_capacity(alloc, logs) else {
            later.destroy_empty();
            full.destroy_empty();
            return Err(NoMemory);
        };
        Ok(SetRoom {
            full,
            later,
            lens,
            disks,
            blocks,
        })
    }
}

/// So many blocks, each as long as one of a log.
fn empty_blocks(alloc: Global, many: usize) -> Result<Vec<Vec<u8>>, NoMemory>
    ensures count { IfOk result (λ blocks. vec_len blocks ≡ many) }
    ensures whole { IfOk result (λ blocks. AllByRecursion (λ block. vec_len block ≡ BLOCK_LEN) blocks.items) }
{
    let mut blocks = Vec::with_capacity(alloc, many)?;
    // The blocks so far are as long as one of a log.
    for made in 0..many {
        blocks.push_reserved(empty_block(alloc)?);
    }
    Ok(blocks)
}

impl<D: Disk> LogSet<D> {
    /// Opens a set of logs on empty disks, with one look at the length of each, in their order. A log is full once it
    /// has as many bytes as the limit.
    ///
    /// Where that fails, the disks are handed back with the error. Memory is asked for first: where there is none, no
    /// disk is asked. `NotEmpty` has the first length above 0, and `Fault` the count of all disks.
    pub fn open(alloc: Global, disks: Vec<D>, limit: u64) -> Result<LogSet<D>, (Vec<D>, OpenError)>
        requires some { 0 < length disks.items }
        requires few { length disks.items ≤ 16 }
        ensures ok { IfOk result (HasOpenedSet disks.items) }
        ensures limit { IfOk result (λ set. limit_of set ≡ limit) }
        ensures err { IfErr result (λ e. IsSetOpenError ⟦<D as Disk>⟧ disks.items e.0.items e.1) }
    {
        let Ok(room) = SetRoom::make(alloc, disks.len()) else {
            return Err((disks, OpenError::NoMemory));
        };
        let SetRoom {
            full,
            mut later,
            mut lens,
            disks: mut looked,
            blocks,
        } = room;
        if let Err(why) = look_at_all(disks, &mut looked) {
            later.destroy_empty();
            full.destroy_empty();
            return Err((looked, why));
        }
        begin_all(&mut looked, blocks, &mut later);
        let current = later.remove(0);
        lens.push_reserved(0);
        Ok(LogSet {
            full,
            current,
            later,
            lens,
            limit,
            fault: None,
            room: looked,
            chosen: 0,
        })
    }
}

/// Takes the first item out.
fn take_first<Item>(items: &mut Vec<Item>) -> Option<Item>
    ensures first { MatchOption result ((items.old.items ≡ [])
        × (items.new.items ≡ [])) (λ x. items.old.items ≡ x ∷ items.new.items) }
    ensures room { vec_capacity items.new ≡ vec_capacity items.old }
{
    if items.is_empty() {
        return None;
    }
    Some(items.remove(0))
}

/// Looks at the length of each disk, up to one that fails or isn't empty, and moves all of them.
fn look_at_all<D: Disk>(mut disks: Vec<D>, looked: &mut Vec<D>) -> Result<(), OpenError>
    requires none { looked.old.items ≡ [] }
    requires room { length disks.items ≤ vec_capacity looked.old }
    ensures looked_at { AllZip (IsLookedAt ⟦<D as Disk>⟧) disks.items looked.new.items }
    ensures empty { OnOk result (AllByRecursion (IsEmpty ⟦<D as Disk>⟧) looked.new.items) }
    ensures counts { OnOk result (AllZip (λ old new. D.faults new ≡ D.faults old) disks.items looked.new.items) }
    ensures err { IfErr result (IsSetOpenError ⟦<D as Disk>⟧ disks.items looked.new.items) }
    ensures len { length looked.new.items ≡ length disks.items }
    ensures room { vec_capacity looked.new ≡ vec_capacity looked.old }
{
    let mut found = Ok(());
    // The disks so far are moved. While all is well, they are empty, and no look has failed.
    while let Some(mut disk) = take_first(&mut disks) {
        found = look_on(&mut disk, found);
        looked.push_reserved(disk);
    }
    disks.destroy_empty();
    match found {
        Ok(()) => Ok(()),
        Err(why) => Err(counted_in_all(why, looked.as_slice())),
    }
}

/// The same reason; where it is a fault, with the count of all these disks.
fn counted_in_all<D: Disk>(why: OpenError, disks: &[D]) -> OpenError
    ensures { result ≡ with_count (count_in_all D.faults disks.now) why }
{
    match why {
        OpenError::Fault { count: _ } => OpenError::Fault {
            count: count_faults(disks),
        },
        OpenError::NotEmpty { len } => OpenError::NotEmpty { len },
        OpenError::NoMemory => OpenError::NoMemory,
    }
}

/// Looks at the length of one disk more, unless a look at an earlier one has found why no set is opened.
fn look_on<D: Disk>(disk: &mut D, found: Result<(), OpenError>) -> Result<(), OpenError>
    ensures looked_at { IsLookedAt ⟦<D as Disk>⟧ disk.old disk.new }
    ensures empty { OnOk result (IsEmpty ⟦<D as Disk>⟧ disk.new) }
    ensures no_fault { OnOk result (D.faults disk.new ≡ D.faults disk.old) }
    ensures found { OnOk found (IfErr result (IsWhyNot ⟦<D as Disk>⟧ disk.old disk.new)) }
    ensures kept { IfErr found (λ why. (result ≡ Err why) × (disk.new ≡ disk.old)) }
{
    match found {
        Ok(()) => look_at(disk),
        Err(why) => Err(why),
    }
}

/// Looks at the length of a disk, which must be 0.
fn look_at<D: Disk>(disk: &mut D) -> Result<(), OpenError>
    ensures looked_at { IsLookedAt ⟦<D as Disk>⟧ disk.old disk.new }
    ensures empty { OnOk result (IsEmpty ⟦<D as Disk>⟧ disk.new) }
    ensures no_fault { OnOk result (D.faults disk.new ≡ D.faults disk.old) }
    ensures err { IfErr result (IsWhyNot ⟦<D as Disk>⟧ disk.old disk.new) }
{
    let Ok(len) = disk.len() else {
        return Err(OpenError::Fault {
            count: disk.faults(),
        });
    };
    if len > 0 {
        return Err(OpenError::NotEmpty { len });
    }
    Ok(())
}

/// Begins a log on each of these empty disks, over one of the blocks.
fn begin_all<D: Disk>(disks: &mut Vec<D>, mut blocks: Vec<Vec<u8>>, logs: &mut Vec<LogWriter<D>>)
    requires none { logs.old.items ≡ [] }
    requires room { length disks.old.items ≤ vec_capacity logs.old }
    requires count { length blocks.items ≡ length disks.old.items }
    requires whole { AllByRecursion (λ block. vec_len block ≡ BLOCK_LEN) blocks.items }
    requires empty { AllByRecursion (IsEmpty ⟦<D as Disk>⟧) disks.old.items }
    ensures disks { map disk_of logs.new.items ≡ disks.old.items }
    ensures new { AllByRecursion IsNew logs.new.items }
    ensures len { length logs.new.items ≡ length disks.old.items }
    ensures moved { disks.new.items ≡ [] }
    ensures room { vec_capacity disks.new ≡ vec_capacity disks.old }
    ensures capacity { vec_capacity logs.new ≡ vec_capacity logs.old }
{
    // The logs so far are on the first of the disks, and each of the other disks has a block.
    while let Some(disk) = take_first(disks) {
        logs.push_reserved(LogWriter::on(disk, blocks.remove(0)));
    }
}
