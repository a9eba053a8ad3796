//! A disk in memory.

ghost use Rattle.std.specs.Prelude.{◌≡◌, ◌+◌, ◌-◌, ◌^◌, ◌<◌, ◌≤◌, length, take, drop, map};
ghost use Rattle.std.specs.Prelude.{vec_len, vec_capacity, All, IfOk, OnErr, OnOk, false, IsTrue};
ghost use Rattle.base_devices.specs.Disk.{put_at};
ghost use Rattle.base_devices.specs.Drawn.{bytes_drawn};
ghost use Rattle.base_devices.specs.Eras.{set_out_era};

use crate::calls::Calls;
use crate::{Disk, Failed};
use base_draws::Draws;
use model_base::NoMemory;
use std::alloc::Global;

/// The time between two syncs: how many bytes were safe at its end, how far writes had reached or tried to reach by
/// then, and the place then. The place is 0 for an era that ended before the last rewind or cut.
#[derive(Clone, Copy)]
struct Era {
    synced: u64,
    reach: u64,
    place: u64,
}

/// A disk in memory. Its calls, of all six kinds, are numbered together from 1, and those of a list fail. A call that
/// fails leaves the disk as it was, with one exception: after an append that fails, the bytes from the place on are no
/// longer safe, and its writes may have reached as far as it tried.
///
/// It also tells what a crash might have left at earlier moments. For this it keeps, of each time between two syncs,
/// how much was safe and how far writes reached, and the bytes that the content had at the last rewind or cut. So in
/// two cases it forgets all moments before now. One is that it has no room for one more such time; it keeps as many as
/// the content may have bytes. The other is a rewind or a cut when in such a time bytes after its place were safe.
/// This can be so at the second rewind or cut at the earliest, since the place of a time that ended before the last
/// one counts as 0. From then on it tells nothing of crashes until it begins anew.
#[derive(Drop)]
pub struct MemDisk {
    content: Vec<u8>,
    capacity: usize,
    synced: u64,
    reach: u64,
    place: u64,
    /// The content at the last rewind or cut. There is room for as many bytes as the content may have.
    before: Vec<u8>,
    /// The eras that have ended. There is room for as many eras as the content may have bytes.
    past: Vec<Era>,
    /// Whether there was no room for an era, or the safe bytes of one may be gone. Then it tells of no crash before
    /// now.
    forgot: bool,
    calls: Calls,
    ghost within: { vec_len content ≤ capacity },
    ghost safe: { synced ≤ length content.items },
    ghost reached: { length content.items ≤ reach },
    ghost small: { length content.items < 2 ^ 63 },
    ghost placed: { place ≤ length content.items },
    ghost room: { capacity ≤ vec_capacity content },
    ghost room_for_past: { capacity ≤ vec_capacity past },
    ghost room_for_before: { capacity ≤ vec_capacity before },
    ghost past_placed: { All (λ era. era.place ≤ place) past.items },
    // The bytes after the place are those that were there at the last rewind or cut.
    ghost behind: { drop place content.items ≡ take (length content.items - place) (drop place before.items) },
}

impl MemDisk {
    ghost use Rattle.base_devices.specs.Listed.{fresh};
    ghost use Rattle.base_devices.specs.Disk.{all_safe, rewound, IsImage};
    ghost use Rattle.base_devices.specs.MemDisk.{disk_of, len_of, place_of, capacity_of, disk_calls, StartsAnew};
    ghost use Rattle.base_devices.specs.MemDisk.{with_byte, cut_to, torn_to, IsTurned};

    /// A disk with this content, all of it safe, which takes at most `capacity` bytes. Its place is the content's end.
    /// The calls with a number in `fails` fail. All its room is allocated here: this fails if there is no memory for
    /// it.
    pub fn new(
        alloc: Global,
        capacity: usize,
        content: &[u8],
        fails: &[u64],
    ) -> Result<Self, NoMemory>
        requires fits { length content.now ≤ capacity }
        ensures disk { IfOk result (λ d. disk_of d ≡ all_safe content.now) }
        ensures capacity { IfOk result (λ d. capacity_of d ≡ capacity) }
        ensures calls { IfOk result (λ d. disk_calls d ≡ fresh fails.now) }
        ensures anew { IfOk result StartsAnew }
    {
        let mut bytes = Vec::with_capacity(alloc, capacity)?;
        bytes.extend_from_slice(content)?;
        Ok(MemDisk {
            synced: bytes.len() as u64,
            reach: bytes.len() as u64,
            place: bytes.len() as u64,
            content: bytes,
            capacity,
            before: Vec::with_capacity(alloc, capacity)?,
            past: Vec::with_capacity(alloc, capacity)?,
            forgot: false,
            calls: Calls::new(alloc, fails)?,
        })
    }

    /// All the bytes of the content.
    pub fn content(&self) -> &[u8]
        ensures { result.now ≡ (disk_of self.now).content }
    {
        &self.content
    }

    /// How many of its bytes are safe.
    pub fn synced(&self) -> u64
        ensures { result ≡ (disk_of self.now).synced }
    {
        self.synced
    }

    /// Where the next append writes.
    pub fn place(&self) -> u64
        ensures { result ≡ place_of self.now }
    {
        self.place
    }

    /// Changes one byte of the content, as damage that a test makes. It doesn't count as a call, and what the disk
    /// tells of crashes begins anew. The place stays.
    pub fn set(&mut self, at: u64, byte: u8)
        requires { at < len_of self.old }
        ensures disk { disk_of self.new ≡ with_byte (disk_of self.old) at byte }
        ensures capacity { capacity_of self.new ≡ capacity_of self.old }
        ensures calls { disk_calls self.new ≡ disk_calls self.old }
        // A test that damages a disk hears nothing of crashes before that.
        ensures anew { StartsAnew self.new }
    {
        self.content[at as usize] = byte;
        copy_over(&mut self.before, &self.content);
        self.past.clear();
        self.forgot = false;
    }

    /// The disk after a crash that left the first `len` bytes of the content. They are safe from then on, the place is
    /// their end, and what the disk tells of crashes begins anew. The numbers of the calls go on.
    pub fn crashed(mut self, len: u64) -> MemDisk
        requires safe { (disk_of self).synced ≤ len }
        requires there { len ≤ len_of self }
        ensures disk { disk_of result ≡ cut_to len (disk_of self) }
        ensures capacity { capacity_of result ≡ capacity_of self }
        ensures calls { disk_calls result ≡ disk_calls self }
        ensures anew { StartsAnew result }
    {
        self.content.truncate(len as usize);
        self.synced = len;
        self.reach = len;
        self.place = len;
        self.past.clear();
        self.forgot = false;
        self
    }

    /// The disk after a crash that tore the writes since the last sync. It has `len` bytes: those that were safe, as
    /// they were, and then bytes that are drawn from `seed`, whatever the content had there. The byte of a draw is its
    /// number modulo 256. All of them are safe from then on, the place is their end, and what the disk tells of
    /// crashes begins anew. The numbers of the calls go on. It takes no memory: the drawn bytes overwrite the content.
    pub fn torn(mut self, len: u64, seed: u64) -> MemDisk
        requires safe { (disk_of self).synced ≤ len }
        requires there { len ≤ len_of self }
        ensures disk { disk_of result ≡ torn_to len seed (disk_of self) }
        // A crash may leave these very bytes: so what contracts say of each image is said of this disk too.
        ensures image { IsImage (disk_of self) (disk_of result).content }
        ensures capacity { capacity_of result ≡ capacity_of self }
        ensures calls { disk_calls result ≡ disk_calls self }
        ensures anew { StartsAnew result }
    {
        let safe = self.synced as usize;
        self.past.clear();
        self.place = self.content.len() as u64;
        draw_over(&mut self.content[safe..len as usize], seed);
        self.crashed(len)
    }

    /// Sets the place anew, and keeps the content as the bytes after the place from then on. The disk still tells of
    /// the eras that have ended, unless in one of them bytes after its place were safe.
    fn turn(&mut self)
        ensures turned { IsTurned self.old self.new }
        ensures disk { disk_of self.new ≡ rewound (disk_of self.old) }
        ensures capacity { capacity_of self.new ≡ capacity_of self.old }
        ensures calls { disk_calls self.new ≡ disk_calls self.old }
    {
        self.place = 0;
        let kept = set_out(&mut self.past);
        self.forgot = self.forgot || !kept;
        copy_over(&mut self.before, &self.content);
    }
}

/// Replaces the bytes of a list by those of another. The list has room for them.
fn copy_over(to: &mut Vec<u8>, from: &[u8])
    requires room { length from.now ≤ vec_capacity to.old }
    ensures bytes { to.new.items ≡ from.now }
    ensures capacity { vec_capacity to.old ≤ vec_capacity to.new }
{
    to.clear();
    match to.extend_from_slice(from) {
        Ok(()) => {}
        Err(_) => unreachable!(),
    }
}

/// Puts a piece over the bytes from a place on. There is room for it.
fn put(content: &mut Vec<u8>, place: usize, piece: &[u8])
    requires placed { place ≤ length content.old.items }
    requires room { place + length piece.now ≤ vec_capacity content.old }
    ensures bytes { content.new.items ≡ put_at place piece.now content.old.items }
    ensures capacity { vec_capacity content.old ≤ vec_capacity content.new }
{
    if piece.len() < content.len() - place {
        content[place..place + piece.len()].copy_from_slice(piece);
        return;
    }
    content.truncate(place);
    match content.extend_from_slice(piece) {
        Ok(()) => {}
        Err(_) => unreachable!(),
    }
}

/// Sets the place of each era to 0. It answers whether in each era all safe bytes were before the era's place.
fn set_out(eras: &mut [Era]) -> bool
    ensures set { eras.new ≡ map set_out_era eras.old }
    ensures kept { IsTrue result → All (λ era. era.synced ≤ era.place) eras.old }
    ensures all_kept { All (λ era. era.synced ≤ era.place) eras.old → IsTrue result }
{
    let kept = eras.iter().all(|era| era.synced <= era.place);
    // The eras so far have the place 0, and the others are as they were.
    for era in eras.iter_mut() {
        era.place = 0;
    }
    kept
}

/// How many values a byte has.
const BYTES: u64 = 256;

/// Puts a drawn byte at each place.
fn draw_over(bytes: &mut [u8], seed: u64)
    ensures { bytes.new ≡ bytes_drawn (length bytes.old) seed }
{
    let mut draws = Draws::of_seed(seed);
    // The bytes drawn so far, and those that the next draws make, are all that the draws of the seed make.
    for byte in bytes.iter_mut() {
        *byte = (draws.next() % BYTES) as u8;
    }
}

impl Disk for MemDisk {
    ghost use Rattle.base_devices.specs.Disk.{IsAllSafe, Appended, GrowsBy, Rewound, Cut, Synced, ReadsAt, TimePasses};
    ghost use Rattle.base_devices.specs.Faults.{HasCause};
    ghost use Rattle.base_devices.specs.Listed.{FailsAsListed};
    ghost use Rattle.base_devices.specs.MemDisk.{disk_of, told_of, len_of, place_of, capacity_of, has_no_room};
    ghost use Rattle.base_devices.specs.MemDisk.{disk_calls};
    ghost use Rattle.base_devices.specs.MemDisk.{moment_of, from_of, since_of, SameEra, HasKeptSafe};
    ghost use Rattle.base_devices.specs.MemDiskLaws.{mem_disk_is_disk, mem_disk_is_small, only_since_now};
    ghost use Rattle.std.proofs.Common.{inl};

    ghost told = { told_of };

    ghost added = { place_of };

    ghost moment = { moment_of };

    ghost from = { from_of };

    ghost since = { since_of };

    ghost faults = { λ d. (disk_calls d).faults };

    ghost is_disk = { mem_disk_is_disk };

    ghost added_small = { mem_disk_is_small };

    ghost counts_now = { λ d t image from le is. inl is };

    ghost only_now = { only_since_now };

    /// How many calls have failed: those of the list, and appends for which there was no room.
    fn faults(&self) -> u64 {
        self.calls.faults()
    }

    /// This fails exactly at the listed calls.
    fn len(&mut self) -> Result<u64, Failed>
        ensures len { IfOk result (λ n. n ≡ len_of self.old) }
        ensures small { IfOk result (λ n. n < 2 ^ 63) }
        ensures same { disk_of self.new ≡ disk_of self.old }
        ensures adds_none { place_of self.new ≡ place_of self.old }
        ensures time { TimePasses told_of moment_of from_of since_of self.old self.new }
        ensures era { SameEra self.old self.new }
        ensures capacity { capacity_of self.new ≡ capacity_of self.old }
        ensures listed { FailsAsListed (disk_calls self.old) (disk_calls self.new) false result }
        ensures cause { HasCause (disk_calls self.old).faults (disk_calls self.new).faults result }
    {
        self.calls.begin()?;
        Ok(self.content.len() as u64)
    }

    /// This fails exactly at the listed calls, and then leaves the buffer as it was.
    fn read(&mut self, at: u64, buf: &mut [u8]) -> Result<usize, Failed>
        ensures bytes { ReadsAt (disk_of self.old) at buf.new result }
        ensures at_most { IfOk result (λ n. n ≤ length buf.new) }
        ensures rest { IfOk result (λ n. drop n buf.new ≡ drop n buf.old) }
        ensures failed { OnErr result (buf.new ≡ buf.old) }
        ensures small { IfOk result (λ n. 0 < n → at + n < 2 ^ 63) }
        ensures same { disk_of self.new ≡ disk_of self.old }
        ensures adds_none { place_of self.new ≡ place_of self.old }
        ensures time { TimePasses told_of moment_of from_of since_of self.old self.new }
        ensures era { SameEra self.old self.new }
        ensures capacity { capacity_of self.new ≡ capacity_of self.old }
        ensures listed { FailsAsListed (disk_calls self.old) (disk_calls self.new) false result }
        ensures cause { HasCause (disk_calls self.old).faults (disk_calls self.new).faults result }
    {
        self.calls.begin()?;
        let len = self.content.len();
        if at >= len as u64 {
            return Ok(0);
        }
        let rest = &self.content[at as usize..];
        let n = rest.len().min(buf.len());
        buf[..n].copy_from_slice(&rest[..n]);
        Ok(n)
    }

    /// This fails exactly at the listed calls, and where the capacity isn't enough. Then the content stays.
    fn append(&mut self, piece: &[u8]) -> Result<(), Failed>
        ensures appended { Appended (disk_of self.old) (disk_of self.new) piece.now result }
        ensures added { GrowsBy (place_of self.old) (place_of self.new) (length piece.now) result }
        ensures time { TimePasses told_of moment_of from_of since_of self.old self.new }
        ensures era { SameEra self.old self.new }
        ensures kept { OnErr result ((disk_of self.new).content ≡ (disk_of self.old).content) }
        ensures capacity { capacity_of self.new ≡ capacity_of self.old }
        ensures listed { FailsAsListed (disk_calls self.old) (disk_calls self.new)
            (has_no_room self.old (length piece.now)) result }
        ensures cause { HasCause (disk_calls self.old).faults (disk_calls self.new).faults result }
    {
        let place = self.place;
        let end = place + piece.len() as u64;
        self.synced = self.synced.min(place);
        self.reach = self.reach.max(end);
        self.calls.begin()?;
        if end > self.capacity as u64 {
            return Err(self.calls.fail());
        }
        put(&mut self.content, place as usize, piece);
        self.place = end;
        Ok(())
    }

    /// This fails exactly at the listed calls, and then changes nothing. It forgets the eras that have ended only if in
    /// one of them bytes after its place were safe.
    fn rewind(&mut self) -> Result<(), Failed>
        ensures rewound { Rewound (disk_of self.old) (disk_of self.new) result }
        ensures kept { OnErr result (disk_of self.new ≡ disk_of self.old) }
        ensures counted { OnOk result (place_of self.new ≡ 0) }
        ensures time { TimePasses told_of moment_of from_of since_of self.old self.new }
        ensures moment { moment_of self.new ≡ moment_of self.old }
        ensures remembers { HasKeptSafe self.old → from_of self.new ≡ from_of self.old }
        ensures capacity { capacity_of self.new ≡ capacity_of self.old }
        ensures listed { FailsAsListed (disk_calls self.old) (disk_calls self.new) false result }
        ensures cause { HasCause (disk_calls self.old).faults (disk_calls self.new).faults result }
    {
        self.calls.begin()?;
        self.turn();
        Ok(())
    }

    /// This fails exactly at the listed calls, and then changes nothing. It forgets the eras that have ended only if in
    /// one of them bytes after its place were safe.
    fn cut(&mut self, at: u64) -> Result<(), Failed>
        requires there { at ≤ len_of self.old }
        ensures cut { Cut (disk_of self.old) (disk_of self.new) at result }
        ensures kept { OnErr result (disk_of self.new ≡ disk_of self.old) }
        ensures counted { OnOk result (place_of self.new ≡ at) }
        ensures time { TimePasses told_of moment_of from_of since_of self.old self.new }
        ensures moment { moment_of self.new ≡ moment_of self.old }
        ensures remembers { HasKeptSafe self.old → from_of self.new ≡ from_of self.old }
        ensures capacity { capacity_of self.new ≡ capacity_of self.old }
        ensures listed { FailsAsListed (disk_calls self.old) (disk_calls self.new) false result }
        ensures cause { HasCause (disk_calls self.old).faults (disk_calls self.new).faults result }
    {
        self.calls.begin()?;
        self.turn();
        self.content.truncate(at as usize);
        self.synced = self.synced.min(at);
        self.place = at;
        Ok(())
    }

    /// This fails exactly at the listed calls. It keeps at most one era more, as long as there is room; there is room
    /// for as many eras as the disk may have bytes. If it has nothing to do, or fails, no era ends.
    fn sync(&mut self) -> Result<(), Failed>
        ensures synced { Synced (disk_of self.old) (disk_of self.new) result }
        ensures adds_none { place_of self.new ≡ place_of self.old }
        ensures time { TimePasses told_of moment_of from_of since_of self.old self.new }
        ensures idle { IsAllSafe (disk_of self.old) → SameEra self.old self.new }
        ensures failed { OnErr result (SameEra self.old self.new) }
        ensures one_more { moment_of self.new ≤ moment_of self.old + 1 }
        ensures remembers { moment_of self.old < capacity_of self.old → from_of self.old ≡ 0 → from_of self.new ≡ 0 }
        ensures capacity { capacity_of self.new ≡ capacity_of self.old }
        ensures listed { FailsAsListed (disk_calls self.old) (disk_calls self.new) false result }
        ensures cause { HasCause (disk_calls self.old).faults (disk_calls self.new).faults result }
    {
        self.calls.begin()?;
        let len = self.content.len() as u64;
        let ended = Era {
            synced: self.synced,
            reach: self.reach,
            place: self.place,
        };
        if ended.synced == len && ended.reach == len {
            return Ok(());
        }
        self.synced = len;
        self.reach = len;
        if self.past.len() >= self.capacity {
            self.forgot = true;
            return Ok(());
        }
        match self.past.push(ended) {
            Ok(()) => Ok(()),
            Err(_) => unreachable!(),
        }
    }
}
