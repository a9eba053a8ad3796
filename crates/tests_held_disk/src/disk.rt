//! A disk that holds one append back.

ghost use Rattle.std.specs.Prelude.{◌≡◌, ◌≢◌, ◌+◌, ◌-◌, ◌^◌, ◌<◌, ◌≤◌, length, drop, false, IfOk, IfSome, OnErr, OnOk};

use crate::AppendHold;
use base_devices::{Disk, Failed, MemDisk};

/// How far a disk is from the append that is held.
#[derive(Clone, Copy)]
enum Turn {
    /// The held append comes after this many others.
    Ahead(u64),
    /// The held append was let through, or no append is held.
    Past,
    /// The held append waited in vain. At most the first number of bytes were safe then, and it tried to write up to
    /// the second number. The next sync sets them to the greatest `u64` and 0.
    Late(u64, u64),
}

/// A disk in memory, one of whose appends waits until an [`AppendHold`] is open. Then it is handed on to the disk in
/// memory, and all other calls are handed on at once.
///
/// An append that waits in vain fails and writes nothing. But as with each append that fails, no byte from the place
/// on is safe then. From then on the disk tells nothing of crashes before now.
#[derive(Drop)]
pub struct HeldDisk<'h> {
    inner: MemDisk,
    hold: &'h AppendHold,
    turn: Turn,
}

impl<'h> HeldDisk<'h> {
    ghost use Rattle.tests_held_disk.specs.HeldDisk.{inner_of, left_of, hold_need, need_of};
    ghost use Rattle.tests_held_disk.specs.HeldDisk.{held_told, held_from, held_faults};
    ghost use Rattle.base_devices.specs.MemDisk.{told_of, from_of, disk_calls};

    /// Holds the `at`-th append to `inner` from now on, counted from 1. No append is held where `at` is 0.
    pub fn new(inner: MemDisk, hold: &'h AppendHold, at: u64) -> HeldDisk<'h>
        ensures inner { inner_of result ≡ inner }
        ensures left { left_of result ≡ at }
        ensures need { hold_need result ≡ need_of hold.now }
        // At first it tells what the disk in memory tells.
        ensures told { held_told result ≡ told_of inner }
        ensures from { held_from result ≡ from_of inner }
        ensures faults { held_faults result ≡ (disk_calls inner).faults }
    {
        match at.checked_sub(1) {
            Some(others) => HeldDisk {
                inner,
                hold,
                turn: Turn::Ahead(others),
            },
            None => HeldDisk {
                inner,
                hold,
                turn: Turn::Past,
            },
        }
    }

    /// The disk in memory again.
    pub fn into_disk(self) -> MemDisk
        ensures { result ≡ inner_of self.entry }
    {
        self.inner
    }
}

impl<'h> Disk for HeldDisk<'h> {
    ghost use Rattle.base_devices.specs.Disk.{Appended, GrowsBy, Rewound, Cut, Synced, ReadsAt, Told, TimePasses};
    ghost use Rattle.base_devices.specs.Faults.{HasCause};
    ghost use Rattle.base_devices.specs.MemDisk.{has_no_room};
    ghost use Rattle.tests_held_disk.specs.HeldDisk.{inner_of, left_of, hold_need, FailsAsInner};
    ghost use Rattle.tests_held_disk.specs.HeldDisk.{held_told, held_added, held_moment, held_from, held_since, held_faults};
    ghost use Rattle.tests_held_disk.specs.HeldDiskLaws.{held_is_disk, held_added_small, held_counts_now, held_only_now};

    ghost told = { held_told };

    ghost added = { held_added };

    ghost moment = { held_moment };

    ghost from = { held_from };

    ghost since = { held_since };

    ghost faults = { held_faults };

    ghost is_disk = { held_is_disk };

    ghost added_small = { held_added_small };

    ghost counts_now = { held_counts_now };

    ghost only_now = { held_only_now };

    fn faults(&self) -> u64 {
        match self.turn {
            Turn::Late(_, _) => self.inner.faults().saturating_add(1),
            Turn::Ahead(_) | Turn::Past => self.inner.faults(),
        }
    }

    // It fails just as the disk in memory does.
    fn len(&mut self) -> Result<u64, Failed>
        ensures len { IfSome (held_told self.old) (λ d. IfOk result (λ n. n ≡ length d.content)) }
        ensures small { IfOk result (λ n. n < 2 ^ 63) }
        ensures same { held_told self.new ≡ held_told self.old }
        ensures adds_none { held_added self.new ≡ held_added self.old }
        ensures time { TimePasses held_told held_moment held_from held_since self.old self.new }
        ensures left { left_of self.new ≡ left_of self.old }
        ensures need { hold_need self.new ≡ hold_need self.old }
        ensures handed_on { FailsAsInner self.old self.new false result }
        ensures cause { HasCause (held_faults self.old) (held_faults self.new) result }
    {
        self.inner.len()
    }

    // It fails just as the disk in memory does.
    fn read(&mut self, at: u64, buf: &mut [u8]) -> Result<usize, Failed>
        ensures bytes { IfSome (held_told self.old) (λ d. ReadsAt d at buf.new result) }
        ensures at_most { IfOk result (λ n. n ≤ length buf.new) }
        ensures rest { IfOk result (λ n. drop n buf.new ≡ drop n buf.old) }
        ensures failed { OnErr result (buf.new ≡ buf.old) }
        ensures small { IfOk result (λ n. 0 < n → at + n < 2 ^ 63) }
        ensures same { held_told self.new ≡ held_told self.old }
        ensures adds_none { held_added self.new ≡ held_added self.old }
        ensures time { TimePasses held_told held_moment held_from held_since self.old self.new }
        ensures left { left_of self.new ≡ left_of self.old }
        ensures need { hold_need self.new ≡ hold_need self.old }
        ensures handed_on { FailsAsInner self.old self.new false result }
        ensures cause { HasCause (held_faults self.old) (held_faults self.new) result }
    {
        self.inner.read(at, buf)
    }

    // An append that isn't held fails just as the disk in memory does, and so does each append where nobody has to
    // arrive.
    fn append(&mut self, piece: &[u8]) -> Result<(), Failed>
        ensures appended { Told (held_told self.old) (held_told self.new)
            (λ old new. Appended old new piece.now result) }
        ensures added { GrowsBy (held_added self.old) (held_added self.new) (length piece.now) result }
        ensures time { TimePasses held_told held_moment held_from held_since self.old self.new }
        ensures left { left_of self.new ≡ left_of self.old - 1 }
        ensures need { hold_need self.new ≡ hold_need self.old }
        // An append that isn't the held one fails only where it would fail on the disk in memory.
        ensures handed_on { left_of self.old ≢ 1 → FailsAsInner self.old self.new
            (has_no_room (inner_of self.old) (length piece.now)) result }
        // So does the held one, where nobody has to arrive. That it waits otherwise, and until when, is in no clause.
        ensures open_at_once { hold_need self.old ≡ 0 → FailsAsInner self.old self.new
            (has_no_room (inner_of self.old) (length piece.now)) result }
        ensures cause { HasCause (held_faults self.old) (held_faults self.new) result }
    {
        match self.turn {
            Turn::Ahead(0) => {
                if self.hold.enter() {
                    self.turn = Turn::Past;
                    self.inner.append(piece)
                } else {
                    // The count can rise by one, or is the greatest `u64`.
                    let _faults = self.inner.faults();
                    let place = self.inner.place();
                    self.turn = Turn::Late(place, place + piece.len() as u64);
                    Err(Failed)
                }
            }
            Turn::Ahead(others) => {
                self.turn = Turn::Ahead(others - 1);
                self.inner.append(piece)
            }
            Turn::Past | Turn::Late(_, _) => self.inner.append(piece),
        }
    }

    // It fails just as the disk in memory does.
    fn rewind(&mut self) -> Result<(), Failed>
        ensures rewound { Told (held_told self.old) (held_told self.new) (λ old new. Rewound old new result) }
        ensures counted { OnOk result (held_added self.new ≡ 0) }
        ensures time { TimePasses held_told held_moment held_from held_since self.old self.new }
        ensures left { left_of self.new ≡ left_of self.old }
        ensures need { hold_need self.new ≡ hold_need self.old }
        ensures handed_on { FailsAsInner self.old self.new false result }
        ensures cause { HasCause (held_faults self.old) (held_faults self.new) result }
    {
        self.inner.rewind()
    }

    // It fails just as the disk in memory does.
    fn cut(&mut self, at: u64) -> Result<(), Failed>
        requires there { IfSome (held_told self.old) (λ d. at ≤ length d.content) }
        ensures cut { Told (held_told self.old) (held_told self.new) (λ old new. Cut old new at result) }
        ensures counted { OnOk result (held_added self.new ≡ at) }
        ensures time { TimePasses held_told held_moment held_from held_since self.old self.new }
        ensures left { left_of self.new ≡ left_of self.old }
        ensures need { hold_need self.new ≡ hold_need self.old }
        ensures handed_on { FailsAsInner self.old self.new false result }
        ensures cause { HasCause (held_faults self.old) (held_faults self.new) result }
    {
        self.inner.cut(at)
    }

    // It fails just as the disk in memory does.
    fn sync(&mut self) -> Result<(), Failed>
        ensures synced { Told (held_told self.old) (held_told self.new) (λ old new. Synced old new result) }
        ensures adds_none { held_added self.new ≡ held_added self.old }
        ensures time { TimePasses held_told held_moment held_from held_since self.old self.new }
        ensures left { left_of self.new ≡ left_of self.old }
        ensures need { hold_need self.new ≡ hold_need self.old }
        ensures handed_on { FailsAsInner self.old self.new false result }
        ensures cause { HasCause (held_faults self.old) (held_faults self.new) result }
    {
        self.inner.sync()?;
        if let Turn::Late(_, _) = self.turn {
            self.turn = Turn::Late(u64::MAX, 0);
        }
        Ok(())
    }
}
