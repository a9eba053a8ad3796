//! The calls of a device in memory, some of which must fail.

ghost use Rattle.std.specs.Prelude.{◌≡◌, ◌==◌, ◌+◌, ◌-◌, ◌^◌, ◌≤◌, min, is_err, IfOk};
ghost use Rattle.std.specs.List.{list_any};
ghost use Rattle.base_devices.specs.Listed.{Listed, fresh, faults_after_call};

use crate::Failed;
use crate::failed::count_fault;
use model_base::NoMemory;
use std::alloc::Global;
use std::marker::Model;

/// Numbers calls from 1, makes those of a list fail, and counts the faults. Both counts stop at the greatest `u64`.
#[derive(Drop)]
pub(crate) struct Calls {
    fails: Vec<u64>,
    made: u64,
    faults: u64,
}

impl Model for Calls {
    ghost Value = { Listed };

    ghost view = { λ c. record { fails = c.fails.items; calls = c.made; faults = c.faults } };
}

impl Calls {
    /// No call made yet. The calls with a number in `fails` will fail.
    pub(crate) fn new(alloc: Global, fails: &[u64]) -> Result<Self, NoMemory>
        ensures { IfOk result (λ c. c ≡ fresh fails.now) }
    {
        Ok(Calls {
            fails: fails.to_vec(alloc)?,
            made: 0,
            faults: 0,
        })
    }

    pub(crate) fn faults(&self) -> u64
        ensures { result ≡ self.now.faults }
    {
        self.faults
    }

    /// Gives the next call its number, and fails if this number is listed.
    pub(crate) fn begin(&mut self) -> Result<(), Failed>
        ensures fails { self.new.fails ≡ self.old.fails }
        ensures numbered { self.new.calls ≡ min (self.old.calls + 1) (2 ^ 64 - 1) }
        ensures listed { is_err result ≡ list_any (λ n. n == self.new.calls) self.old.fails }
        ensures faults { self.new.faults ≡ faults_after_call (is_err result) self.old.faults }
        ensures later { self.old.faults ≤ self.new.faults }
        ensures once { self.new.faults ≤ self.old.faults + 1 }
    {
        self.made = self.made.saturating_add(1);
        if self.fails.contains(&self.made) {
            Err(count_fault(&mut self.faults))
        } else {
            Ok(())
        }
    }

    /// Makes the call that has begun fail, for a reason other than the list.
    pub(crate) fn fail(&mut self) -> Failed
        ensures counted { self.new ≡ record self.old { faults = min (self.old.faults + 1) (2 ^ 64 - 1) } }
        ensures later { self.old.faults ≤ self.new.faults }
    {
        count_fault(&mut self.faults)
    }
}
