//! What a handle can hold.

ghost use Rattle.std.specs.Prelude.{◌≡◌, Some};
ghost use Rattle.std.specs.Option.{option_map};
ghost use Rattle.wolzenn_c.specs.Objects.{as_reader, as_recovered, as_recovery, as_scan};

use log_batch::Batch;
use log_in_memory::{Reading, RecoveryPairs, Scan};
use std::alloc::Global;
use std::sync::Arc;

/// What a handle can hold.
#[derive(Drop)]
pub enum Object {
    /// A reader of a log.
    Reader(Reading),
    /// A scan of a log, which goes on after damage.
    Scan(Scan),
    /// The pairs that were recovered from logs. Handles may share them: nobody changes them.
    Recovery(Arc<RecoveryPairs, Global>),
    /// A batch that is being built.
    Batch(Batch),
}

impl Object {
    /// The reader, if it is one.
    pub fn reader(&self) -> Option<&Reading>
        ensures { option_map (λ r. r.now) result ≡ as_reader (Some self.now) }
    {
        match self {
            Object::Reader(reading) => Some(reading),
            Object::Scan(_) | Object::Recovery(_) | Object::Batch(_) => None,
        }
    }

    /// The scan, if it is one.
    pub fn scan(&self) -> Option<&Scan>
        ensures { option_map (λ s. s.now) result ≡ as_scan (Some self.now) }
    {
        match self {
            Object::Scan(scan) => Some(scan),
            Object::Reader(_) | Object::Recovery(_) | Object::Batch(_) => None,
        }
    }

    /// The recovery, if it is one.
    pub fn recovery(&self) -> Option<&RecoveryPairs>
        ensures all { option_map (λ r. r.now) result ≡ as_recovered (Some self.now) }
        ensures pairs { option_map (λ r. r.now.pairs.items) result ≡ as_recovery (Some self.now) }
    {
        match self {
            Object::Recovery(recovery) => Some(&**recovery),
            Object::Reader(_) | Object::Scan(_) | Object::Batch(_) => None,
        }
    }
}
