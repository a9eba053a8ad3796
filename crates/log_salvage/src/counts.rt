//! How much was kept, and how much wasn't.

ghost use Rattle.std.specs.Prelude.{◌≡◌};
ghost use Rattle.log_salvage.specs.Counting as counting;

use crate::keeping::LeftOut;
use crate::salvaging::Step;
use log_scan::Unread;

/// How much was kept of one log or of several, and how much wasn't. A number stops at the greatest `u64`.
#[derive(Clone, Copy)]
pub struct Counts {
    /// The records that were kept, and those that were left out.
    pub kept: u64,
    pub left_out: u64,
    /// The stretches before a record in which none reads, and all bytes of them.
    pub stretches: u64,
    pub bytes: u64,
}

impl Counts {
    /// Nothing is counted yet.
    pub fn new() -> Counts
        ensures { result ≡ counting.nothing }
    {
        Counts {
            kept: 0,
            left_out: 0,
            stretches: 0,
            bytes: 0,
        }
    }

    /// Counts what a step found: a record, and the stretch before it.
    pub fn add(&mut self, step: Step)
        ensures { self.new ≡ counting.with_step step self.old }
    {
        if let Step::Record {
            unread,
            left_out,
            ..
        } = step
        {
            self.add_unread(unread);
            self.add_record(left_out);
        }
    }

    /// Counts a stretch in which no record reads, if there is one.
    fn add_unread(&mut self, unread: Option<Unread>)
        ensures { self.new ≡ counting.with_unread unread self.old }
    {
        if let Some(unread) = unread {
            self.add_stretch(unread);
        }
    }

    fn add_stretch(&mut self, unread: Unread)
        ensures { self.new ≡ counting.with_stretch unread self.old }
    {
        self.stretches = self.stretches.saturating_add(1);
        self.bytes = self
            .bytes
            .saturating_add(unread.to.saturating_sub(unread.from));
    }

    /// Counts a record, which was kept or left out.
    fn add_record(&mut self, left_out: Option<LeftOut>)
        ensures { self.new ≡ counting.with_verdict left_out self.old }
    {
        match left_out {
            None => self.kept = self.kept.saturating_add(1),
            Some(_) => self.left_out = self.left_out.saturating_add(1),
        }
    }
}
