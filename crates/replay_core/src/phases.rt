//! Which phase the log and the memtable are in.

ghost use Rattle.std.specs.Prelude.{◌≡◌};
ghost use Rattle.replay_core.specs.Phases.{is_free, is_led_by, is_built, is_stalled, refusal_at, may_link_at, is_in_log, is_marked, is_handed_by, is_still, is_launched, is_published, is_inserted, is_finished};

use model_base::{Refusal, WriteOptions};

/// Where the log is: with nobody, with a leader, or with a group in hand, whose writers the state has.
#[derive(Clone, Copy)]
pub(crate) enum LogPhase {
    Free,
    Led(u32),
    Built,
    Stalled,
    InLog,
    Marked,
    Handed(u32),
}

impl LogPhase {
    pub(crate) fn is_free(self) -> bool
        ensures { result ≡ is_free self }
    {
        matches!(self, LogPhase::Free)
    }

    pub(crate) fn is_led_by(self, client: u32) -> bool
        ensures { result ≡ is_led_by client self }
    {
        match self {
            LogPhase::Led(leader) => leader == client,
            _ => false,
        }
    }

    pub(crate) fn is_built(self) -> bool
        ensures { result ≡ is_built self }
    {
        matches!(self, LogPhase::Built)
    }

    pub(crate) fn is_stalled(self) -> bool
        ensures { result ≡ is_stalled self }
    {
        matches!(self, LogPhase::Stalled)
    }

    /// Why a batch with these options is refused at once, where the checks say `early` of it. One that passed them is
    /// refused too, while writes are stalled, if it must not be slowed down.
    pub(crate) fn refusal_in(self, options: WriteOptions, early: Option<Refusal>) -> Option<Refusal>
        ensures { result ≡ refusal_at options early self }
    {
        if early.is_some() || !options.no_slowdown || !self.is_stalled() {
            return early;
        }
        Some(Refusal::Incomplete {
            stops: 1,
            delays: 0,
            wait: 0,
        })
    }

    /// Whether a client may link: while writes are stalled only to be refused.
    pub(crate) fn may_link(self, refusal: Option<Refusal>) -> bool
        ensures { result ≡ may_link_at refusal self }
    {
        refusal.is_some() || !self.is_stalled()
    }

    pub(crate) fn is_in_log(self) -> bool
        ensures { result ≡ is_in_log self }
    {
        matches!(self, LogPhase::InLog)
    }

    pub(crate) fn is_marked(self) -> bool
        ensures { result ≡ is_marked self }
    {
        matches!(self, LogPhase::Marked)
    }

    pub(crate) fn is_handed_by(self, client: u32) -> bool
        ensures { result ≡ is_handed_by client self }
    {
        match self {
            LogPhase::Handed(leader) => leader == client,
            _ => false,
        }
    }
}

/// Which phase the memtable is in.
#[derive(Clone, Copy)]
pub(crate) enum TablePhase {
    Still,
    Launched,
    Published,
}

impl TablePhase {
    pub(crate) fn is_still(self) -> bool
        ensures { result ≡ is_still self }
    {
        matches!(self, TablePhase::Still)
    }

    pub(crate) fn is_launched(self) -> bool
        ensures { result ≡ is_launched self }
    {
        matches!(self, TablePhase::Launched)
    }

    pub(crate) fn is_published(self) -> bool
        ensures { result ≡ is_published self }
    {
        matches!(self, TablePhase::Published)
    }
}

/// How far a client is with the launched group.
#[derive(Clone, Copy)]
pub(crate) enum Mark {
    /// It has inserted nothing.
    Out,
    Inserted,
    Finished,
}

impl Mark {
    /// Whether it has inserted, finished or not.
    pub(crate) fn is_inserted(self) -> bool
        ensures { result ≡ is_inserted self }
    {
        !matches!(self, Mark::Out)
    }

    pub(crate) fn is_finished(self) -> bool
        ensures { result ≡ is_finished self }
    {
        matches!(self, Mark::Finished)
    }
}
