//! The exit statuses, and how a call ended.

ghost use Rattle.std.specs.Prelude.{◌≡◌, None};
ghost use Rattle.list_call.specs.Statuses as statuses;

use model_base::EndReason;

/// The exit statuses. Their numbers are those of `writepath`.
#[derive(Clone, Copy)]
pub enum Status {
    /// All was shown, also if the log is damaged and the mode accepts its end.
    Done,
    /// The words aren't those of a call.
    Words,
    /// The disk failed.
    Disk,
    /// The sink failed.
    Sink,
    Memory,
    /// The mode doesn't accept the end of the log.
    Damage,
}

impl Status {
    /// Its number.
    pub fn code(self) -> u8
        ensures { result ≡ statuses.code self }
    {
        match self {
            Status::Done => 0,
            Status::Words => 1,
            Status::Disk => 3,
            Status::Sink => 5,
            Status::Memory => 6,
            Status::Damage => 8,
        }
    }
}

/// Where and why reading a log ended, and with which number it was read, if with one.
#[derive(Clone, Copy)]
pub struct LogEnd {
    pub number: Option<u32>,
    pub at: u64,
    pub why: EndReason,
}

/// How a call ended: its status, and what sentences may be said of, if it is something. No clause says what that is.
#[derive(Clone, Copy)]
pub struct Answer {
    pub status: Status,
    pub end: Option<LogEnd>,
}

/// The answer of this status, without more to say.
pub fn ended(status: Status) -> Answer
    ensures { result ≡ record { status = status; end = None } }
{
    Answer { status, end: None }
}
