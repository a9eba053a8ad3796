//! The words of the list by name, and what they hold. The states are those of `WriteThread::State` in RocksDB's
//! db/write_thread.h, which are bits there too, and their values are its own.
ghost use Rattle.std.specs.Prelude.{◌≡◌, ◌<◌, ◌^◌};
ghost use Rattle.line_rule.specs.Chain.{state_at, older_at, pack};

/// A writer that has come, and waits: `STATE_INIT`.
pub const STATE_IN_LIST: u64 = 1;

/// A writer that leads its group, and may take the log: `STATE_GROUP_LEADER`.
pub const STATE_LEADS_LOG: u64 = 2;

/// A leader whose group is the oldest of the second list, and that may take the right: `STATE_MEMTABLE_WRITER_LEADER`.
pub const STATE_LEADS_TABLE: u64 = 4;

/// A member that works in parallel with its leader: `STATE_PARALLEL_MEMTABLE_WRITER`.
pub const STATE_PARALLEL: u64 = 8;

/// A writer whose reply is in its slot: `STATE_COMPLETED`.
pub const STATE_DONE: u64 = 16;

/// A leader that cuts its group off leaves this in the place of the newest writer, where nobody came after the group.
/// No client has this number. RocksDB puts a writer of its own there, the dummy of
/// `WriteThread::ExitAsBatchGroupLeader`.
pub const MARK: u64 = 255;

/// A leader that stalls writes leaves this in the place of the newest writer, whose number `older_word(0)` then has. No
/// client has this number. RocksDB puts a writer of its own there, the dummy of `WriteThread::BeginWriteStall`.
pub const STALL: u64 = 254;

/// The word of a client's state.
pub fn state_word(client: u64) -> usize
    requires { client < 2 ^ 32 }
    ensures { result ≡ state_at client }
{
    2 * client as usize + 2
}

/// The word of a client's link to the next older writer: `link_older`.
pub fn older_word(client: u64) -> usize
    requires { client < 2 ^ 32 }
    ensures { result ≡ older_at client }
{
    2 * client as usize + 3
}

/// What the word of a link holds: the number of the next older writer, 0 where there is none, or `MARK`; and the code
/// of the link's own item.
#[derive(Clone, Copy)]
pub struct Older {
    pub client: u64,
    pub code: u64,
}

impl Older {
    /// The link as a number.
    pub fn pack(self) -> u64
        requires { (self.client < 256) × (self.code < 2 ^ 56) }
        ensures { result ≡ pack self.client self.code }
    {
        self.client + 256 * self.code
    }

    /// The link that a number represents.
    pub fn of(word: u64) -> Older
        ensures whole { word ≡ pack result.client result.code }
        ensures byte { result.client < 256 }
        ensures fits { result.code < 2 ^ 56 }
    {
        Older {
            client: word % 256,
            code: word / 256,
        }
    }
}
