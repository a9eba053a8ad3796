//! The log of a write path.

ghost use Rattle.std.specs.Prelude.{◌≡◌};

use log_writer::GroupLog;

/// The log that a write path's groups are written to, whatever it is made of.
pub struct OpenLog<Log: GroupLog> {
    pub log: Log,
    // It says nothing. By it the type of a log knows what is said of logs like it, and so do the types of all that has
    // one.
    ghost knows: { Log.faults log ≡ Log.faults log },
}
