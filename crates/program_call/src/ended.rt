//! How a call ended.

ghost use Rattle.std.specs.Prelude.{◌≡◌};
ghost use Rattle.program_call.specs.Reports.{code};

use crate::report::Status;

/// How a call ended, and the disk that it was handed.
pub struct Ended<D> {
    /// The program's exit status. Where the table says outcome, `gen` prints its summary.
    ///
    /// | Status | When | Text |
    /// |---|---|---|
    /// | 0 | none of the others; the script was read to its end | the outcome |
    /// | 1 | the words aren't lawful, `--help` and `--version` among them | `usage` |
    /// | 2 | the text isn't a script, or has no schedule under `replay` | `script LINE KIND` |
    /// | 3 | the disk failed | `disk fault COUNT`, or the outcome where the log was opened |
    /// | 4 | the source failed | `source fault COUNT` |
    /// | 5 | the sink failed | a prefix of the outcome |
    /// | 6 | there was no memory | nothing, or the outcome where only clients' calls found none |
    /// | 7 | the log isn't empty, and should neither be written over nor resumed | `log not empty LEN` |
    /// | 8 | the mode doesn't accept where the log's recovery ends | `damage AT REASON` |
    /// | 9 | the log is to go on, and the greatest family of the keys that it recovers is above 15 | `family F` |
    pub status: u8,
    pub disk: D,
}

/// The end of a call with a status.
pub fn end_with<D>(status: Status, disk: D) -> Ended<D>
    ensures status { result.status ≡ code status }
    ensures disk { result.disk ≡ disk }
{
    Ended {
        status: status as u8,
        disk,
    }
}

/// How a call over several disks ended, and the disks that it was handed, in their order. The status is as in
/// [`Ended`]; with several logs the text at 8 is `damage LOG AT REASON`.
pub struct EndedMany<D> {
    pub status: u8,
    pub disks: Vec<D>,
}

/// The end of a call over several disks with a status.
pub fn end_many<D>(status: Status, disks: Vec<D>) -> EndedMany<D>
    ensures status { result.status ≡ code status }
    ensures disks { result.disks ≡ disks }
{
    EndedMany {
        status: status as u8,
        disks,
    }
}
