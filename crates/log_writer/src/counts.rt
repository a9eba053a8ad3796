//! What is done to several logs: their disks' faults are counted, and the disks are taken out.

ghost use Rattle.std.specs.Prelude.{◌≡◌, ◌+◌, ◌≤◌, [], ◌∷◌, ◌++◌, map, length, vec_len, vec_capacity};
ghost use Rattle.log_writer.specs.Words.{disk_of};
ghost use Rattle.log_writer.specs.Sets.{count_in};

use crate::LogWriter;
use base_devices::Disk;

/// How many calls of the disks of these logs have failed, or the greatest `u64` where they are more.
pub(crate) fn count_faults<D: Disk>(
    full: &[LogWriter<D>],
    current: &LogWriter<D>,
    later: &[LogWriter<D>],
) -> u64
    ensures { result ≡ count_in (full.now ++ current.now ∷ later.now) }
{
    count_each(full)
        .saturating_add(current.faults())
        .saturating_add(count_each(later))
}

fn count_each<D: Disk>(logs: &[LogWriter<D>]) -> u64
    ensures { result ≡ count_in logs.now }
{
    let mut count = 0u64;
    for log in logs {
        count = count.saturating_add(log.faults());
    }
    count
}

/// Moves the disks of these logs to the end of `disks`.
pub(crate) fn move_disks<D: Disk>(logs: &mut Vec<LogWriter<D>>, disks: &mut Vec<D>)
    requires room { vec_len disks.old + length logs.old.items ≤ vec_capacity disks.old }
    ensures moved { disks.new.items ≡ disks.old.items ++ map disk_of logs.old.items }
    ensures none { logs.new.items ≡ [] }
    ensures room { vec_capacity disks.new ≡ vec_capacity disks.old }
{
    // The disks of the logs so far are moved, and `logs` has the others.
    while !logs.is_empty() {
        let log = logs.remove(0);
        disks.push_reserved(log.into_disk());
    }
}
