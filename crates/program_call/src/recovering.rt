//! The command `recover`: what a log recovers is printed, or what several logs do.

ghost use Rattle.std.specs.Prelude.{◌≡◌, ◌<◌, ◌≤◌, length};
ghost use Rattle.program_call.specs.Answers.{RecoversLogs};
ghost use Rattle.program_call.specs.OneLog.{log_to_recover};
ghost use Rattle.program_call.specs.Reports.{code};
ghost use Rattle.program_call.specs.SeveralDisks.{OverFront};
ghost use Rattle.program_call.specs.SeveralLogs.{logs_to_recover};

use crate::ended::{Ended, EndedMany, end_many, end_with};
use crate::report::{Status, tell_logs, tell_recovery};
use base_devices::{Disk, Sink};
use log_recovery::{Mode, recover_many, recover_mode};
use std::alloc::Global;

/// Prints what the log of a disk recovers, read as a log with this number, or with none, if the mode accepts its end.
pub fn recover_log<D: Disk, K: Sink>(
    alloc: Global,
    number: Option<u32>,
    mode: Mode,
    mut disk: D,
    sink: &mut K,
) -> Ended<D>
    ensures { RecoversLogs ⟦<K as Sink>⟧ sink.old sink.new
        (log_to_recover ⟦<D as Disk>⟧ number mode disk result.disk) result.status }
{
    let found = recover_mode(alloc, &mut disk, number, mode);
    end_with(tell_recovery(alloc, sink, &found), disk)
}

/// Prints what the logs of the first disks, so many, recover one after another, if the mode accepts the end.
pub fn recover_logs<D: Disk, K: Sink>(
    alloc: Global,
    mode: Mode,
    used: usize,
    mut disks: Vec<D>,
    sink: &mut K,
) -> EndedMany<D>
    requires { (0 < used) × (used ≤ length disks.items) × (used ≤ 16) }
    ensures recovers { OverFront used disks.items result.disks.items (λ opened ended.
        RecoversLogs ⟦<K as Sink>⟧ sink.old sink.new (logs_to_recover ⟦<D as Disk>⟧ mode opened ended) result.status) }
    ensures number { length result.disks.items ≡ length disks.items }
{
    let status = tell_front(alloc, mode, used, &mut disks, sink);
    end_many(status, disks)
}

/// Prints it, and answers with which status.
fn tell_front<D: Disk, K: Sink>(
    alloc: Global,
    mode: Mode,
    used: usize,
    disks: &mut [D],
    sink: &mut K,
) -> Status
    requires { (0 < used) × (used ≤ length disks.old) × (used ≤ 16) }
    ensures recovers { OverFront used disks.old disks.new (λ opened ended.
        RecoversLogs ⟦<K as Sink>⟧ sink.old sink.new (logs_to_recover ⟦<D as Disk>⟧ mode opened ended) (code result)) }
    ensures number { length disks.new ≡ length disks.old }
{
    let (front, _) = disks.split_at_mut(used);
    let found = recover_many(alloc, front, mode);
    tell_logs(alloc, sink, &found)
}
