//! How the log of a run is opened, and what the run goes on from.

ghost use Rattle.std.specs.Prelude.{◌≡◌, ◌≤◌, [], IfOk, IfErr};
ghost use Rattle.model_base.specs.History.{max_sequence};
ghost use Rattle.run_outcome.specs.declared.log_start.LogStart.TheVariants.{Behind};
ghost use Rattle.run_outcome.specs.Running.{GoesOn};
ghost use Rattle.run_execution.specs.Ends.{HasFewFamilies, IsAccepted, IsOpenedFor, IsRefused};

use crate::end::RunEnd;
use base_devices::Disk;
use base_maps::FamilyMap;
use log_recovery::{Mode, RecoverError, Recovered, recover_mode};
use log_writer::LogWriter;
use model_base::MAX_FAMILIES;
use run_outcome::LogStart;
use std::alloc::Global;

/// A log that was opened, and what a run over it goes on from: a map, its last sequence, and how many families its keys
/// need.
pub(crate) struct Opened<D: Disk> {
    pub(crate) log: LogWriter<D>,
    pub(crate) map: FamilyMap,
    pub(crate) last: u64,
    pub(crate) families: u32,
}

/// Opens the log of a run. One that is resumed is recovered first, with the mode, and truncated after what is kept,
/// unless it recovers a key of a family that no run is set up for.
pub(crate) fn open_log<D: Disk>(
    alloc: Global,
    disk: D,
    start: LogStart,
    mode: Mode,
) -> Result<Opened<D>, (D, RunEnd)>
    ensures ok { IfOk result (λ opened. IsOpenedFor ⟦<D as Disk>⟧ start disk opened) }
    ensures accepted { IfOk result (λ _. IsAccepted start mode (D.told disk)) }
    ensures families { IfOk result (λ _. HasFewFamilies start (D.told disk)) }
    ensures last { IfOk result (λ opened. opened.last ≤ max_sequence) }
    ensures err { IfErr result (λ e. IsRefused ⟦<D as Disk>⟧ start mode disk e.0 e.1) }
    ensures later { IfErr result (λ e. D.faults disk ≤ D.faults e.0) }
    ensures time { IfErr result (λ e. GoesOn D.moment D.from disk e.0) }
{
    match start {
        LogStart::New => match LogWriter::open(alloc, disk) {
            Ok(log) => Ok(anew(alloc, log)),
            Err((disk, why)) => Err((disk, RunEnd::from(why))),
        },
        LogStart::Over { number } => match LogWriter::reuse(alloc, disk, number) {
            Ok(log) => Ok(anew(alloc, log)),
            Err((disk, why)) => Err((disk, RunEnd::from(why))),
        },
        LogStart::Behind { number } => open_behind(alloc, disk, number, mode),
    }
}

/// A log that keeps nothing. This takes no memory.
fn anew<D: Disk>(alloc: Global, log: LogWriter<D>) -> Opened<D>
    ensures { result ≡ record { log = log; map = []; last = 0; families = 1 } }
{
    Opened {
        log,
        map: FamilyMap::new(alloc),
        last: 0,
        families: 1,
    }
}

/// Recovers the log, and resumes it after what is kept.
fn open_behind<D: Disk>(
    alloc: Global,
    mut disk: D,
    number: Option<u32>,
    mode: Mode,
) -> Result<Opened<D>, (D, RunEnd)>
    ensures ok { IfOk result (λ opened. IsOpenedFor ⟦<D as Disk>⟧ (Behind number) disk opened) }
    ensures accepted { IfOk result (λ _. IsAccepted (Behind number) mode (D.told disk)) }
    ensures families { IfOk result (λ _. HasFewFamilies (Behind number) (D.told disk)) }
    ensures last { IfOk result (λ opened. opened.last ≤ max_sequence) }
    ensures err { IfErr result (λ e. IsRefused ⟦<D as Disk>⟧ (Behind number) mode disk e.0 e.1) }
    ensures later { IfErr result (λ e. D.faults disk ≤ D.faults e.0) }
    ensures time { IfErr result (λ e. GoesOn D.moment D.from disk e.0) }
{
    let recovered = match recover_mode(alloc, &mut disk, number, mode) {
        Ok(recovered) => recovered,
        Err(RecoverError::Fault { count }) => return Err((disk, RunEnd::DiskFault { count })),
        Err(RecoverError::NoMemory) => return Err((disk, RunEnd::NoMemory)),
        Err(RecoverError::Damage { log: _, at, why }) => {
            return Err((disk, RunEnd::Damage { at, why }));
        }
    };
    let Recovered {
        groups: _,
        map,
        last,
        kept,
        end: _,
    } = recovered;
    let family = map.greatest_family();
    if family >= MAX_FAMILIES {
        return Err((disk, RunEnd::Family { family }));
    }
    match LogWriter::resume(alloc, disk, kept, number) {
        Ok(log) => Ok(Opened {
            log,
            map,
            last,
            families: family + 1,
        }),
        Err((disk, why)) => Err((disk, RunEnd::from(why))),
    }
}
