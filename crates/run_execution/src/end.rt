//! How a run ends.

ghost use Rattle.std.specs.Prelude.{◌≡◌};
ghost use Rattle.log_writer.specs.SetWritten.{disks_of};
ghost use Rattle.log_writer.specs.Words.{disk_of};
ghost use Rattle.run_threads.specs.Runs.{log_of};
ghost use Rattle.run_execution.specs.Ends.{IsEndOfRun};
ghost use Rattle.run_execution.specs.SetEnds.{IsEndOfSet};

use base_devices::Disk;
use base_maps::FamilyMap;
use log_writer::{LogSet, LogWriter, OpenError};
use model_base::EndReason;
use run_outcome::Outcome;
use run_threads::ClientsEnd;
use std::alloc::Global;

/// How a run ended.
#[derive(Drop)]
pub enum RunEnd {
    /// The disk failed before the log was opened. This is the disk's fault count.
    DiskFault { count: u64 },
    /// The log holds this many bytes already.
    NotEmpty { len: u64 },
    /// The log should have been resumed, but the mode doesn't accept that its recovery ends at this offset for this
    /// reason.
    Damage { at: u64, why: EndReason },
    /// The log should have been resumed, but a key that it recovers is in this family, the greatest one, and a run is
    /// set up for no such family.
    Family { family: u32 },
    /// Nothing was run, since there was no memory for it.
    NoMemory,
    /// All was run, but there was no memory for its outcome.
    NoOutcome,
    /// The run has this outcome.
    Ran(Outcome<FamilyMap>),
}

impl From<OpenError> for RunEnd {
    ghost use Rattle.run_execution.specs.Ends.{end_of};
    ghost use Rattle.std.specs.Prelude.{◌≡◌};

    ghost from_gives = { λ why end. end ≡ end_of why };

    fn from(why: OpenError) -> RunEnd {
        match why {
            OpenError::Fault { count } => RunEnd::DiskFault { count },
            OpenError::NotEmpty { len } => RunEnd::NotEmpty { len },
            OpenError::NoMemory => RunEnd::NoMemory,
        }
    }
}

/// Gives the disk of a run's log back, with how the run ended.
pub fn end_run<D: Disk>(alloc: Global, ran: ClientsEnd<LogWriter<D>>) -> (D, RunEnd)
    ensures disk { result.0 ≡ disk_of (log_of ran) }
    ensures end { IsEndOfRun ran result.1 }
{
    match ran {
        ClientsEnd::NotRun { log } => (log.into_disk(), RunEnd::NoMemory),
        ClientsEnd::Untold { log, last: _ } => (log.into_disk(), RunEnd::NoOutcome),
        ClientsEnd::Told {
            log,
            last,
            transcripts,
            history,
            state,
        } => {
            let log_len = log.len();
            let fault = log.fault();
            let outcome = Outcome {
                transcripts,
                history,
                last,
                state,
                full_lens: Vec::new(alloc),
                log_len,
                fault,
            };
            (log.into_disk(), RunEnd::Ran(outcome))
        }
    }
}

/// Gives the disks of a run's set of logs back, with how the run ended.
pub fn end_set_run<D: Disk>(ran: ClientsEnd<LogSet<D>>) -> (Vec<D>, RunEnd)
    ensures disks { result.0.items ≡ disks_of (log_of ran) }
    ensures end { IsEndOfSet ran result.1 }
{
    match ran {
        ClientsEnd::NotRun { log } => (log.into_disks(), RunEnd::NoMemory),
        ClientsEnd::Untold { log, last: _ } => (log.into_disks(), RunEnd::NoOutcome),
        ClientsEnd::Told {
            log,
            last,
            transcripts,
            history,
            state,
        } => {
            let fault = log.fault();
            let (disks, mut full_lens) = log.into_parts();
            // The last one is that of the log that was written to last.
            let Some(log_len) = full_lens.pop() else {
                unreachable!()
            };
            let outcome = Outcome {
                transcripts,
                history,
                last,
                state,
                full_lens,
                log_len,
                fault,
            };
            (disks, RunEnd::Ran(outcome))
        }
    }
}
