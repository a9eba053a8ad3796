//! How a leader reads the log that it holds.

ghost use Rattle.std.specs.Prelude.{◌≡◌, ◌≤◌, ℕ, [], IfOk, vec_capacity};
ghost use Rattle.std.specs.List.{AllByRecursion};
ghost use Rattle.engine_rule.specs.Reading.{IsRight};
ghost use Rattle.engine_parts.specs.declared.log.OpenLog.{OpenLog as Opened};
ghost use Rattle.engine_parts.specs.Logs.{Had, faults_of};
ghost use Rattle.engine_parts.specs.Places.{MayBegin};
ghost use Rattle.engine_parts.specs.LogLaw.{Past, StandsForPast, with_read};
ghost use Rattle.engine_parts.specs.Handled.{HandsBack, InOrder, IsReplyOf, handled_with};
ghost use Rattle.engine_parts.specs.ReadAnswers.{HasCounted, HasReadTo, IsOneRead};

use crate::envelope::{SealedAnswer, SealedRequest};
use crate::logging::LogPath;
use crate::numbering::take_first;
use crate::requests::{Answer, Delay, Request};
use base_bytes::RecordList;
use engine_calls::{Refused, Since, SinceRefused};
use log_recovery::RecoverError;
use log_updates::{LogUpdates, places_stay, updates_of_logs};
use log_writer::{GroupLog, ReadableLog};
use model_base::Refusal;
use std::alloc::Global;
use std::snapshot::Snapshot;

/// Reads the log up to the sequence `at`, for the records from the sequence `since` on, and keeps for the client how
/// far it came. It begins at the last of the clients' places before which no record is asked for. So a client that asks
/// again and again reads what is new. A fault of the disk leaves the log as it was: it can still be written.
fn read_log<Log: ReadableLog>(
    alloc: Global,
    path: &mut LogPath<Log>,
    client: u32,
    since: u64,
    at: u64,
) -> Result<Since, SinceRefused>
    requires stands { (clients : ℕ) × (past : Past (Opened Log ⟦<Log as GroupLog>⟧))
        × StandsForPast clients past path.old.log path.old.places path.old.last path.old.made }
    ensures at { IfOk result (λ r. r.at ≡ at) }
    ensures stays { Log.stays path.old.log.log path.new.log.log × (path.new.last ≡ path.old.last)
        × (path.new.made ≡ path.old.made) }
    // a fault has a count of its own, and the next one will have another
    ensures counted { HasCounted (faults_of path.old.log) (faults_of path.new.log) result }
    // The records are those that the calls have written and, before these, those that the log had kept.
    ensures right { (clients : ℕ) (past : Past (Opened Log ⟦<Log as GroupLog>⟧))
        → (is : StandsForPast clients past path.old.log path.old.places path.old.last path.old.made)
        → at ≤ path.old.last
        → IfOk result (λ r. IsRight (Had past.opened past.start) path.old.last is.calls
        (record { since = since; at = at; records = r.records })) }
    ensures begins { (clients : ℕ) (past : Past (Opened Log ⟦<Log as GroupLog>⟧))
        → StandsForPast clients past path.old.log path.old.places path.old.last path.old.made
        → AllByRecursion (MayBegin past.opened past.start path.new.log) path.new.places }
{
    places_stay();
    let from = path.places.nearest(since);
    match updates_of_logs(alloc, &mut path.log.log, from, since, at) {
        Ok(LogUpdates { records, place }) => {
            path.places.reach(client, place);
            Ok(Since {
                at,
                records: RecordList::from_vec(records),
            })
        }
        Err(RecoverError::Fault { count }) => Err(SinceRefused::ReadFault { count }),
        Err(RecoverError::NoMemory) => Err(SinceRefused::NoMemory),
        // The log is read up to the first record that can't be kept, whatever the reason.
        Err(RecoverError::Damage { .. }) => unreachable!(),
    }
}

/// Reads the log for a request that leads alone, up to the sequence `at`, and answers it. The next read of its client
/// begins where this one ended.
pub fn read_phase<Log: ReadableLog>(
    alloc: Global,
    path: &mut LogPath<Log>,
    at: u64,
    delay: &Delay,
    requests: &mut Vec<(u32, SealedRequest)>,
    replies: &mut Vec<(u32, SealedAnswer)>,
)
    requires at { at ≤ path.old.last }
    requires stands { (clients : ℕ) × (past : Past (Opened Log ⟦<Log as GroupLog>⟧))
        × StandsForPast clients past path.old.log path.old.places path.old.last path.old.made }
    requires read { (clients : ℕ) × IsOneRead clients requests.old.items }
    requires replies { (replies.old.items ≡ []) × (1 ≤ vec_capacity replies.old) }
    ensures path { (clients : ℕ) (past : Past (Opened Log ⟦<Log as GroupLog>⟧))
        → IsOneRead clients requests.old.items
        → StandsForPast clients past path.old.log path.old.places path.old.last path.old.made
        → StandsForPast clients (with_read past requests.old.items replies.new.items) path.new.log path.new.places
        path.new.last path.new.made }
    ensures last { path.new.last ≡ path.old.last }
    ensures replies { InOrder requests.old.items replies.new.items
        × AllByRecursion HandsBack (handled_with requests.old.items replies.new.items)
        × AllByRecursion (IsReplyOf delay.now) replies.new.items }
    ensures told { AllByRecursion (λ (y : ℕ × _). HasReadTo (faults_of path.old.log) at y.1.read) replies.new.items }
    ensures taken { requests.new.items ≡ [] }
    ensures room { (vec_capacity requests.new ≡ vec_capacity requests.old)
        × (vec_capacity replies.new ≡ vec_capacity replies.old) }
{
    let Some((client, request)) = take_first(requests) else {
        unreachable!()
    };
    let (request, envelope) = request.open();
    let Request {
        batch,
        nodes: _,
        options: _,
        note: _,
        since,
        shown: _,
    } = request;
    let Some(since) = since else { unreachable!() };
    let read = read_log(alloc, path, client, since, at);
    let answer = Answer {
        answer: Err(Refused {
            batch,
            why: Refusal::SequenceFull { last: path.last },
        }),
        delay: Snapshot::of(delay),
        note: None,
        read: Some(read),
    };
    replies.push_reserved((client, envelope.tell(answer)));
}
