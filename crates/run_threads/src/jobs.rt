//! Each client's part of a run.

ghost use Rattle.std.specs.Prelude.{◌≡◌, ◌≤◌, [], map, vec_len, vec_capacity};
ghost use Rattle.run_threads.specs.Parts.{client_of, replies_of, batches_of};

use crate::batches::ClientBatches;
use run_outcome::Reply;

/// A client with its replies and its batches, or with the room for them.
pub struct Job<C> {
    pub client: C,
    pub replies: Vec<Reply>,
    pub batches: ClientBatches,
}

/// Moves each client and its room into a job.
pub fn fill<C>(
    clients: &mut Vec<C>,
    replies: &mut Vec<Vec<Reply>>,
    batches: &mut Vec<ClientBatches>,
    jobs: &mut Vec<Job<C>>,
)
    requires same { (vec_len clients.old ≡ vec_len replies.old) × (vec_len clients.old ≡ vec_len batches.old) }
    requires none { jobs.old.items ≡ [] }
    requires empty { vec_len jobs.old ≡ 0 }
    requires room { vec_len clients.old ≤ vec_capacity jobs.old }
    ensures clients { map client_of jobs.new.items ≡ clients.old.items }
    ensures replies { map replies_of jobs.new.items ≡ replies.old.items }
    ensures batches { map batches_of jobs.new.items ≡ batches.old.items }
    ensures none { (clients.new.items ≡ []) × (replies.new.items ≡ []) × (batches.new.items ≡ []) }
    ensures empty { (vec_len clients.new ≡ 0) × (vec_len replies.new ≡ 0) × (vec_len batches.new ≡ 0) }
    ensures capacity { (vec_capacity clients.new ≡ vec_capacity clients.old)
        × (vec_capacity replies.new ≡ vec_capacity replies.old)
        × (vec_capacity batches.new ≡ vec_capacity batches.old) }
{
    // The jobs so far and what is left are all clients, in their order. Clients are taken from the front, which keeps
    // the order without a second pass: there are at most sixty-four.
    while !clients.is_empty() {
        let client = clients.remove(0);
        jobs.push_reserved(Job {
            client,
            replies: replies.remove(0),
            batches: batches.remove(0),
        });
    }
}

/// Takes all jobs apart into clients, replies and batches.
pub fn empty<C>(
    jobs: &mut Vec<Job<C>>,
    clients: &mut Vec<C>,
    replies: &mut Vec<Vec<Reply>>,
    batches: &mut Vec<ClientBatches>,
)
    requires none { (clients.old.items ≡ []) × (replies.old.items ≡ []) × (batches.old.items ≡ []) }
    requires empty { (vec_len clients.old ≡ 0) × (vec_len replies.old ≡ 0) × (vec_len batches.old ≡ 0) }
    requires room { (vec_len jobs.old ≤ vec_capacity clients.old) × (vec_len jobs.old ≤ vec_capacity replies.old)
        × (vec_len jobs.old ≤ vec_capacity batches.old) }
    ensures clients { clients.new.items ≡ map client_of jobs.old.items }
    ensures replies { replies.new.items ≡ map replies_of jobs.old.items }
    ensures batches { batches.new.items ≡ map batches_of jobs.old.items }
    ensures empty { vec_len jobs.new ≡ 0 }
{
    // What was taken apart so far and the jobs that are left are all clients, in their order.
    while !jobs.is_empty() {
        let job = jobs.remove(0);
        let Job {
            client,
            replies: told,
            batches: own,
        } = job;
        clients.push_reserved(client);
        replies.push_reserved(told);
        batches.push_reserved(own);
    }
}
