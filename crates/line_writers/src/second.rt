//! What a writer of a list with a second one is asked to do, and how it waits to be asked.
ghost use Rattle.std.specs.Prelude.{◌≡◌, ◌⊎◌, ℕ, true, Some, None, IfSome};
ghost use Rattle.line_rule.specs.declared.view.Debt.{Debt};
ghost use Rattle.line_writers.specs.Seats.{client_of, clients_of, about_of, piped_of, law_of, kept_of, drops_of, AwaitsRole, Belongs, IsHelping, IsIn, IsUnchanged, answers_told};
ghost use Rattle.line_writers.specs.declared.second.PipelinedRole.TheVariants.{Parallel, Done};
ghost use Rattle.line_writers.specs.Second.{IsSent, GetsRight, HasPipelinedRole, HasSentGroup};
ghost use Rattle.line_writers.specs.Groups.{Handled, Answers};

use crate::line_writers::WriterList;
use crate::writer::{Task, Writer};
use line_rule::{GivesRun, HasGroupingItem, LogOfGroups, ReadNewest};
use std::marker::Brand;
use std::rt;
use std::sync::Wait;

/// What a writer of a list with a second one is asked to do.
pub enum PipelinedRole<Log, Right, Reply> {
    /// To lead a group, with the log.
    LogLeader(Log),
    /// To serve its group, which is the oldest of the second list, with the right.
    MemLeader(Right),
    /// To work in parallel with its leader.
    Parallel,
    /// Nothing more: this is its reply.
    Done(Reply),
}

impl<
    Request: HasGroupingItem,
    Reply: GivesRun,
    Log: LogOfGroups<Request, Reply, Right>,
    Right,
> WriterList<Request, Reply, Log, Right> {
    /// Waits until one of these is so: the writer leads; it should work in parallel with its leader; its request is
    /// done; or its group, which is in the second list, is the oldest there. A writer is asked only once to work in
    /// parallel with its leader: after that only its reply comes.
    pub fn await_pipelined_role<R: Wait + rt::Clock>(
        &self,
        rt: &R,
        writer: &mut Writer<Request, Reply, Log, Right>,
    ) -> PipelinedRole<Log, Right, Reply>
        requires { Belongs self.now writer.old
            × (((q : Request)
            × IsIn (law_of Reply.run_of Log.LogOfGroups self.now) q (answers_told writer.old) writer.old)
            ⊎ ((piped_of self.now ≡ true)
            × HasSentGroup (Log.serves (about_of self.now)) (clients_of self.now) writer.old)) }
        ensures client { (client_of writer.new ≡ client_of writer.old) × Belongs self.now writer.new }
        ensures role { (q : Request)
            → IsIn (law_of Reply.run_of Log.LogOfGroups self.now) q (answers_told writer.old) writer.old
            → HasPipelinedRole (law_of Reply.run_of Log.LogOfGroups self.now) (kept_of Log.kept self.now)
            (drops_of Log.drops self.now) q (answers_told writer.old) result writer.new }
        // It is asked only once, and its request is still in the list.
        ensures parallel { result ≡ Parallel → AwaitsRole writer.old × IsHelping writer.new }
        // A leader has handled its request already, so only its reply comes.
        ensures helping { IsHelping writer.old → (p : Reply) × (result ≡ Done p) }
        // The right covers what was given runs before its group, and nothing of it or after it.
        ensures right { (d : Debt Request Reply) (from to : Handled Request Reply)
            (mine : Answers Request Reply)
            → IsSent (Log.serves (about_of self.now)) (clients_of self.now) d from to mine writer.old
            → GetsRight (Log.serves (about_of self.now)) (clients_of self.now) d from to mine result writer.new }
    {
        let pauses = self.pauses();
        // Until a look shows a role, the writer is as it was.
        for _ in rt.forever() {
            if let Some(role) = self.poll_pipelined_role(writer) {
                return role;
            }
            self.bells.pause(rt, &pauses, writer.client as u64);
        }
        unreachable!()
    }

    /// Looks once what the writer is asked to do, as [`WriterList::await_pipelined_role`] waits for it. Where there is
    /// nothing yet, the writer is as it was, so the caller may look again whenever it likes.
    pub fn poll_pipelined_role(
        &self,
        writer: &mut Writer<Request, Reply, Log, Right>,
    ) -> Option<PipelinedRole<Log, Right, Reply>>
        requires { Belongs self.now writer.old
            × (((q : Request)
            × IsIn (law_of Reply.run_of Log.LogOfGroups self.now) q (answers_told writer.old) writer.old)
            ⊎ ((piped_of self.now ≡ true)
            × HasSentGroup (Log.serves (about_of self.now)) (clients_of self.now) writer.old)) }
        ensures client { (client_of writer.new ≡ client_of writer.old) × Belongs self.now writer.new }
        ensures none { result ≡ None → writer.new ≡ writer.old }
        ensures role { (q : Request)
            → IsIn (law_of Reply.run_of Log.LogOfGroups self.now) q (answers_told writer.old) writer.old
            → IfSome result (λ role. HasPipelinedRole (law_of Reply.run_of Log.LogOfGroups self.now)
            (kept_of Log.kept self.now) (drops_of Log.drops self.now) q (answers_told writer.old) role writer.new) }
        ensures parallel { result ≡ Some Parallel → AwaitsRole writer.old × IsHelping writer.new }
        ensures helping { IsHelping writer.old → IfSome result (λ role. (p : Reply) × (role ≡ Done p)) }
        ensures right { (d : Debt Request Reply) (from to : Handled Request Reply)
            (mine : Answers Request Reply)
            → IsSent (Log.serves (about_of self.now)) (clients_of self.now) d from to mine writer.old
            → IfSome result (λ role. GetsRight (Log.serves (about_of self.now)) (clients_of self.now) d from to mine
            role writer.new) }
    {
        match writer.task {
            Task::Awaits => self.poll_from::<Brand>(writer),
            Task::Leads => Some(PipelinedRole::LogLeader(self.claim::<Brand>(writer))),
            Task::Helps => match self.poll_reply::<Brand>(writer) {
                Some(reply) => Some(PipelinedRole::Done(reply)),
                None => None,
            },
            Task::Queues => match self.poll_right::<Brand>(writer) {
                Some(right) => Some(PipelinedRole::MemLeader(right)),
                None => None,
            },
            Task::Serves => Some(PipelinedRole::MemLeader(self.take_right(writer))),
        }
    }

    /// Whether a group is in the second list at a moment of this call.
    pub fn has_groups(&self, writer: &mut Writer<Request, Reply, Log, Right>) -> bool
        requires { Belongs self.now writer.old }
        ensures { IsUnchanged writer.new writer.old }
    {
        self.table.shared.load::<ReadNewest>(&mut writer.seat, 1) != 0
    }
}
