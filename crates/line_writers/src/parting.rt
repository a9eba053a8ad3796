//! How a leader cuts its group off from the first list, and gives the log on.
ghost use Rattle.std.specs.Prelude.{◌≡◌, ◌≢◌, ℕ, ◌^◌, ◌<◌, ◌≤◌, [], ◌∷◌, ◌++◌, vec_len, vec_capacity};
ghost use Rattle.line_rule.specs.declared.view.Back.{Back};
ghost use Rattle.line_rule.specs.declared.view.Back.TheVariants.{Parting};
ghost use Rattle.line_rule.specs.declared.view.QueuedWriter.{QueuedWriter};
ghost use Rattle.line_rule.specs.declared.view.Lead.{Lead};
ghost use Rattle.line_rule.specs.declared.view.LineStage.TheVariants.{Leading, Cutting, Marking};
ghost use Rattle.line_rule.specs.Chain.{newest};
ghost use Rattle.line_rule.specs.Plays.{At, AtWith, lead_with_walk, in_hand, squad_at_cut, back_after_log, Walks, WalksMarked};
ghost use Rattle.line_writers.specs.Roles.{NextIs, HasStage};
ghost use Rattle.line_writers.specs.Seats.{law_of, Stays, hands_of, table_of};
ghost use Rattle.line_writers.specs.Groups.{Queue, Answers, OwesWith, LeadsWhole, CutsOff, ForCutOff, GivesLogOn, MayGiveLogOn};

use crate::line_writers::WriterList;
use crate::writer::Writer;
use line_rule::{
    CutAway, CutBehindMark, Free, GivesRun, HasGroupingItem, LogOfGroups, MARK, Mark, Older,
    PickedGiven, STATE_LEADS_LOG, Wake, older_word, state_word,
};

impl<
    Request: HasGroupingItem,
    Reply: GivesRun,
    Log: LogOfGroups<Request, Reply, Right>,
    Right,
> WriterList<Request, Reply, Log, Right> {
    /// Puts the mark into the list where no writer came after the group, whose newest member is `newest_member`.
    /// Returns the newest writer that it found.
    fn mark<Given: PickedGiven<Request, Reply>>(
        &self,
        writer: &mut Writer<Request, Reply, Log, Right>,
        newest_member: u64,
    ) -> u64
        requires seat { writer.old.seat.table_id ≡ self.now.table.shared.table_id }
        requires leads { (lead : Lead Request Reply) × (mine : Answers Request Reply)
            × At writer.old.client (Leading lead) mine writer.old.seat.me
            × (newest_member ≡ newest (in_hand lead)) × (lead.taken ≡ lead.group) }
        ensures seat { Stays writer.new writer.old }
        ensures marked { (lead : Lead Request Reply) (mine : Answers Request Reply)
            → At writer.old.client (Leading lead) mine writer.old.seat.me
            → (result ≡ newest_member → CutsOff Given.given writer.old.client (Marking (lead_with_walk lead [])) lead
            mine writer.old.seat.me writer.new.seat.me) × (result ≢ newest_member → Walks (table_of self.now).slots
            writer.old.client lead mine result writer.old.seat.me writer.new.seat.me) }
    {
        // Leading -> Marking, and Away -> Parting, where nobody came after the group: who comes from here on sees the
        // mark, and waits. If it saw 0, it would lead at once, and its group could be in the second list before this
        // one. Leading still where somebody came. The exchange of `ExitAsBatchGroupLeader` that puts its dummy.
        self.table
            .shared
            .compare_exchange::<Mark<Given>>(&mut writer.seat, 0, newest_member, MARK)
    }

    /// Clears the link of the oldest writer after the group, which will go to the second list.
    fn cut_away<Given: PickedGiven<Request, Reply>>(
        &self,
        writer: &mut Writer<Request, Reply, Log, Right>,
        next: u64,
        code: u64,
    )
        requires seat { (writer.old.seat.table_id ≡ self.now.table.shared.table_id) × (0 < next)
            × (next ≤ self.now.clients) × (code < 2 ^ 56) }
        requires next { (lead : Lead Request Reply) × (mine : Answers Request Reply)
            × (pre : Queue Request) × (x : QueuedWriter Request)
            × NextIs writer.old.client lead mine pre x writer.old.seat.me × (x.by ≡ next) × (x.code ≡ code)
            × (lead.taken ≡ lead.group) }
        ensures seat { Stays writer.new writer.old }
        ensures cut { (lead : Lead Request Reply) (mine : Answers Request Reply) (pre : Queue Request)
            (x : QueuedWriter Request)
            → NextIs writer.old.client lead mine pre x writer.old.seat.me → x.by ≡ next
            → CutsOff Given.given writer.old.client (Cutting lead x) lead mine writer.old.seat.me writer.new.seat.me }
    {
        let cleared = Older { client: 0, code };
        // Leading -> Cutting, and Away -> Parting: the next leader's walk must end at itself, and the group's own links
        // are for the second list from here on. There is no need of a mark, since that writer waits until it is woken.
        // `ExitAsBatchGroupLeader` links it to the dummy.
        self.table
            .shared
            .store::<CutAway<Given>>(&mut writer.seat, older_word(next), cleared.pack());
    }

    /// Cuts the group off from the first list. Returns 0 where the mark is there in place of the group, and else the
    /// oldest writer after the group.
    pub(crate) fn part<Given: PickedGiven<Request, Reply>>(
        &self,
        writer: &mut Writer<Request, Reply, Log, Right>,
        newest_member: u64,
        count: usize,
        walk: &mut Vec<(u64, u64)>,
    ) -> u64
        requires seat { (writer.old.seat.table_id ≡ self.now.table.shared.table_id) × (vec_len walk.old ≡ 0)
            × (walk.old.items ≡ []) × (self.now.clients ≤ vec_capacity walk.old) }
        requires ready { (lead : Lead Request Reply) × (mine : Answers Request Reply)
            × LeadsWhole writer.old.client newest_member count lead mine writer.old.seat.me }
        ensures seat { (writer.new.seat.table_id ≡ writer.old.seat.table_id)
            × (writer.new.client ≡ writer.old.client) × (walk.new.items ≡ []) × (vec_len walk.new ≡ 0)
            × (vec_capacity walk.new ≡ vec_capacity walk.old) }
        ensures next { result ≤ self.now.clients }
        ensures parted { (lead : Lead Request Reply) (mine : Answers Request Reply)
            → At writer.old.client (Leading lead) mine writer.old.seat.me → (w : Queue Request)
            × HasStage writer.old.client (lead_with_walk lead w) mine (Parting (squad_at_cut lead Given.given) 0) result
            writer.new.seat.me × (writer.new.seat.me.1 ≡ writer.old.seat.me.1) }
    {
        let found = self.mark::<Given>(writer, newest_member);
        if found == newest_member {
            return 0;
        }
        self.survey(writer, found, 0, walk);
        let (next, code) = walk[walk.len() - count - 1];
        walk.clear();
        self.cut_away::<Given>(writer, next, code);
        next
    }

    /// Takes the mark away, and gives the log back, where no writer came after the mark. Returns the newest writer that
    /// it found.
    fn free(&self, writer: &mut Writer<Request, Reply, Log, Right>) -> u64
        requires seat { writer.old.seat.table_id ≡ self.now.table.shared.table_id }
        requires ready { MayGiveLogOn (λ lead mine b. AtWith writer.old.client (Marking lead) mine b writer.old.seat.me)
            writer.old.client (law_of Reply.run_of Log.LogOfGroups self.now) (hands_of Reply.run_of self.now)
            writer.old.seat.me }
        ensures seat { Stays writer.new writer.old }
        ensures freed { ForCutOff (λ lead mine b. AtWith writer.old.client (Marking lead) mine b writer.old.seat.me)
            writer.old.client writer.old.seat.me (λ lead mine b d t.
            (result ≡ MARK → OwesWith writer.old.client d mine (back_after_log b) t writer.new.seat.me)
            × (result ≢ MARK → WalksMarked (table_of self.now).slots writer.old.client lead mine b result
            writer.old.seat.me writer.new.seat.me)) }
    {
        // Marking -> Settling, and Joining -> Queued or Holding -> Serving, where nobody came after the mark: the next
        // writer that links leads at once, so the group is in the second list before this. Marking still where somebody
        // came, which waits until it is woken. The exchange of `ExitAsBatchGroupLeader` that takes its dummy away.
        self.table
            .shared
            .compare_exchange::<Free>(&mut writer.seat, 0, MARK, 0)
    }

    /// Clears the link of the oldest writer after the mark.
    fn cut_behind(&self, writer: &mut Writer<Request, Reply, Log, Right>, next: u64, code: u64)
        requires seat { (writer.old.seat.table_id ≡ self.now.table.shared.table_id) × (0 < next)
            × (next ≤ self.now.clients) × (code < 2 ^ 56) }
        requires next { (lead : Lead Request Reply) × (mine : Answers Request Reply) × (b : Back Request Reply)
            × (pre : Queue Request)
            × (x : QueuedWriter Request) × AtWith writer.old.client (Marking lead) mine b writer.old.seat.me
            × (lead.walk ≡ pre ++ x ∷ []) × (x.by ≡ next) × (x.code ≡ code) }
        ensures seat { Stays writer.new writer.old }
        ensures cut { (lead : Lead Request Reply) (mine : Answers Request Reply) (b : Back Request Reply)
            (pre : Queue Request) (x : QueuedWriter Request)
            → AtWith writer.old.client (Marking lead) mine b writer.old.seat.me → lead.walk ≡ pre ++ x ∷ []
            → x.by ≡ next → AtWith writer.old.client (Cutting lead x) mine b writer.new.seat.me
            × (writer.new.seat.me.1 ≡ writer.old.seat.me.1) }
    {
        let cleared = Older { client: 0, code };
        // Marking -> Cutting: the next leader's walk must end at itself. If it led before this, it would walk on to
        // `MARK`, which is no client. `new_leader->link_older = nullptr` of `ExitAsBatchGroupLeader`.
        self.table
            .shared
            .store::<CutBehindMark>(&mut writer.seat, older_word(next), cleared.pack());
    }

    /// Takes the mark away, and gives the log back to the list, or on to the oldest writer after the mark.
    fn free_on(&self, writer: &mut Writer<Request, Reply, Log, Right>, walk: &mut Vec<(u64, u64)>)
        requires seat { (writer.old.seat.table_id ≡ self.now.table.shared.table_id) × (vec_len walk.old ≡ 0)
            × (walk.old.items ≡ []) × (self.now.clients ≤ vec_capacity walk.old) }
        requires ready { MayGiveLogOn (λ lead mine b. AtWith writer.old.client (Marking lead) mine b writer.old.seat.me)
            writer.old.client (law_of Reply.run_of Log.LogOfGroups self.now) (hands_of Reply.run_of self.now)
            writer.old.seat.me }
        ensures seat { (writer.new.seat.table_id ≡ writer.old.seat.table_id)
            × (writer.new.client ≡ writer.old.client) × (walk.new.items ≡ []) × (vec_len walk.new ≡ 0)
            × (vec_capacity walk.new ≡ vec_capacity walk.old) }
        ensures settling { GivesLogOn (λ lead mine b. AtWith writer.old.client (Marking lead) mine b writer.old.seat.me)
            writer.old.client writer.old.seat.me writer.new.seat.me }
    {
        let found = self.free(writer);
        if found == MARK {
            return;
        }
        self.survey(writer, found, MARK, walk);
        let (next, code) = walk[walk.len() - 1];
        walk.clear();
        self.cut_behind(writer, next, code);
        self.wake_on(writer, next);
    }

    /// Gives the log on to the next leader.
    fn wake_on(&self, writer: &mut Writer<Request, Reply, Log, Right>, next: u64)
        requires seat { (writer.old.seat.table_id ≡ self.now.table.shared.table_id) × (0 < next)
            × (next ≤ self.now.clients) }
        requires ready { (x : QueuedWriter Request) × (x.by ≡ next)
            × MayGiveLogOn (λ lead mine b. AtWith writer.old.client (Cutting lead x) mine b writer.old.seat.me)
            writer.old.client (law_of Reply.run_of Log.LogOfGroups self.now) (hands_of Reply.run_of self.now)
            writer.old.seat.me }
        ensures seat { Stays writer.new writer.old }
        ensures woken { (x : QueuedWriter Request)
            → GivesLogOn (λ lead mine b. AtWith writer.old.client (Cutting lead x) mine b writer.old.seat.me)
            writer.old.client writer.old.seat.me writer.new.seat.me }
    {
        // Cutting -> Settling, and Joining -> Queued or Holding -> Serving: the next leader has the log from here on,
        // and nobody else says so. If it led before this group is in the second list, its own group could be there
        // first, and the memtable would get them out of the log's order. `SetState(new_leader, STATE_GROUP_LEADER)` of
        // `ExitAsBatchGroupLeader`.
        self.table
            .shared
            .store::<Wake>(&mut writer.seat, state_word(next), STATE_LEADS_LOG);
        self.bells.ring(next);
    }

    /// Gives the log on after the group was cut off.
    pub(crate) fn go_on(
        &self,
        writer: &mut Writer<Request, Reply, Log, Right>,
        next: u64,
        walk: &mut Vec<(u64, u64)>,
    )
        requires seat { (writer.old.seat.table_id ≡ self.now.table.shared.table_id) × (vec_len walk.old ≡ 0)
            × (walk.old.items ≡ []) × (self.now.clients ≤ vec_capacity walk.old) × (next ≤ self.now.clients) }
        requires ready { MayGiveLogOn (λ lead mine b. HasStage writer.old.client lead mine b next writer.old.seat.me)
            writer.old.client (law_of Reply.run_of Log.LogOfGroups self.now) (hands_of Reply.run_of self.now)
            writer.old.seat.me }
        ensures seat { (writer.new.seat.table_id ≡ writer.old.seat.table_id)
            × (writer.new.client ≡ writer.old.client) × (walk.new.items ≡ []) × (vec_len walk.new ≡ 0)
            × (vec_capacity walk.new ≡ vec_capacity walk.old) }
        ensures settling { GivesLogOn (λ lead mine b. HasStage writer.old.client lead mine b next writer.old.seat.me)
            writer.old.client writer.old.seat.me writer.new.seat.me }
    {
        if next == 0 {
            self.free_on(writer, walk);
            return;
        }
        self.wake_on(writer, next);
    }
}
