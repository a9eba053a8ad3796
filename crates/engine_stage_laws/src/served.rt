//! Publishing a group keeps what is published consistent with the commits, and at the end the commits and the table's
//! history belong together.

ghost use Rattle.std.specs.Prelude.{◌≡◌, ℕ, List, [], ◌++◌, Option};
ghost use Rattle.model_base.specs.Controller.{ControllerCall, Look};
ghost use Rattle.model_base.specs.LogContents.{GroupCall};
ghost use Rattle.table_rule.specs.declared.content.MemberVersions.{MemberVersions};
ghost use Rattle.table_rule.specs.Histories.{Members, last_of, versions_in};
ghost use Rattle.engine_rule.specs.Commits.{Commit, Heard, AreAnswered, last_after_all};
ghost use Rattle.engine_rule.specs.Plans.{CommitRequest, commits_of_plan, versions_from, all_failed, all_held_up, AreLawful, HaveOwnClients};
ghost use Rattle.engine_rule.specs.Consistent.{AreConsistent, EndsAreNamed, Publishes};
ghost use Rattle.engine_stage_laws.specs.Served.{accepted_of, ArePublishedAtOnce, AreServed, parts_from};

/// The parts of a group, one for each member that has a run, are together the group's versions. Each of these members
/// is one of the clients, and has one part only.
pub fn parts_of_a_group()
    ensures versions { (last : ℕ) (requests : List CommitRequest)
        → versions_in (parts_from last requests) ≡ versions_from last requests }
    ensures members { (clients last : ℕ) (requests : List CommitRequest) → AreLawful clients requests
        → HaveOwnClients requests → Members clients (parts_from last requests) }
{}

/// Each published group ends where some answer says, and an answer names the end of its whole group. So no group is
/// published in two pieces, whether groups go into the table in a stage of their own or not.
pub fn groups_are_published_at_once()
    ensures whole { (start clients group_bytes : ℕ) (asked : List ControllerCall) (commits : List Commit) (last : ℕ)
        (fault : Option ℕ) (published : List (List MemberVersions)) (calls : List GroupCall)
        → (is : AreConsistent start clients group_bytes asked commits last fault published calls)
        → ArePublishedAtOnce is.in_groups.groups published }
{}

/// At the beginning nothing is served. A group that is published is served, and a group without runs changes nothing.
pub fn groups_are_served()
    ensures first { AreServed (accepted_of []) [] }
    // what is served ends with the last sequence given, so that the next group goes right after it
    ensures ends { (start : ℕ) (fault : Option ℕ) (commits : List Commit) (published : List (List MemberVersions))
        → AreAnswered start fault commits → AreServed (accepted_of commits) published
        → last_of start published ≡ last_after_all start commits }
    // What is published was made by exactly the commits that were given runs before, group by group in their order.
    ensures written { (heard : Heard) (last end : ℕ) (requests : List CommitRequest)
        (commits : List Commit) (old new : List (List MemberVersions)) → AreServed (accepted_of commits) old
        → Publishes (versions_from last requests) old new
        → AreServed (accepted_of (commits ++ commits_of_plan heard last end requests)) new }
    ensures failed { (heard : Heard) (count : ℕ) (requests : List CommitRequest) (commits : List Commit)
        → accepted_of (commits ++ all_failed heard count requests) ≡ accepted_of commits }
    ensures held_up { (known : List ControllerCall) (numbers : Look) (requests : List CommitRequest)
        (commits : List Commit)
        → accepted_of (commits ++ all_held_up known numbers requests) ≡ accepted_of commits }
    // at the end the log's commits and the table's history belong together, where each published group ends as some
    // answer says
    ensures closing { (start clients group_bytes : ℕ) (asked : List ControllerCall) (commits : List Commit) (last : ℕ)
        (fault : Option ℕ) (logged published : List (List MemberVersions)) (calls : List GroupCall)
        → AreConsistent start clients group_bytes asked commits last fault logged calls
        → AreServed (accepted_of commits) published → EndsAreNamed start commits published
        → AreConsistent start clients group_bytes asked commits last fault published calls }
{}
