//! Each step is an event of the write path, or leaves alone what the write path sees of the table.
ghost use Rattle.std.specs.Prelude.{◌≡◌, ℕ, ◌+◌, ◌-◌, ◌^◌, ◌%◌, ◌<◌, ◌≤◌, List, [], ◌∷◌, ◌++◌, length};
ghost use mathlib.Core.Option.{none};
ghost use prog.Atomic.{either};
ghost use Rattle.std.specs.Prelude.{◌==◌};
ghost use Rattle.atomic_table.specs.Table.{step};
ghost use Rattle.table_rule.specs.declared.content.Content.TheVariants.{Blank, Tree, Nodes};
ghost use Rattle.table_rule.specs.declared.content.MemberVersions.{MemberVersions};
ghost use Rattle.table_rule.specs.declared.content.Version.{Version};
ghost use Rattle.table_rule.specs.declared.view.Launched.{Launched};
ghost use Rattle.table_rule.specs.declared.view.Lock.TheVariants.{Free, Held};
ghost use Rattle.table_rule.specs.declared.view.Opening.{Opening};
ghost use Rattle.table_rule.specs.declared.view.Stage.{Stage};
ghost use Rattle.table_rule.specs.declared.view.Stage.TheVariants.{Idle, Holding, Stored, Publishing, Resting, Handing, Filling};
ghost use Rattle.table_rule.specs.Seats.{after_close};
ghost use Rattle.table_rule.specs.Steps.{SeatNow, Carried, AddsAll, AreOfPart, AreOfShard, IsAt, IsWithTurn, IsClient, IsNext, IsWordOf, MayTake, work, after_learn, after_lock, after_unlock, after_add, after_launch, after_empty, after_give, after_take, after_settle, after_count, after_publish, after_await};
ghost use Rattle.table_rule.specs.Events.{Stays, IsRead, IsLaunch, IsInsert, IsFinish, IsPublish, StepIs, LoadIs, StoreIs};

use crate::rule::Versioned;

/// What each step is, for any table that keeps the rule, where the caller may make the step. A member's part counts as
/// inserted with the store of 0 to its RUN: before it some of the part's nodes may not be in their trees.
pub fn steps_and_events<ShardTree: Versioned, NodeList: Versioned>()
    ensures learn { (z : Opening) (slots id word c : ℕ) (me : SeatNow ShardTree NodeList)
        (seen : List (List MemberVersions)) (stage : Stage)
        → word ≡ z.shards → IsClient stage → IsAt c z seen Free stage me
        → LoadIs ShardTree.versions NodeList.versions (IsRead z.start) z slots id me word after_learn }
    ensures unlock_shard { (z : Opening) (slots id word c : ℕ) (me : SeatNow ShardTree NodeList)
        (seen : List (List MemberVersions)) (stage : Stage) (tree : ShardTree) (more : Carried ShardTree NodeList)
        → IsAt c z seen (Held word (ShardTree.versions tree)) stage me → me.1 ≡ (word, Tree tree) ∷ more
        → StoreIs ShardTree.versions NodeList.versions Stays z slots id me word 0 after_unlock }
    // What goes in is next in the holder's own part, and all of this shard.
    ensures add_versions { (z : Opening) (slots id word c : ℕ) (me : SeatNow ShardTree NodeList)
        (seen : List (List MemberVersions)) (u : Launched) (done new rest vs : List Version) (tree : ShardTree)
        (more : Carried ShardTree NodeList) → IsAt c z seen (Held word vs) (Holding (work u done (new ++ rest))) me
        → me.1 ≡ (word, Tree tree) ∷ more → AddsAll vs new (ShardTree.versions tree) → AreOfShard z.shards word new
        → StoreIs ShardTree.versions NodeList.versions Stays z slots id me word 0 (after_add new) }
    ensures launch { (z : Opening) (slots id word count c : ℕ) (me : SeatNow ShardTree NodeList)
        (own seen : List (List MemberVersions)) (g : List MemberVersions)
        → word ≡ z.shards + 1 → count ≡ length g → 0 < c → IsWithTurn c z own Idle seen Resting me → IsNext z seen g
        → StoreIs ShardTree.versions NodeList.versions (IsLaunch g) z slots id me word count (after_launch g) }
    ensures empty { (z : Opening) (slots id word : ℕ) (me : SeatNow ShardTree NodeList)
        (seen : List (List MemberVersions)) (g ps : List MemberVersions) (p : MemberVersions)
        → IsWordOf z p word → IsAt 0 z seen Free (Handing g (p ∷ ps)) me
        → LoadIs ShardTree.versions NodeList.versions (λ _. Stays) z slots id me word after_empty }
    ensures give { (z : Opening) (slots id word last : ℕ) (me : SeatNow ShardTree NodeList)
        (seen : List (List MemberVersions)) (g ps : List MemberVersions) (p : MemberVersions) (nodes : NodeList)
        (more : Carried ShardTree NodeList) → IsWordOf z p word → IsAt 0 z seen Free (Filling g p ps) me
        → me.1 ≡ (z.shards + p.member, Nodes nodes last) ∷ more → AreOfPart NodeList.versions z seen g p nodes last
        → StoreIs ShardTree.versions NodeList.versions Stays z slots id me word 1 after_give }
    ensures take { (z : Opening) (slots id word c : ℕ) (me : SeatNow ShardTree NodeList)
        (seen : List (List MemberVersions)) (stage : Stage)
        → word ≡ z.shards + 1 + c → 0 < c → MayTake stage → IsAt c z seen Free stage me
        → LoadIs ShardTree.versions NodeList.versions (λ _. Stays) z slots id me word (after_take NodeList.versions) }
    ensures settle { (z : Opening) (slots id word c : ℕ) (me : SeatNow ShardTree NodeList)
        (seen : List (List MemberVersions)) (u : Launched) (done : List Version) (more : Carried ShardTree NodeList)
        → word ≡ z.shards + 1 + c → 0 < c
        → IsAt c z seen Free (Holding (work u done [])) me → me.1 ≡ (z.shards + c, Blank) ∷ more
        → StoreIs ShardTree.versions NodeList.versions (IsInsert c) z slots id me word 0 after_settle }
    // Who finds 1 is the last: all members have finished then, and the one step of the group that is left is to publish
    // it, by that member.
    ensures count { (z : Opening) (slots id word c : ℕ) (me : SeatNow ShardTree NodeList)
        (seen : List (List MemberVersions)) (u : Launched) → word ≡ z.shards + 1 → IsAt c z seen Free (Stored u) me
        → StepIs ShardTree.versions NodeList.versions (IsFinish c) z slots id me word
        (λ x. (x + (2 ^ 64 - 1)) % 2 ^ 64) (after_count (step slots word 1 0 none) me) }
    ensures publish { (z : Opening) (slots id word last c : ℕ) (me : SeatNow ShardTree NodeList)
        (seen : List (List MemberVersions)) (u : Launched)
        → last ≡ u.last → word ≡ z.shards → IsAt c z seen Free (Publishing u) me
        → StoreIs ShardTree.versions NodeList.versions (IsPublish c) z slots id me word last after_publish }
    ensures await_group { (z : Opening) (slots id word : ℕ) (me : SeatNow ShardTree NodeList)
        (seen : List (List MemberVersions)) (g : List MemberVersions)
        → word ≡ z.shards → IsAt 0 z seen Free (Handing g []) me
        → LoadIs ShardTree.versions NodeList.versions (λ _. Stays) z slots id me word after_await }
    ensures close { (z : Opening) (slots id word : ℕ) (me : SeatNow ShardTree NodeList) → word ≡ z.shards
        → LoadIs ShardTree.versions NodeList.versions (λ _. Stays) z slots id me word after_close }
    ensures lock_shard { (z : Opening) (slots id word c : ℕ) (me : SeatNow ShardTree NodeList)
        (seen : List (List MemberVersions)) (stage : Stage) → word < z.shards → IsAt c z seen Free stage me
        → StepIs ShardTree.versions NodeList.versions (λ _. Stays) z slots id me word (λ x. either (x == 0) 1 x)
        (after_lock ShardTree.versions (step slots word 0 1 none) me) }
{}
