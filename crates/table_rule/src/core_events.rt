//! The events of the table are events of the write path's core.
ghost use Rattle.std.specs.Prelude.{◌≡◌, ℕ, true, false, List, [], ◌∷◌, map, Some};
ghost use Rattle.model_core.specs.declared.event.Event.{Event};
ghost use Rattle.model_core.specs.declared.event.Event.TheVariants as core;
ghost use Rattle.model_core.specs.Core.{Options, State, still as at_rest, published as is_published, leads, table_group};
ghost use Rattle.model_core.specs.Halves.{moves_table, table_half_of};
ghost use Rattle.model_core.specs.Step.{step, is_last};
ghost use Rattle.table_rule.specs.declared.content.MemberVersions.{MemberVersions};
ghost use Rattle.table_rule.specs.Rule.{still, ended};
ghost use Rattle.table_rule.specs.Events.{TableNow, Stays, IsRead, IsLaunch, IsInsert, IsFinish, IsPublish};
ghost use Rattle.table_rule.specs.CoreEvents.{IsCoreGroup, IsCoreOf, AreTaken, IsReading};

/// Where the core's state fits the table (`IsCoreOf`), each event of the table may come in the core, and afterwards
/// the two still fit. A part of the table covers one or more of the core's writers, one after another: it has their
/// versions. So the insertion of a part is the insertion of each client of its team, in the team's order, and so is
/// its finish.
///
/// A group is launched while the core's table is at rest. It must be the core's group for the table, and it is
/// launched by the client that leads it there. When it is published, all the core's members of the group have
/// finished, and the last client of the publisher's team finished last. A read finds the core's published sequence,
/// and a step that moves nothing leaves the core where it is. The exit of a group moves the core alone. After each of
/// the core's other events, its state still fits the table.
pub fn table_and_core()
    ensures launch { (start : ℕ) (o : Options) (team : ℕ → List ℕ) (s : State) (a b : TableNow)
        (g : List MemberVersions) (c : ℕ)
        → IsCoreOf start o team a s → s.table ≡ at_rest → leads c (table_group o s) ≡ true
        → IsCoreGroup start o team s a.published g → IsLaunch g a b
        → AreTaken start o team (core.Launch c ∷ []) s b }
    // The core takes one insertion for each client of the team, in order, and fits the table after the last.
    ensures insert { (start : ℕ) (o : Options) (team : ℕ → List ℕ) (s : State) (a b : TableNow) (m : ℕ)
        → IsCoreOf start o team a s → IsInsert m a b → AreTaken start o team (map core.Insert (team m)) s b }
    ensures finish { (start : ℕ) (o : Options) (team : ℕ → List ℕ) (s : State) (a b : TableNow) (m found : ℕ)
        → IsCoreOf start o team a s → IsFinish m found a b → AreTaken start o team (map core.Finish (team m)) s b }
    ensures publish { (start : ℕ) (o : Options) (team : ℕ → List ℕ) (s : State) (a b : TableNow) (m c : ℕ)
        → IsCoreOf start o team a s → IsPublish m a b → is_last c (team m) ≡ true
        → AreTaken start o team (core.Publish c ∷ []) s b }
    // The exit moves the core and leaves the table as it is.
    ensures exit { (start : ℕ) (o : Options) (team : ℕ → List ℕ) (s : State) (a : TableNow) (c : ℕ)
        → IsCoreOf start o team a s → a.mode ≡ still → s.table ≡ is_published → leads c (table_group o s) ≡ true
        → AreTaken start o team (core.Exit c ∷ []) s a }
    // The exit of a client that has read the log leaves the core's table as it is, too.
    ensures exit_of_read { (start : ℕ) (o : Options) (team : ℕ → List ℕ) (s t : State) (a : TableNow) (c : ℕ)
        → IsCoreOf start o team a s → step o s (core.Exit c) ≡ Some t → table_half_of t ≡ table_half_of s
        → IsCoreOf start o team a t }
    ensures read { (start : ℕ) (o : Options) (team : ℕ → List ℕ) (s : State) (a b : TableNow) (found c : ℕ)
        → IsCoreOf start o team a s → IsRead start found a b → IsReading o s c
        → (found ≡ s.last) × AreTaken start o team (core.Read c ∷ []) s b }
    ensures stays { (start : ℕ) (o : Options) (team : ℕ → List ℕ) (s : State) (a b : TableNow)
        → IsCoreOf start o team a s → Stays a b → IsCoreOf start o team b s }
    ensures others { (start : ℕ) (o : Options) (team : ℕ → List ℕ) (s t : State) (a : TableNow) (event : Event)
        → IsCoreOf start o team a s → moves_table event ≡ false → step o s event ≡ Some t
        → IsCoreOf start o team a t }
{}
