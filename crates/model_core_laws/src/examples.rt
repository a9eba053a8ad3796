//! Examples: a write that goes its whole way, and states and replies that no list of events leads to.

ghost use Rattle.std.specs.Prelude.{◌≡◌, ◌++◌, [], ◌∷◌, Some, None, codes};
ghost use Rattle.model_base.specs.declared.write.Refusal.TheVariants.{LogFault, SequenceFull};
ghost use Rattle.model_base.specs.Calls.{found};
ghost use Rattle.model_core.specs.declared.event.Event.{Event};
ghost use Rattle.model_core.specs.declared.event.Event.TheVariants.{Link, Elect};
ghost use Rattle.model_core.specs.Core.{Options, Writer, still, State};
ghost use Rattle.model_core.specs.CoreLaw.{IsCore, Keeps, in_order};
ghost use Rattle.model_core_laws.specs.Examples.{single_stage, pipelined, put_a1, put_a2, first_entry, one_logged, two_logged, gap_in_the_log, wrote, refused_for, reading, written_and_read, calls_after, way_through_the_log, way_between, way_through_the_table, way_of_a_stall, way_to_the_end, replayed, IsStalledRun, AreRightIn};

/// A write goes its whole way, and a later read finds what it wrote.
pub fn one_write()
    ensures single_stage { calls_after single_stage (way_through_the_log ++ way_through_the_table)
        ≡ written_and_read ∷ [] }
    ensures pipelined { calls_after pipelined (way_through_the_log ++ way_between ++ way_through_the_table)
        ≡ written_and_read ∷ [] }
{}

/// A leader stalls writes: one writer leaves the queue, one is refused at once, and one comes only after the stall.
pub fn one_stall()
    ensures single_stage { IsStalledRun (replayed single_stage (way_of_a_stall ++ way_to_the_end)) 17 }
    ensures pipelined { IsStalledRun (replayed pipelined (way_of_a_stall ++ way_between ++ way_to_the_end)) 20 }
{}

/// States in which the core never is, and steps that no event makes.
pub fn wrong_states()
    // a group is published as its first member finishes: the second one's entry isn't in the table
    ensures published_too_early { (s : State) → s.entries ≡ two_logged → s.inserted ≡ one_logged → s.last ≡ 2
        → IsCore single_stage s → ⊥ }
    // an entry is in the table before its group is launched
    ensures inserted_too_early { (s : State) → s.table ≡ still → s.entries ≡ one_logged → s.inserted ≡ one_logged
        → s.last ≡ 0 → IsCore single_stage s → ⊥ }
    // a client waits twice
    ensures twice { (o : Options) (s : State) (v w : Writer) → s.queue ≡ v ∷ w ∷ [] → v.client ≡ w.client
        → IsCore o s → ⊥ }
    // one logged group has entries on both sides of a batch that isn't logged
    ensures with_a_gap { (s : State) → s.entries ≡ gap_in_the_log → s.groups ≡ 2 ∷ [] → IsCore single_stage s → ⊥ }
    // a writer that waits first is sent to the back
    ensures sent_to_the_back { (event : Event) (s t : State) → in_order s ≡ 1 ∷ 2 ∷ [] → in_order t ≡ 2 ∷ 1 ∷ []
        → Keeps event s t → ⊥ }
    // a client that waits is linked once more
    ensures linked_twice { (s t : State) → in_order s ≡ 1 ∷ [] → in_order t ≡ 1 ∷ 1 ∷ []
        → Keeps (Link 1) s t → ⊥ }
    // an event that isn't a link adds a writer
    ensures added_unlinked { (s t : State) → in_order s ≡ [] → in_order t ≡ 1 ∷ [] → Keeps (Elect 1) s t → ⊥ }
{}

/// Replies that are not those of a plain map at points of the one history.
pub fn wrong_replies()
    // a read finds what nobody wrote
    ensures never_written { AreRightIn [] 0 (reading (found 0 (Some (codes "1")))) → ⊥ }
    // a read is at a sequence that is no batch's end
    ensures between { AreRightIn (first_entry put_a1 ∷ []) 1 (reading (found 5 None)) → ⊥ }
    // a read misses its client's own write
    ensures stale { AreRightIn (first_entry put_a1 ∷ []) 1 (wrote put_a1 ++ reading (found 0 None)) → ⊥ }
    // an accepted batch isn't in the history
    ensures lost { AreRightIn [] 0 (wrote put_a1) → ⊥ }
    // the history has a batch that its client didn't commit
    ensures never_committed { AreRightIn (first_entry put_a1 ∷ []) 1 [] → ⊥ }
    // an accepted batch has another record than was added
    ensures another_record { AreRightIn (first_entry put_a2 ∷ []) 1 (wrote put_a2) → ⊥ }
    // a commit is refused for a fault of the log that didn't happen
    ensures no_fault { AreRightIn [] 0 (refused_for (LogFault 1)) → ⊥ }
    // a commit is refused because no run fits, though one does
    ensures has_room { AreRightIn [] 0 (refused_for (SequenceFull 0)) → ⊥ }
{}
