//! Outcomes of runs that are legal, and some that are not.

ghost use Rattle.std.specs.Prelude.{◌≡◌, ℕ, List, [], ◌∷◌};
ghost use Rattle.model_base.specs.Attempts.{Attempt};
ghost use Rattle.model_base.specs.Trace.{Trace};
ghost use Rattle.model_base.specs.Outcomes.{IsLegal, IsLegalIn};
ghost use Rattle.model_rows.specs.Ignored.{slow_commands, slow_script, slow_ignored, kept_slow_ignored, stopped_script, others_stop_ignored, foreseen_script, read_before_it_was_written, through_script, kept_script, written_through_a_stop, written_through_a_kept_stop, blind_script, blind_in_its_own_stop, one_left, full_script, blind_once_full, two_script, two_commits, written_at_once};
ghost use Rattle.model_rows.specs.Runs.{one_client, two_clients, nearly_full, used_up, one_script, one_commit, refused_commit, failing_script, failed_write, stale_script, stale_read, early_script, read_ahead, crossing_script, run_below_what_was_read, later_stop_script, refused_by_a_later_stop, own_stop_script, refused_in_its_own_stop, accepted_in_its_own_stop, failed_in_its_own_stop, full_in_its_own_stop, filling_script, lower_than_full, begun_before, going_on_script, went_on, waiting_script, waited_out, told_of_a_stop, two_families, families_script, in_both_families, torn_script, torn_read};

/// A batch is accepted and then read.
pub fn one_commit()
    ensures legal { IsLegal one_client 0 one_script one_commit }
{}

/// A run over a map that was recovered reads from it, and goes on after the sequence that was given last. Over an
/// empty map the same outcome isn't legal.
pub fn went_on()
    ensures legal { IsLegal begun_before 0 going_on_script went_on }
    ensures not_over_nothing { IsLegal (record begun_before { opening = [] }) 0 going_on_script went_on → ⊥ }
{}

/// A batch is accepted and read in two families, and a commit into a third is refused since there isn't one.
pub fn in_both_families()
    ensures legal { IsLegal two_families 0 families_script in_both_families }
{}

/// A read that sees a batch in one family and not in another is legal in no trace.
pub fn torn_read()
    ensures not_legal { (ended : ℕ) → IsLegal two_families ended torn_script torn_read → ⊥ }
{}

/// The log's first write fails: the commit is refused, and the key isn't there. The outcome isn't legal if the log's
/// disk had no fault.
pub fn refused_commit()
    ensures legal { IsLegal one_client 1 one_script refused_commit }
    ensures not_without_fault { IsLegal one_client 0 one_script refused_commit → ⊥ }
{}

/// The log's second write fails: no later commit is accepted, and reads go on.
pub fn failed_write()
    ensures legal { IsLegal one_client 1 failing_script failed_write }
{}

/// A read that answers an older value than the client was already shown is legal in no trace.
pub fn stale_read()
    ensures not_legal { (ended : ℕ) → IsLegal one_client ended stale_script stale_read → ⊥ }
{}

/// A read that answers what the client commits only later is legal in no trace.
pub fn read_ahead()
    ensures not_legal { (ended : ℕ) → IsLegal one_client ended early_script read_ahead → ⊥ }
{}

/// A commit that is accepted below a sequence at which the client has read is legal in no trace.
pub fn run_below_what_was_read()
    ensures not_legal { (ended : ℕ)
        → IsLegal two_clients ended crossing_script run_below_what_was_read → ⊥ }
{}

/// A commit that is refused because of a stop, where the only stop comes after it, is legal in no trace.
pub fn refused_by_a_later_stop()
    ensures not_legal { (ended : ℕ)
        → IsLegal one_client ended later_stop_script refused_by_a_later_stop → ⊥ }
{}

/// A commit that may not wait, of a client that holds a stop token, is refused by a look of the client. That it is
/// accepted is legal in no trace, nor that it meets a fault of the log, or finds no sequences left.
pub fn committed_in_its_own_stop()
    ensures legal { IsLegal one_client 0 own_stop_script refused_in_its_own_stop }
    ensures not_accepted { (ended : ℕ) → IsLegal one_client ended own_stop_script accepted_in_its_own_stop → ⊥ }
    ensures not_failed { (ended : ℕ) → IsLegal one_client ended own_stop_script failed_in_its_own_stop → ⊥ }
    ensures not_full { (ended : ℕ) → IsLegal used_up ended own_stop_script full_in_its_own_stop → ⊥ }
{}

/// A commit that is accepted at the sequence after which an earlier one found no room is legal in no trace.
pub fn lower_than_full()
    ensures not_legal { (ended : ℕ) → IsLegal nearly_full ended filling_script lower_than_full → ⊥ }
{}

/// A commit of one client waits until the other client gives its stop back, and is accepted.
pub fn waited_out()
    ensures legal { IsLegal two_clients 0 waiting_script waited_out }
{}

/// The same outcome isn't legal if the delay of the commit's group reported the stop and nobody looked again.
pub fn written_while_stopped()
    ensures not_legal { (ended : ℕ) (trace : Trace) (attempts : List (List Attempt))
        → trace.controller_calls ≡ told_of_a_stop
        → IsLegalIn two_clients ended waiting_script trace attempts waited_out → ⊥ }
{}

/// A client slows writes to a byte a second. That its own next commit, which may not wait, is accepted is legal in no
/// trace, whether it gives the token back later, or at its end.
pub fn own_slowdown_ignored()
    ensures not_legal { (ended : ℕ) → IsLegal one_client ended slow_script slow_ignored → ⊥ }
    ensures not_kept { (ended : ℕ) → IsLegal one_client ended (slow_commands ∷ []) kept_slow_ignored → ⊥ }
{}

/// A client learns that another one stops writes. Then its commit that may wait is accepted, and after that, in a stop
/// of its own, it learns of two stops. But the other client takes one stop token only. That is legal in no trace: the
/// delay or the look that let the commit go on is within its call, and showed no stop.
pub fn others_stop_ignored()
    ensures not_legal { (ended : ℕ) → IsLegal two_clients ended stopped_script others_stop_ignored → ⊥ }
{}

/// A client reads a batch and stops writes. Another client learns of that stop before the same batch of its own is
/// accepted. That is legal in no trace: who took the stop before the batch's leader decided hadn't been shown the
/// batch.
pub fn read_before_it_was_written()
    ensures not_legal { (ended : ℕ) → IsLegal two_clients ended foreseen_script read_before_it_was_written → ⊥ }
{}

/// A client stops writes, and reads what was there before another client's two batches, and then the second one. That
/// is legal in no trace. If the second batch's delay was before the stop, who took it was shown the first batch, which
/// was accepted before that delay. If it was after the stop, it was after the stop was given back, and so after the
/// second batch was read.
pub fn written_through_a_stop()
    ensures not_legal { (ended : ℕ) → IsLegal two_clients ended through_script written_through_a_stop → ⊥ }
    // or the token is given back at the client's end
    ensures not_kept { (ended : ℕ) → IsLegal two_clients ended kept_script written_through_a_kept_stop → ⊥ }
{}

/// Two batches of a client are accepted, and then it learns of the only stop. Who took that stop was shown the first
/// batch: that it reads in its stop what was there before both is legal in no trace.
pub fn blind_in_its_own_stop()
    ensures not_legal { (ended : ℕ) → IsLegal two_clients ended blind_script blind_in_its_own_stop → ⊥ }
{}

/// A batch is accepted, the client's next one finds no sequences left, and then the client learns of the only stop. Who
/// took that stop was shown the batch: that it doesn't read it in its stop, and then does, is legal in no trace.
pub fn blind_once_full()
    ensures not_legal { (ended : ℕ) → IsLegal one_left ended full_script blind_once_full → ⊥ }
{}

/// A batch that goes into the log is accepted once a call of the log writer that wrote it has returned. So an outcome
/// isn't legal where no call was made, and a client's next batch isn't in the call that wrote its last one.
pub fn acknowledged_once_written()
    ensures not_unwritten { (ended : ℕ) (trace : Trace) (attempts : List (List Attempt)) → trace.log_calls ≡ []
        → IsLegalIn one_client ended one_script trace attempts one_commit → ⊥ }
    ensures not_at_once { (ended : ℕ) (trace : Trace) (attempts : List (List Attempt))
        → trace.log_calls ≡ written_at_once → IsLegalIn one_client ended two_script trace attempts two_commits → ⊥ }
{}
