//! Refusals of commits that met a stall, and some that none explains. They are client 3's.

ghost use Rattle.std.specs.Prelude.{ℕ, None};
ghost use Rattle.model_base.specs.declared.write.Refusal.TheVariants.{Incomplete};
ghost use Rattle.model_base.specs.Controller.{IsLegal};
ghost use Rattle.model_base.specs.Replies.{MayRefuse};
ghost use Rattle.model_rows.specs.Examples.{noslow, plain};
ghost use Rattle.model_rows.specs.Stalls.{begun, looked_by, asked_before, waited_by};

/// What the clients asked is the history of one controller, whoever looks, and whoever waits.
pub fn histories_of_stalls()
    ensures stopped { (by : ℕ) → IsLegal (looked_by by) }
    ensures before { (by : ℕ) → IsLegal (asked_before by) }
    ensures slowed { (by : ℕ) → IsLegal (waited_by by) }
{}

/// A commit that may not wait may be refused without a group once another client learned that writes are held up: by a
/// look of that client, which stalls writes, or by one of its own.
pub fn refused_at_a_stall()
    ensures by_the_leader { MayRefuse (looked_by 1) 3 begun 3 noslow (Incomplete 1 0 0) None }
    ensures by_itself { MayRefuse (looked_by 3) 3 begun 3 noslow (Incomplete 1 0 0) None }
    ensures slowed { MayRefuse (waited_by 1) 3 begun 3 noslow (Incomplete 0 1 0) None }
    // not by a look of a client that stalls nothing, and not by numbers that no look showed
    ensures not_by_another { MayRefuse (looked_by 2) 3 begun 3 noslow (Incomplete 1 0 0) None → ⊥ }
    ensures not_other_numbers { (by : ℕ) → MayRefuse (looked_by by) 3 begun 3 noslow (Incomplete 0 1 0) None → ⊥ }
    // not by a look that its client knew of before
    ensures not_known_before { (by : ℕ)
        → MayRefuse (looked_by by) 3 (record begun { known = 3 }) 3 noslow (Incomplete 1 0 0) None → ⊥ }
    // not a commit that may wait
    ensures not_plain { (by : ℕ) → MayRefuse (looked_by by) 3 begun 3 plain (Incomplete 1 0 0) None → ⊥ }
{}

/// Where no other client was told so before the look, there was no stall: a client that looks for itself may not refuse
/// its own commit, not even if a group of its own had to wait.
pub fn refused_without_a_stall()
    ensures not_legal { (by : ℕ) → MayRefuse (asked_before by) 3 begun 3 noslow (Incomplete 1 0 0) None → ⊥ }
    ensures not_its_own { MayRefuse (waited_by 3) 3 begun 3 noslow (Incomplete 0 1 0) None → ⊥ }
{}
