//! What follows from the equations and from the clauses of the calls: functions whose contracts are laws, and that
//! have no code.

ghost use Rattle.std.specs.Prelude.{◌≡◌, ◌<◌, ℕ, ◌+◌, ◌-◌, List, ◌++◌, length, Option, Some, slice_get};
ghost use Rattle.std.specs.List.{AllByRecursion};
ghost use mathlib.Core.List.{IsPrefix};
ghost use Rattle.model_base.specs.Controller.{ControllerCall, Action, Look, Numbers, numbers_after, delay, look};
ghost use Rattle.model_base.specs.Groups.{Group, HasPlace, AreAsked, is_delay};
ghost use Rattle.model_base.specs.Tokens.{tokens_of};
ghost use Rattle.engine_controller.specs.declared.pass.Pass.{Pass};
ghost use Rattle.engine_controller.specs.Delays.{delays_of, place_if};
ghost use Rattle.engine_controller.specs.Passes.{seen_by, GoesOn, EndsWith, IsLast, IsHistoryOf, token_in};

/// A `look` changes none of the equations' numbers, and neither does a `delay` while writes are stopped. The `delay`
/// only makes its client the last one that learned that writes are held up.
pub fn asking_a_stopped_controller_changes_nothing()
    ensures look { (n : Numbers) → numbers_after n look ≡ n }
    ensures delay { (n : Numbers) (now bytes : ℕ) → 0 < n.stops → numbers_after n (delay now bytes) ≡ n }
{}

/// Where a history goes on by calls of others, it begins with what was seen, and the client's tokens and delays are
/// the same as before.
pub fn calls_of_others()
    ensures begins { (client : ℕ) (seen after : List ControllerCall) → GoesOn client seen after
        → IsPrefix seen after }
    ensures tokens { (client : ℕ) (seen after : List ControllerCall) → GoesOn client seen after
        → tokens_of client after ≡ tokens_of client seen }
    ensures delays { (client : ℕ) (seen after : List ControllerCall) → GoesOn client seen after
        → delays_of client after ≡ delays_of client seen }
{}

/// Where a history goes on by calls of others and ends with one of the client's own, it begins with what was seen. The
/// client's token calls and delays are those before, and then this call, if it is of that kind. The call is the last
/// one of the history, after all that was seen.
pub fn own_calls()
    ensures begins { (client : ℕ) (seen : List ControllerCall) (action : Action) (told : Option Look)
        (after : List ControllerCall) → EndsWith client seen action told after → IsPrefix seen after }
    ensures tokens { (client : ℕ) (seen : List ControllerCall) (action : Action) (told : Option Look)
        (after : List ControllerCall) → EndsWith client seen action told after
        → tokens_of client after ≡ tokens_of client seen ++ token_in action }
    ensures delays { (client : ℕ) (seen : List ControllerCall) (action : Action) (told : Option Look)
        (after : List ControllerCall) → EndsWith client seen action told after
        → delays_of client after ≡ delays_of client seen ++ place_if (is_delay action) (length after - 1) }
    // So a client's own calls are in its order, each after all that it had seen.
    ensures last { (client : ℕ) (seen : List ControllerCall) (action : Action) (told : Option Look)
        (after : List ControllerCall) → EndsWith client seen action told after
        → IsLast client seen action told after }
{}

/// At closing: where the delays of each client, as far as its own pass has seen them, were asked for groups, all
/// delays of the one history were asked for groups.
pub fn delays_of_all_clients()
    ensures { (groups : List Group) (passes : List Pass) (history : List ControllerCall)
        → IsHistoryOf passes history
        → ((i : ℕ) (pass : Pass) → slice_get passes i ≡ Some pass
        → AllByRecursion (HasPlace groups) (delays_of (i + 1) (seen_by pass)))
        → AreAsked groups 0 history }
{}
