//! A law about all states of the machine that a state of the code shows.

ghost use Rattle.model_core.specs.Core as core;
ghost use Rattle.replay_core.specs.declared.state.State.{State};
ghost use Rattle.replay_core.specs.Shows.{AreAlike, Shows};

/// A state of the code shows one state of the machine: any two that it shows are alike in all that a client can see.
pub fn one_state()
    ensures { (r : State) (o p : core.Options) (s t : core.State) → Shows r o s → Shows r p t → AreAlike s t }
{}
