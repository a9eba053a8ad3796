//! The rule of the eight words: what they are, and what each pass knows of the calls so far.
//!
//! The history of calls exists only in the proofs. No value is made of the structs and enums here.

use crate::numbers::{Action, Numbers};
use atomic_table::{Join, Split};
use crossbeam_utils::atomic::seq_cell::{Pass, RuledSeqCell};
use crossbeam_utils::rule::{Outcome, Protocol};
use std::collections::LinkedList;
use std::marker::{Brand, PhantomData};

/// A call in the controller's history: which client made it, and what it was.
pub struct Call {
    pub client: u64,
    pub action: Action,
}

/// The clients whose calls a pass makes.
pub enum Caller {
    /// No client's: it only knows what was seen.
    Nobody,
    /// This client's.
    Client(u64),
    /// The calls of all except the clients from 1 to this one. Such a pass makes no call.
    Others(u64),
}

/// Whose calls a pass makes, and the beginning of the history that the pass has seen.
pub struct Observer {
    pub caller: Caller,
    pub seen: LinkedList<Call>,
}

/// What a pass knows: one observer; several while it takes in another pass, and at closing.
pub type ControllerView = LinkedList<Observer>;

/// The rule: the words are the numbers after one history of calls, the client that was the last one in it to learn that
/// writes are held up, the greatest number of its calls that took a token or gave one back, and how many of those there
/// were.
pub struct OneHistory;

impl Protocol<Numbers, ControllerView> for OneHistory {
    ghost use Rattle.engine_controller.specs.Rule.{Kept, others};

    ghost holds = { Kept };

    ghost first = { others 0 };
}

/// The eight words.
pub type Cell = RuledSeqCell<Numbers, ControllerView, OneHistory, 8>;

/// A view of the eight words.
pub type Seat = Pass<Numbers, ControllerView>;

/// A load that shows the history so far, and isn't a call.
pub struct Sight;

impl Outcome<Numbers, ControllerView> for Sight {
    ghost use Rattle.engine_controller.specs.Rule.{Sees};

    ghost then = { Sees };
}

/// A load that is itself a call: `look`.
pub struct Looking;

impl Outcome<Numbers, ControllerView> for Looking {
    ghost use Rattle.engine_controller.specs.declared.numbers.Action.TheVariants.{Look};
    ghost use Rattle.engine_controller.specs.Rule.{Makes};

    ghost then = { λ v x _ w. Makes Look v x w };
}

/// The load at closing.
pub struct Closing;

impl Outcome<Numbers, ControllerView> for Closing {
    ghost use Rattle.engine_controller.specs.Rule.{Closes};

    ghost then = { λ v _ _ w. Closes v w };
}

/// The call that a step makes; of an exchange also the numbers that were found before, and must still be there.
pub trait Asking {
    ghost use Rattle.engine_controller.specs.declared.numbers.Action.{Action};
    ghost use Rattle.engine_controller.specs.declared.numbers.Numbers.{Numbers};

    ghost call: { Action };

    ghost found: { Numbers };
}

/// Each exchange picks its own. These values are only here because a type must have some.
impl Asking for Brand {
    ghost use Rattle.engine_controller.specs.declared.numbers.Action.TheVariants.{Look};

    ghost call = { Look };

    ghost found = { record {
      stops = 0;
      delays = 0;
      rate = 1;
      credit = 0;
      next = 0;
      held_up = 0;
      shown = 0;
      tokens = 0;
    } };
}

/// An exchange that asks for this call. Its outcome knows the call, so one step is enough for a call: it shows that
/// the call was made, even where the call changes no number.
pub struct Exchange<Picked: Asking> {
    asking: PhantomData<Picked>,
}

impl<Picked: Asking> Outcome<Numbers, ControllerView> for Exchange<Picked> {
    ghost use Rattle.engine_controller.specs.Rule.{Exchanges};

    ghost then = { λ v x _ w. Exchanges Picked.call Picked.found v x w };
}

/// A load that asks for a delay where no client stops or slows writes. There the call changes no word, so that it needs
/// no exchange, and the moment changes no answer, so that the proof may pick it.
pub struct Unslowed<Picked: Asking> {
    asking: PhantomData<Picked>,
}

impl<Picked: Asking> Outcome<Numbers, ControllerView> for Unslowed<Picked> {
    ghost use Rattle.engine_controller.specs.Rule.{Asks};

    ghost then = { λ v x _ w. Asks Picked.call v x w };
}

/// A load that is itself a call, which says something, where the controller counts as many token calls as the mark that
/// the client found, or more. The outcome knows the call.
pub struct Saying<Picked: Asking> {
    asking: PhantomData<Picked>,
}

impl<Picked: Asking> Outcome<Numbers, ControllerView> for Saying<Picked> {
    ghost use Rattle.engine_controller.specs.Rule.{Says};

    ghost then = { λ v x _ w. Says Picked.call v x w };
}

/// A load that is itself a call: what a client hears.
pub struct Hearing<Picked: Asking> {
    asking: PhantomData<Picked>,
}

impl<Picked: Asking> Outcome<Numbers, ControllerView> for Hearing<Picked> {
    ghost use Rattle.engine_controller.specs.Rule.{Makes};

    ghost then = { λ v x _ w. Makes Picked.call v x w };
}

/// Cuts off the pass of the next client.
pub struct NextClient;

impl Split<ControllerView> for NextClient {
    ghost use Rattle.engine_controller.specs.Rule.{fewer_others, next_client};

    ghost left = { fewer_others };

    ghost right = { next_client };
}

/// Copies what a pass has seen.
pub struct Copied;

impl Split<ControllerView> for Copied {
    ghost use Rattle.engine_controller.specs.Rule.{note_of};

    ghost left = { λ v. v };

    ghost right = { note_of };
}

/// Moves a whole view to a new pass, since a pass that has made calls can't be joined itself.
pub struct Moved;

impl Split<ControllerView> for Moved {
    ghost use Rattle.std.specs.Prelude.{[]};

    ghost left = { λ _. [] };

    ghost right = { λ v. v };
}

impl Join<ControllerView> for Moved {
    ghost use Rattle.std.specs.Prelude.{[], ◌++◌};

    ghost both = { λ v w. v ++ w };

    ghost spent = { [] };
}
