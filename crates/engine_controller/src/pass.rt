//! What a client needs to call the controller.

use crate::rule::Seat;
use engine_board::Announcer;
use std::marker::Model;

/// A client's pass. It knows its client's number, the calls of the controller that it has seen, whether the client
/// holds a token of either kind, and how far clients had been shown what is published as they took tokens or gave them
/// back.
#[derive(Drop)]
pub struct Pass {
    pub(crate) seat: Seat,
    pub(crate) number: u32,
    pub(crate) stopping: bool,
    pub(crate) slowing: bool,
    pub(crate) shown: u64,
    /// The client's place at the board, and to what it has raised what is said there.
    pub(crate) board: Announcer,
    pub(crate) said: u64,
    /// How many token calls there were with the client's newest one.
    pub(crate) tokens: u64,
}

/// What shows at closing that only the clients made calls. It must not be in what threads share, so it isn't a part of
/// the controller.
#[derive(Drop)]
pub struct Others {
    pub(crate) seat: Seat,
    pub(crate) board: Announcer,
}

/// All passes of a controller.
#[derive(Drop)]
pub struct Passes {
    /// A pass for each client, in the order of their numbers from 1.
    pub clients: Vec<Pass>,
    /// The pass of all others, who are no clients.
    pub others: Others,
}

/// What a pass has seen, to be given to another client's pass, and how far clients had been shown what is published as
/// they took tokens or gave them back by then. Two notes of one controller that show the same calls are the same in
/// contracts.
#[derive(Drop)]
pub struct Note {
    pub(crate) seat: Seat,
    pub(crate) shown: u64,
}

impl Model for Note {
    ghost use Rattle.std.specs.Prelude.{◌≡◌, [], ◌∷◌};
    ghost use Rattle.crossbeam_utils.specs.Seq.{cell_view};
    ghost use Rattle.engine_controller.specs.Noted.{Noted};
    ghost use Rattle.engine_controller.specs.Rule.{observer, seen_in, shown_at};
    ghost use Rattle.engine_controller.specs.declared.rule.Caller.TheVariants.{Nobody};

    ghost Value = { Noted };

    ghost view = { λ n. record { cell = n.seat.table_id; seen = seen_in (cell_view n.seat) } };

    ghost invariant = { λ n. (cell_view n.seat ≡ observer Nobody (seen_in (cell_view n.seat)) ∷ [])
        × (n.seat.me.1 ≡ []) × (n.shown ≡ shown_at (seen_in (cell_view n.seat))) };
}
