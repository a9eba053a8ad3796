//! The rule of the board's two words: `mark`, then `said`. Both only rise.
//!
//! The views exist only in the proofs. No value is made of the structs here.

use atomic_table::{Join, Play, Seat, Split, Table, TableRule};
use std::alloc::Global;
use std::collections::LinkedList;

/// The word that token calls raise, to how many token calls there were.
pub const MARK: usize = 0;

/// The word that clients raise, to a sequence that they say.
pub const SAID: usize = 1;

/// A look at `mark` once `said` had been raised: it found this mark, and `said` was no less than this by then.
pub struct Announced {
    pub mark: u64,
    pub said: u64,
}

/// A look at `said` once `mark` had been raised to this: it found this.
pub struct Gathered {
    pub mark: u64,
    pub found: u64,
}

/// What a client knows: to what it raised the two words, and its looks.
pub struct BoardView {
    pub raised: u64,
    pub marked: u64,
    pub announced: LinkedList<Announced>,
    pub gathered: LinkedList<Gathered>,
}

/// Where a look at `mark` found less than what it was raised to before a look at `said`, that one found all that was
/// said before the first.
pub struct BoardRule;

impl TableRule<(), BoardView, ()> for BoardRule {
    ghost use Rattle.engine_board.specs.Board.{Kept, newcomer};

    ghost holds = { λ _. Kept };

    ghost first = { λ _. newcomer };
}

pub type Words = Table<(), BoardView, (), BoardRule, Global>;

pub type BoardSeat = Seat<(), BoardView>;

/// `said` was raised.
pub struct Raises;

impl Play<(), BoardView> for Raises {
    ghost use Rattle.engine_board.specs.Board.{HasRaised};

    ghost then = { HasRaised };
}

/// A look at `mark`.
pub struct Announces;

impl Play<(), BoardView> for Announces {
    ghost use Rattle.engine_board.specs.Board.{HasAnnounced};

    ghost then = { HasAnnounced };
}

/// `mark` was raised.
pub struct Marks;

impl Play<(), BoardView> for Marks {
    ghost use Rattle.engine_board.specs.Board.{HasMarked};

    ghost then = { HasMarked };
}

/// A look at `said`.
pub struct Gathers;

impl Play<(), BoardView> for Gathers {
    ghost use Rattle.engine_board.specs.Board.{HasGathered};

    ghost then = { HasGathered };
}

/// A new client's view is cut off.
pub struct NextClient;

impl Split<BoardView> for NextClient {
    ghost use Rattle.engine_board.specs.Board.{newcomer};

    ghost left = { λ v. v };

    ghost right = { λ _. newcomer };
}

/// Takes in another client's view, at the closing.
pub struct JoinClient;

impl Join<BoardView> for JoinClient {
    ghost use Rattle.engine_board.specs.Board.{both, newcomer};

    ghost both = { both };

    ghost spent = { newcomer };
}
