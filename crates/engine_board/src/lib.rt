//! A board on which clients say sequences, so that who comes later learns of them: two words, which only rise.
//!
//! A client that says something raises `said` to it, and then looks at `mark`. Another one raises `mark`, and then
//! looks at `said`. All steps have one order. So where the first one's look didn't find the second one's mark, it came
//! before the mark, and the second one's look finds what the first one said, or more. That is what `close` says of all
//! looks. No client waits here for another.
#![tactic(auto)]

ghost use Rattle.std.specs.Prelude.{◌≡◌, ◌∷◌, ◌++◌, [], max, IfOk};
ghost use Rattle.engine_board.specs.Board.{newcomer, both, AreMet};

use model_base::NoMemory;
use std::alloc::Global;

mod rule;

use rule::{
    Announces, BoardSeat, Gathers, JoinClient, MARK, Marks, NextClient, Raises, SAID, Words,
};

/// The two words.
#[derive(Drop)]
pub struct Board {
    words: Words,
    ghost sized: { (words.shared.table_id.words ≡ 2) × (words.shared.table_id.slots ≡ 0) },
}

/// What a client needs to use the board.
#[derive(Drop)]
pub struct Announcer {
    pub(crate) seat: BoardSeat,
}

impl Board {
    /// A board on which nothing is said, with its first client.
    pub fn open(alloc: Global) -> Result<(Board, Announcer), NoMemory>
        ensures new { IfOk result (λ r. (r.1.seat.table_id ≡ r.0.words.shared.table_id)
            × (r.1.seat.me ≡ (newcomer, []))) }
    {
        let (words, seat) = Words::of_words(alloc, &[0, 0], &())?;
        Ok((Board { words }, Announcer { seat }))
    }

    /// One more client.
    pub fn client(&self, first: &mut Announcer) -> Announcer
        requires { first.old.seat.table_id ≡ self.now.words.shared.table_id }
        ensures same { (first.new.seat.table_id ≡ first.old.seat.table_id) × (first.new.seat.me ≡ first.old.seat.me) }
        ensures new { (result.seat.table_id ≡ first.old.seat.table_id) × (result.seat.me ≡ (newcomer, [])) }
    {
        Announcer {
            seat: self.words.shared.split_seat::<NextClient>(&mut first.seat),
        }
    }

    /// Says a sequence: from now on `said` isn't below it.
    pub fn raise(&self, by: &mut Announcer, said: u64)
        requires { by.old.seat.table_id ≡ self.now.words.shared.table_id }
        ensures table { by.new.seat.table_id ≡ by.old.seat.table_id }
        ensures raised { by.new.seat.me
            ≡ (record by.old.seat.me.0 { raised = max by.old.seat.me.0.raised said }, by.old.seat.me.1) }
    {
        self.words
            .shared
            .fetch_max::<Raises>(&mut by.seat, SAID, said);
    }

    /// Looks at `mark`, once something was said.
    pub fn announce(&self, by: &mut Announcer) -> u64
        requires { by.old.seat.table_id ≡ self.now.words.shared.table_id }
        ensures table { by.new.seat.table_id ≡ by.old.seat.table_id }
        ensures announced { by.new.seat.me ≡ (
          record by.old.seat.me.0 {
            announced = by.old.seat.me.0.announced
                ++ record { mark = result; said = by.old.seat.me.0.raised } ∷ [];
          },
          by.old.seat.me.1,
        ) }
    {
        self.words.shared.load::<Announces>(&mut by.seat, MARK)
    }

    /// Raises `mark` and then looks at `said`: it isn't below what was said before a look that found a lower mark.
    pub fn gather(&self, by: &mut Announcer, mark: u64) -> u64
        requires { by.old.seat.table_id ≡ self.now.words.shared.table_id }
        ensures table { by.new.seat.table_id ≡ by.old.seat.table_id }
        ensures gathered { by.new.seat.me ≡ (
          record by.old.seat.me.0 {
            marked = max by.old.seat.me.0.marked mark;
            gathered = by.old.seat.me.0.gathered
                ++ record { mark = max by.old.seat.me.0.marked mark; found = result } ∷ [];
          },
          by.old.seat.me.1,
        ) }
    {
        self.words
            .shared
            .fetch_max::<Marks>(&mut by.seat, MARK, mark);
        self.words.shared.load::<Gathers>(&mut by.seat, SAID)
    }

    /// Takes in what another client knows, at the closing.
    pub fn join(&self, by: &mut Announcer, other: Announcer)
        requires { (by.old.seat.table_id ≡ self.now.words.shared.table_id)
            × (other.seat.table_id ≡ by.old.seat.table_id) × (other.seat.me.1 ≡ []) }
        ensures { (by.new.seat.table_id ≡ by.old.seat.table_id)
            × (by.new.seat.me ≡ (both by.old.seat.me.0 other.seat.me.0, by.old.seat.me.1)) }
    {
        self.words
            .shared
            .join_seat::<JoinClient>(&mut by.seat, other.seat);
    }

    /// All that the clients' looks have in common, once one client has taken in the others.
    pub fn close(self, by: Announcer)
        requires { by.seat.table_id ≡ self.words.shared.table_id }
        ensures met { AreMet by.seat.me.0.announced by.seat.me.0.gathered }
    {
        self.words.close_with(by.seat).free();
    }
}
