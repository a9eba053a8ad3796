//! The calls of clients that write, and how one pass learns what another pass has seen.

ghost use Rattle.std.specs.Prelude.{◌≡◌, ◌≢◌, ◌≤◌, ◌-◌, ℕ, true, length, Some, IfSome};
ghost use mathlib.Core.List.{IsPrefix};
ghost use Rattle.model_base.specs.Controller.{delay, look};
ghost use Rattle.model_base.specs.Replies.{WasHeldUp};
ghost use Rattle.model_base.specs.Tokens.{holds_stop, shown_by_tokens};
ghost use Rattle.engine_controller.specs.Looks.{look_of};
ghost use Rattle.engine_controller.specs.Passes.{client_of, seen_by, asked_by, last_held_up, seen_by_note};
ghost use Rattle.engine_controller.specs.Passes.{IsPassOf, IsNoteOf, GoesOn, EndsWith};

use crate::controller::Controller;
use crate::look::Look;
use crate::numbers::Action;
use crate::pass::{Note, Pass};
use crate::rule::{Copied, Looking, Sight};
use crate::words::{join, load, split};
use base_devices::Clock;
use std::marker::Brand;
use std::sync::Wait;

impl<Time: Clock> Controller<Time> {
    /// Asks how long a group of `bytes` bytes has to wait. Where some client stops or slows writes, the clock is asked
    /// once, before the call, and the call is at the moment that it answers. Where no client does, no answer depends on
    /// the moment, and the clock isn't asked: the call is at the last moment that the clock had answered, where the
    /// clock tells one, or else at any moment.
    pub fn delay<R: Wait>(&self, rt: &R, pass: &mut Pass, clock: &mut Time, bytes: u64) -> Look
        requires own { IsPassOf self.now pass.old }
        ensures own { IsPassOf self.now pass.new × (client_of pass.new ≡ client_of pass.old) }
        // The call goes on from all that the pass had seen: calls of others first, then this one, once. No clause says
        // that the clock was asked in this call.
        ensures asked { (now : ℕ) × IfSome (Time.last clock.new) (λ moment. moment ≡ now)
            × EndsWith (client_of pass.old) (seen_by pass.old) (delay now bytes) (Some (look_of result))
            (seen_by pass.new) }
        // The caller waits, and not this call.
        ensures pauses_none { Time.paused clock.new ≡ Time.paused clock.old }
    {
        // Where no client stops or slows writes, this load is the whole call, and no word is written.
        let found = self.ask_unslowed::<Brand, R>(rt, &mut pass.seat, clock, bytes);
        if found.stops == 0 && found.delays == 0 {
            pass.shown = found.shown;
            return Look::new(0, 0, 0);
        }
        let now = clock.now();
        let (told, new) = self.call(
            rt,
            &mut pass.seat,
            pass.number,
            Action::Delay { now, bytes },
        );
        pass.shown = new.shown;
        told
    }

    /// Reads how many clients stop writes, and how many slow them. A client that stops writes itself is counted too.
    pub fn look<R: Wait>(&self, rt: &R, pass: &mut Pass) -> Look
        requires own { IsPassOf self.now pass.old }
        ensures own { IsPassOf self.now pass.new × (client_of pass.new ≡ client_of pass.old) }
        ensures asked { EndsWith (client_of pass.old) (seen_by pass.old) look (Some (look_of result))
            (seen_by pass.new) }
        // A client that stops writes itself hears of a stop.
        ensures stopped { holds_stop (asked_by pass.old) ≡ true → 1 ≤ (look_of result).stops }
    {
        let found = load::<Looking, R>(&self.cell, rt, &mut pass.seat);
        pass.shown = found.shown;
        Look::new(found.stops, found.delays, 0)
    }

    /// As [`Controller::look`]. It also answers which client was the last one before it to learn, by its delay, that
    /// writes are held up, or 0 where none did. So a client that meets a stall learns whose it is, or was.
    pub fn look_at_stall<R: Wait>(&self, rt: &R, pass: &mut Pass) -> (Look, u64)
        requires own { IsPassOf self.now pass.old }
        ensures own { IsPassOf self.now pass.new × (client_of pass.new ≡ client_of pass.old) }
        ensures asked { EndsWith (client_of pass.old) (seen_by pass.old) look (Some (look_of result.0))
            (seen_by pass.new) }
        ensures last { result.1 ≡ last_held_up pass.new }
        ensures stalled { result.1 ≢ 0 → WasHeldUp (seen_by pass.new) result.1 (length (seen_by pass.new) - 1) }
    {
        let found = load::<Looking, R>(&self.cell, rt, &mut pass.seat);
        pass.shown = found.shown;
        (Look::new(found.stops, found.delays, 0), found.held_up)
    }

    /// Copies what the pass has seen, for another client's pass. It is no call, and the pass itself stays as it is.
    pub fn note(&self, pass: &mut Pass) -> Note
        requires own { IsPassOf self.now pass.old }
        ensures own { IsPassOf self.now pass.new × (client_of pass.new ≡ client_of pass.old) }
        ensures seen { seen_by pass.new ≡ seen_by pass.old }
        ensures note { IsNoteOf self.now result × (seen_by_note result ≡ seen_by pass.old) }
    {
        Note {
            seat: split::<Copied>(&self.cell, &mut pass.seat),
            shown: pass.shown,
        }
    }

    /// The greatest number of the calls that took a token or gave one back, among those that the note shows: the
    /// clients that made them had been shown what is published up to no further than that.
    pub fn shown_by(&self, note: &Note) -> u64
        ensures { result ≡ shown_by_tokens (seen_by_note note.now) }
    {
        note.shown
    }

    /// Makes two notes of one. It is no call.
    pub fn copies(&self, note: Note) -> (Note, Note)
        requires { IsNoteOf self.now note }
        ensures { (result.0 ≡ note) × (result.1 ≡ note) }
    {
        let Note { mut seat, shown } = note;
        let one = Note {
            seat: split::<Copied>(&self.cell, &mut seat),
            shown,
        };
        let two = Note {
            seat: split::<Copied>(&self.cell, &mut seat),
            shown,
        };
        (one, two)
    }

    /// Lets the pass see what another pass has seen, and all of the history so far. It is no call.
    pub fn learn<R: Wait>(&self, rt: &R, pass: &mut Pass, note: Note)
        requires own { IsPassOf self.now pass.old }
        requires note { IsNoteOf self.now note }
        ensures own { IsPassOf self.now pass.new × (client_of pass.new ≡ client_of pass.old) }
        ensures seen { GoesOn (client_of pass.old) (seen_by pass.old) (seen_by pass.new) }
        ensures noted { IsPrefix (seen_by_note note) (seen_by pass.new) }
    {
        join(&self.cell, &mut pass.seat, note.seat);
        // Only a step on the words shows that both are beginnings of one history.
        let found = load::<Sight, R>(&self.cell, rt, &mut pass.seat);
        pass.shown = found.shown;
    }
}
