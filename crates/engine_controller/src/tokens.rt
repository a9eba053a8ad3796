//! The calls that take a token or give one back. A client asks its own pass whether it holds one. Each call says up to
//! which sequence its client had been shown what is published: the controller only keeps the greatest of these numbers.

ghost use Rattle.std.specs.Prelude.{◌≡◌, ◌++◌, true, false, List, None, OnOk, OnErr};
ghost use Rattle.model_base.specs.Controller.{ControllerCall, stop, unstop, slow, unslow};
ghost use Rattle.model_base.specs.Tokens.{holds_stop, holds_slow, given_back};
ghost use Rattle.engine_controller.specs.Passes.{client_of, seen_by, asked_by, IsPassOf, EndsWith, GivesBack};

use crate::controller::Controller;
use crate::error::{Held, NotHeld};
use crate::numbers::Action;
use crate::pass::Pass;
use base_devices::Clock;
use std::sync::Wait;

impl<Time: Clock> Controller<Time> {
    /// Whether the client holds a stop token.
    pub fn is_stopping(&self, pass: &Pass) -> bool
        requires own { IsPassOf self.now pass.now }
        ensures { result ≡ holds_stop (asked_by pass.now) }
    {
        pass.stopping
    }

    /// Takes the client's stop token. While any client holds one, writes are stopped. Where the client already holds
    /// one, no call is made.
    pub fn stop<R: Wait>(&self, rt: &R, pass: &mut Pass, shown: u64) -> Result<(), Held>
        requires own { IsPassOf self.now pass.old }
        ensures own { IsPassOf self.now pass.new × (client_of pass.new ≡ client_of pass.old) }
        ensures done { OnOk result ((holds_stop (asked_by pass.old) ≡ false)
            × EndsWith (client_of pass.old) (seen_by pass.old) (stop shown) None (seen_by pass.new)) }
        // A token is refused exactly where the client itself holds one, and then nothing is called.
        ensures held { OnErr result ((holds_stop (asked_by pass.old) ≡ true)
            × (seen_by pass.new ≡ seen_by pass.old)) }
    {
        if pass.stopping {
            return Err(Held);
        }
        let (_, new) = self.call(rt, &mut pass.seat, pass.number, Action::Stop { shown });
        pass.shown = new.shown;
        pass.tokens = new.tokens;
        pass.stopping = true;
        Ok(())
    }

    /// Gives the client's stop token back. Where it holds none, no call is made.
    pub fn unstop<R: Wait>(&self, rt: &R, pass: &mut Pass, shown: u64) -> Result<(), NotHeld>
        requires own { IsPassOf self.now pass.old }
        ensures own { IsPassOf self.now pass.new × (client_of pass.new ≡ client_of pass.old) }
        ensures done { OnOk result ((holds_stop (asked_by pass.old) ≡ true)
            × EndsWith (client_of pass.old) (seen_by pass.old) (unstop shown) None (seen_by pass.new)) }
        // Giving back is refused exactly where the client holds none.
        ensures not_held { OnErr result ((holds_stop (asked_by pass.old) ≡ false)
            × (seen_by pass.new ≡ seen_by pass.old)) }
    {
        if !pass.stopping {
            return Err(NotHeld);
        }
        let (_, new) = self.call(rt, &mut pass.seat, pass.number, Action::Unstop { shown });
        pass.shown = new.shown;
        pass.tokens = new.tokens;
        pass.stopping = false;
        Ok(())
    }

    /// Takes the client's slow token, with a rate in bytes a second. A rate of 0 counts as 1. Where the client already
    /// holds one, no call is made.
    pub fn slow<R: Wait>(&self, rt: &R, pass: &mut Pass, rate: u64, shown: u64) -> Result<(), Held>
        requires own { IsPassOf self.now pass.old }
        ensures own { IsPassOf self.now pass.new × (client_of pass.new ≡ client_of pass.old) }
        ensures done { OnOk result ((holds_slow (asked_by pass.old) ≡ false)
            × EndsWith (client_of pass.old) (seen_by pass.old) (slow rate shown) None (seen_by pass.new)) }
        ensures held { OnErr result ((holds_slow (asked_by pass.old) ≡ true)
            × (seen_by pass.new ≡ seen_by pass.old)) }
    {
        if pass.slowing {
            return Err(Held);
        }
        let (_, new) = self.call(
            rt,
            &mut pass.seat,
            pass.number,
            Action::Slow { rate, shown },
        );
        pass.shown = new.shown;
        pass.tokens = new.tokens;
        pass.slowing = true;
        Ok(())
    }

    /// Gives the client's slow token back. The rate, the credit and the next refill stay as they are. Where the client
    /// holds none, no call is made.
    pub fn unslow<R: Wait>(&self, rt: &R, pass: &mut Pass, shown: u64) -> Result<(), NotHeld>
        requires own { IsPassOf self.now pass.old }
        ensures own { IsPassOf self.now pass.new × (client_of pass.new ≡ client_of pass.old) }
        ensures done { OnOk result ((holds_slow (asked_by pass.old) ≡ true)
            × EndsWith (client_of pass.old) (seen_by pass.old) (unslow shown) None (seen_by pass.new)) }
        ensures not_held { OnErr result ((holds_slow (asked_by pass.old) ≡ false)
            × (seen_by pass.new ≡ seen_by pass.old)) }
    {
        if !pass.slowing {
            return Err(NotHeld);
        }
        let (_, new) = self.call(rt, &mut pass.seat, pass.number, Action::Unslow { shown });
        pass.shown = new.shown;
        pass.tokens = new.tokens;
        pass.slowing = false;
        Ok(())
    }

    /// Gives back the tokens that the client holds, the stop token first, and makes no other call.
    pub fn end<R: Wait>(&self, rt: &R, pass: &mut Pass, shown: u64)
        requires own { IsPassOf self.now pass.old }
        ensures own { IsPassOf self.now pass.new × (client_of pass.new ≡ client_of pass.old) }
        ensures tokens { asked_by pass.new ≡ asked_by pass.old ++ given_back (asked_by pass.old) shown }
        ensures calls { (middle : List ControllerCall)
            × GivesBack (holds_stop (asked_by pass.old)) (client_of pass.old) (seen_by pass.old) (unstop shown) middle
            × GivesBack (holds_slow (asked_by pass.old)) (client_of pass.old) middle (unslow shown)
            (seen_by pass.new) }
    {
        let _ = self.unstop(rt, pass, shown);
        let _ = self.unslow(rt, pass, shown);
    }
}
