//! A client's tokens of the write controller.

ghost use Rattle.std.specs.Prelude.{◌≡◌, List, Some};
ghost use Rattle.model_base.specs.Batch.{Record};
ghost use Rattle.model_base.specs.Calls as calls;
ghost use Rattle.run_threads.specs.Answers.{GoesOn};

use engine_calls::{Engine, Held, NotHeld};
use model_accounts::{slowdowns_are_steps, stops_are_steps};
use run_outcome::Reply;
use std::rt;
use std::sync::Wait;

/// Takes the stop token.
pub fn stop<E: Engine, R: Wait + rt::Clock>(rt: &R, engine: &E, client: &mut E::Client) -> Reply
    requires { E.belongs engine.now client.old }
    ensures belongs { E.belongs engine.now client.new }
    ensures goes { (pending : List Record) → GoesOn (E.settings engine.now) (E.account client.old) pending calls.stop
        (Some result) (E.account client.new) pending }
    ensures mine { (E.account client.new).mine ≡ (E.account client.old).mine }
{
    stops_are_steps();
    match engine.stop(rt, client) {
        Ok(()) => Reply::Done,
        Err(Held) => Reply::Held,
    }
}

/// Gives the stop token back.
pub fn unstop<E: Engine, R: Wait + rt::Clock>(rt: &R, engine: &E, client: &mut E::Client) -> Reply
    requires { E.belongs engine.now client.old }
    ensures belongs { E.belongs engine.now client.new }
    ensures goes { (pending : List Record) → GoesOn (E.settings engine.now) (E.account client.old) pending calls.unstop
        (Some result) (E.account client.new) pending }
    ensures mine { (E.account client.new).mine ≡ (E.account client.old).mine }
{
    stops_are_steps();
    match engine.unstop(rt, client) {
        Ok(()) => Reply::Done,
        Err(NotHeld) => Reply::NotHeld,
    }
}

/// Takes the slow token, with a rate.
pub fn slow<E: Engine, R: Wait + rt::Clock>(
    rt: &R,
    engine: &E,
    client: &mut E::Client,
    rate: u64,
) -> Reply
    requires { E.belongs engine.now client.old }
    ensures belongs { E.belongs engine.now client.new }
    ensures goes { (pending : List Record) → GoesOn (E.settings engine.now) (E.account client.old) pending
        (calls.slow rate) (Some result) (E.account client.new) pending }
    ensures mine { (E.account client.new).mine ≡ (E.account client.old).mine }
{
    slowdowns_are_steps();
    match engine.slow(rt, client, rate) {
        Ok(()) => Reply::Done,
        Err(Held) => Reply::Held,
    }
}

/// Gives the slow token back.
pub fn unslow<E: Engine, R: Wait + rt::Clock>(rt: &R, engine: &E, client: &mut E::Client) -> Reply
    requires { E.belongs engine.now client.old }
    ensures belongs { E.belongs engine.now client.new }
    ensures goes { (pending : List Record) → GoesOn (E.settings engine.now) (E.account client.old) pending calls.unslow
        (Some result) (E.account client.new) pending }
    ensures mine { (E.account client.new).mine ≡ (E.account client.old).mine }
{
    slowdowns_are_steps();
    match engine.unslow(rt, client) {
        Ok(()) => Reply::Done,
        Err(NotHeld) => Reply::NotHeld,
    }
}
