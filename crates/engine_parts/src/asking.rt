//! What a leader asks the write controller, and how its group waits or is refused.

ghost use Rattle.std.specs.Prelude.{◌≡◌, ◌⊎◌, ◌≤◌, ◌<◌, ℕ, List, [], false, true, length, map, vec_capacity, IfOk, IfErr};
ghost use mathlib.Core.List.{IsPrefix};
ghost use Rattle.std.specs.List.{AllByRecursion, AllZip};
ghost use Rattle.base_devices.specs.Clocks.{HasPaused};
ghost use Rattle.model_base.specs.Controller.{HoldUp, ShowTokens};
ghost use Rattle.model_base.specs.Grouping.{size_of};
ghost use Rattle.model_base.specs.Replies.{WasHeldUp};
ghost use Rattle.engine_controller.specs.Looks.{look_of};
ghost use Rattle.engine_controller.specs.Passes.{client_of, last_held_up, seen_by, seen_by_note, IsPassOf, IsNoteOf, GoesOn};
ghost use Rattle.engine_rule.specs.Plans.{item_of_request, LetsProceed};
ghost use Rattle.engine_parts.specs.Handled.{commit_requests_of, held_up_with, noted_in, IsNoted, IsHeldUp, IsDropped, IsNotedAs, SawNoTokens, IsTurnedAway};
ghost use Rattle.engine_parts.specs.Asking.{HasAskedFor, HasLearned, OnlyLooks, all_seen, greatest_shown};

use crate::envelope::{SealedAnswer, SealedRequest};
use crate::numbering::{batch_of, take_first};
use crate::requests::{Answer, Delay};
use base_devices::Clock;
use engine_calls::Refused;
use engine_controller::{Controller, Look, Note, Pass};
use log_batch::Batch;
use model_base::Refusal;
use std::snapshot::Snapshot;
use std::sync::Wait;

/// How long a leader waits before it looks again whether writes are still stopped, in microseconds.
const PAUSE: u64 = 1000;

/// Asks for the delay of a group, with the sum of its sizes. Before that the leader's pass learns what the leaders
/// before it and the members had seen.
pub fn ask<Time: Clock, R: Wait>(
    rt: &R,
    controller: &Controller<Time>,
    pass: &mut Pass,
    clock: &mut Time,
    before: Note,
    requests: &mut [(u32, SealedRequest)],
) -> Look
    requires pass { IsPassOf controller.now pass.old }
    requires notes { IsNoteOf controller.now before
        × AllByRecursion (λ (x : ℕ × _). IsNoted controller.now x.1) requests.old }
    requires few { length requests.old < 255 }
    ensures pass { IsPassOf controller.now pass.new × (client_of pass.new ≡ client_of pass.old) }
    ensures asked { HasAskedFor (client_of pass.old) (seen_by pass.old) (seen_by_note before) requests.old
        (look_of result) (seen_by pass.new) }
    ensures pauses_none { Time.paused clock.new ≡ Time.paused clock.old }
    ensures requests { requests.new ≡ all_seen requests.old }
{
    controller.learn(rt, pass, before);
    learn_all(rt, controller, pass, requests);
    // Those who make a token call after the delay are shown what the members had been shown.
    controller.say(rt, pass, most_shown(requests));
    let bytes = bytes_of(requests);
    controller.delay(rt, pass, clock, bytes)
}

/// Lets the leader's pass learn what the members had seen.
fn learn_all<Time: Clock, R: Wait>(
    rt: &R,
    controller: &Controller<Time>,
    pass: &mut Pass,
    requests: &mut [(u32, SealedRequest)],
)
    requires pass { IsPassOf controller.now pass.old }
    requires notes { AllByRecursion (λ (x : ℕ × _). IsNoted controller.now x.1) requests.old }
    ensures pass { IsPassOf controller.now pass.new × (client_of pass.new ≡ client_of pass.old) }
    ensures learned { HasLearned (client_of pass.old) (seen_by pass.old) requests.old (seen_by pass.new) }
    ensures requests { requests.new ≡ all_seen requests.old }
{
    // The notes of the members before `i` are taken, and the pass has seen what they show.
    for i in 0..requests.len() {
        let member = &mut requests[i];
        if let Some(note) = member.1.take_note() {
            controller.learn(rt, pass, note);
        }
    }
}

/// The greatest sequence up to which a member had seen what is published.
fn most_shown(requests: &[(u32, SealedRequest)]) -> u64
    ensures { result ≡ greatest_shown requests.now }
{
    let mut most: u64 = 0;
    // `most` is the greatest of the members before `i`.
    for i in 0..requests.len() {
        most = most.max(requests[i].1.as_request().shown);
    }
    most
}

/// The sum of the sizes of a group's batches.
fn bytes_of(requests: &[(u32, SealedRequest)]) -> u64
    requires { length requests.now < 255 }
    ensures { result ≡ size_of (map item_of_request (commit_requests_of requests.now)) }
{
    let mut bytes = 0;
    // `bytes` is the sum of the sizes of the batches before `i`.
    for i in 0..requests.len() {
        bytes += requests[i].1.as_request().batch.size();
    }
    bytes
}

/// Whether writes are held up: stopped, or slowed down where this group has to wait.
pub fn holds_writes_up(look: Look) -> bool
    ensures held_up { result ≡ true → HoldUp (look_of look) }
    ensures free { HoldUp (look_of look) → result ≡ true }
{
    look.stops() > 0 || (look.delays() > 0 && look.wait() > 0)
}

/// Whether a group goes on. A group that may wait always goes on, but waits here first. A group that may not wait goes
/// on only where writes aren't held up.
pub fn may_proceed<Time: Clock, R: Wait>(
    rt: &R,
    controller: &Controller<Time>,
    pass: &mut Pass,
    clock: &mut Time,
    look: Look,
    no_slowdown: bool,
) -> bool
    requires pass { IsPassOf controller.now pass.old }
    ensures pass { IsPassOf controller.now pass.new × (client_of pass.new ≡ client_of pass.old) }
    ensures looks { OnlyLooks (client_of pass.old) (seen_by pass.old) (seen_by pass.new) }
    ensures proceeds { result ≡ true
        → LetsProceed (client_of pass.old) (look_of look) (seen_by pass.old) (seen_by pass.new) no_slowdown }
    ensures refused { result ≡ false
        → (no_slowdown ≡ true) × HoldUp (look_of look) × (seen_by pass.new ≡ seen_by pass.old) }
    // A group that may wait waits at least as long as its delay answered, by what the clock was asked to let pass.
    ensures waited { no_slowdown ≡ false
        → HasPaused (Time.paused clock.old) (look_of look).wait (Time.paused clock.new) }
    // One that may not wait doesn't.
    ensures hasty { no_slowdown ≡ true → clock.new ≡ clock.old }
{
    if no_slowdown {
        return !holds_writes_up(look);
    }
    wait_while_held_up(rt, controller, pass, clock, look);
    true
}

/// Whether some client stops or slows writes.
fn shows_tokens(look: Look) -> bool
    ensures shown { result ≡ true → ShowTokens (look_of look) }
    ensures none { ShowTokens (look_of look) → result ≡ true }
{
    look.stops() > 0 || look.delays() > 0
}

/// Lets the pass learn what a request's note shows, and leaves the note with the request.
fn learn_of<Time: Clock, R: Wait>(
    rt: &R,
    controller: &Controller<Time>,
    pass: &mut Pass,
    request: &mut SealedRequest,
)
    requires pass { IsPassOf controller.now pass.old }
    requires note { IsNoted controller.now request.old }
    ensures pass { IsPassOf controller.now pass.new × (client_of pass.new ≡ client_of pass.old) }
    ensures seen { GoesOn (client_of pass.old) (seen_by pass.old) (seen_by pass.new) }
    ensures noted { IsPrefix (noted_in request.old.note) (seen_by pass.new) }
    ensures same { request.new ≡ request.old }
{
    if let Some(note) = request.take_note() {
        let (learned, kept) = controller.copies(note);
        controller.learn(rt, pass, learned);
        request.put_note(kept);
    }
}

/// What a leader that stalls writes answers to a request of the queue that may not wait: it is refused, where a look
/// shows that some client stops or slows writes. Where it shows none, the request comes back as it was.
pub fn drop_if_stalled<Time: Clock, R: Wait>(
    rt: &R,
    controller: &Controller<Time>,
    pass: &mut Pass,
    delay: &Delay,
    mut request: SealedRequest,
) -> Result<SealedAnswer, SealedRequest>
    requires pass { IsPassOf controller.now pass.old }
    requires stalls { WasHeldUp (seen_by pass.old) (client_of pass.old) (length (seen_by pass.old)) }
    requires request { IsNoted controller.now request × (request.options.no_slowdown ≡ true) }
    ensures pass { IsPassOf controller.now pass.new × (client_of pass.new ≡ client_of pass.old) }
    ensures looks { OnlyLooks (client_of pass.old) (seen_by pass.old) (seen_by pass.new) }
    ensures dropped { IfOk result (λ p. IsDropped controller.now request p) }
    ensures back { IfErr result (λ q. q ≡ request) }
    ensures none { IfErr result (λ _. SawNoTokens (client_of pass.old) (seen_by pass.old) (seen_by pass.new)) }
{
    // The look comes after all that the writer had seen, since the leader's pass has met the writer's.
    learn_of(rt, controller, pass, &mut request);
    let look = controller.look(rt, pass);
    if !shows_tokens(look) {
        return Err(request);
    }
    let (batch, envelope) = batch_of(request);
    let answer = Answer {
        answer: Err(refused_by(look, batch)),
        delay: Snapshot::of(delay),
        note: Some(controller.note(pass)),
        read: None,
    };
    Ok(envelope.tell(answer))
}

/// What a client answers itself that met a stall with a request that may not wait, and that no list has: it is refused,
/// where a look shows that some client stops or slows writes, and that another client was the last one to learn that
/// writes are held up. Where it doesn't show both, the request comes back as it was.
pub fn turn_away_if_stalled<Time: Clock, R: Wait>(
    rt: &R,
    controller: &Controller<Time>,
    pass: &mut Pass,
    client: u32,
    request: SealedRequest,
) -> Result<SealedAnswer, SealedRequest>
    requires pass { IsPassOf controller.now pass.old × (client_of pass.old ≡ client) }
    requires may { request.options.no_slowdown ≡ true }
    ensures pass { IsPassOf controller.now pass.new × (client_of pass.new ≡ client_of pass.old) }
    ensures looks { OnlyLooks client (seen_by pass.old) (seen_by pass.new) }
    ensures away { IfOk result (λ p. IsTurnedAway client (seen_by pass.old) (seen_by pass.new) request p) }
    ensures back { IfErr result (λ q. q ≡ request) }
    ensures again { IfErr result (λ _. SawNoTokens client (seen_by pass.old) (seen_by pass.new)
        ⊎ ((last_held_up pass.new ≡ 0) ⊎ (last_held_up pass.new ≡ client))) }
{
    let (look, leader) = controller.look_at_stall(rt, pass);
    if !shows_tokens(look) || leader == 0 || leader == client as u64 {
        return Err(request);
    }
    let (batch, envelope) = batch_of(request);
    // No delay was asked for it. The answer has a place for one, which says nothing here.
    let delay = Delay {
        pass: Snapshot::of(pass),
        went: Snapshot::of(pass),
        made: 0,
    };
    let answer = Answer {
        answer: Err(refused_by(look, batch)),
        delay: Snapshot::of(&delay),
        note: None,
        read: None,
    };
    Ok(envelope.tell(answer))
}

/// Waits where writes are held up: as long as the delay answered, and then while writes are stopped.
fn wait_while_held_up<Time: Clock, R: Wait>(
    rt: &R,
    controller: &Controller<Time>,
    pass: &mut Pass,
    clock: &mut Time,
    look: Look,
)
    requires pass { IsPassOf controller.now pass.old }
    ensures pass { IsPassOf controller.now pass.new × (client_of pass.new ≡ client_of pass.old) }
    ensures looks { OnlyLooks (client_of pass.old) (seen_by pass.old) (seen_by pass.new) }
    ensures proceeds { LetsProceed (client_of pass.old) (look_of look) (seen_by pass.old) (seen_by pass.new) false }
    ensures waited { HasPaused (Time.paused clock.old) (look_of look).wait (Time.paused clock.new) }
{
    pause_for(clock, look.wait());
    let mut stops = look.stops();
    // `stops` is what the delay answered, or the newest look after it, and the clock has paused as long as the delay
    // answered.
    for _ in rt.forever() {
        if stops == 0 {
            return;
        }
        clock.pause(PAUSE);
        stops = controller.look(rt, pass).stops();
    }
    unreachable!()
}

/// Lets the clock pause for this number of microseconds. Where it is 0 the clock isn't asked.
fn pause_for<Time: Clock>(clock: &mut Time, micros: u64)
    ensures { HasPaused (Time.paused clock.old) micros (Time.paused clock.new) }
{
    if micros > 0 {
        clock.pause(micros);
    }
}

/// The refusal of a batch because writes are held up.
pub fn refused_by(look: Look, batch: Batch) -> Refused
    ensures { result ≡ held_up_with (look_of look) batch }
{
    let why = Refusal::Incomplete {
        stops: look.stops(),
        delays: look.delays(),
        wait: look.wait(),
    };
    Refused { batch, why }
}

/// Refuses all members because writes are held up.
pub fn refuse_held_up(
    look: Look,
    delay: &Delay,
    requests: &mut Vec<(u32, SealedRequest)>,
    replies: &mut Vec<(u32, SealedAnswer)>,
)
    requires room { length requests.old.items ≤ vec_capacity replies.old }
    requires empty { replies.old.items ≡ [] }
    ensures replies { AllZip (IsHeldUp delay.now (look_of look)) requests.old.items replies.new.items }
    ensures taken { requests.new.items ≡ [] }
    ensures room { (vec_capacity requests.new ≡ vec_capacity requests.old)
        × (vec_capacity replies.new ≡ vec_capacity replies.old) }
{
    // Each request that was taken has its reply, in the same order.
    while let Some((client, request)) = take_first(requests) {
        let (batch, envelope) = batch_of(request);
        let answer = Answer {
            answer: Err(refused_by(look, batch)),
            delay: Snapshot::of(delay),
            note: None,
            read: None,
        };
        replies.push_reserved((client, envelope.tell(answer)));
    }
}

/// Gives each reply a note of what the leader has seen.
pub fn note_all<Time: Clock>(
    controller: &Controller<Time>,
    pass: &mut Pass,
    replies: &mut [(u32, SealedAnswer)],
)
    requires pass { IsPassOf controller.now pass.old }
    ensures pass { IsPassOf controller.now pass.new × (client_of pass.new ≡ client_of pass.old)
        × (seen_by pass.new ≡ seen_by pass.old) }
    ensures replies { AllZip (IsNotedAs controller.now (seen_by pass.old)) replies.old replies.new }
{
    // The replies before `i` have their notes, and the pass has seen nothing more.
    for i in 0..replies.len() {
        let reply = &mut replies[i];
        reply.1.put_note(controller.note(pass));
    }
}
