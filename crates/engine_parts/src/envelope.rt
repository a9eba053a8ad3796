//! The box in which a client's request goes to its leader, and in which the answer comes back.

ghost use Rattle.std.specs.Prelude.{◌≡◌, true, None, Some, vec_len, IfOk};
ghost use Rattle.engine_parts.specs.Letters.{is_asked, is_told};

use crate::requests::{Answer, Request};
use engine_controller::Note;
use line_rule::{GivesRun, HasGroupingItem};
use model_base::NoMemory;
use std::alloc::Global;
use std::marker::Model;
use std::mem;

/// What is in an envelope.
#[derive(Drop)]
pub(crate) enum Letter {
    Nothing,
    Asked(Request),
    Told(Answer),
}

/// A client's envelope. Each client has one from the opening on, so that nothing can run out of memory later, and what
/// goes through the line is as small as a box. Contracts see only that it is there.
#[derive(Drop)]
pub struct Envelope {
    letter: Box<Letter>,
}

impl Model for Envelope {
    ghost use Rattle.std.specs.Prelude.{⊤};

    ghost Value = { ⊤ };

    ghost view = { λ _. tt };
}

/// An envelope with a request in it. Contracts see the request.
#[derive(Drop)]
pub struct SealedRequest {
    letter: Box<Letter>,
    ghost asked: { is_asked letter.value ≡ true },
}

impl Model for SealedRequest {
    ghost use Rattle.engine_parts.specs.declared.requests.Request.{Request};

    ghost Value = { Request };

    ghost use Rattle.engine_parts.specs.Letters.{asked_in};

    ghost view = { λ s. asked_in s.letter.value s.asked };
}

/// An envelope with an answer in it. Contracts see the answer.
#[derive(Drop)]
pub struct SealedAnswer {
    letter: Box<Letter>,
    ghost told: { is_told letter.value ≡ true },
}

impl Model for SealedAnswer {
    ghost use Rattle.engine_parts.specs.declared.requests.Answer.{Answer};

    ghost Value = { Answer };

    ghost use Rattle.engine_parts.specs.Letters.{told_in};

    ghost view = { λ s. told_in s.letter.value s.told };
}

impl HasGroupingItem for SealedRequest {
    ghost use Rattle.engine_parts.specs.Items.{item_with};

    ghost item_of = { λ r. item_with r.since r.batch.records r.options };
}

impl GivesRun for SealedAnswer {
    ghost use Rattle.engine_parts.specs.Items.{run_in};

    ghost run_of = { λ p. run_in p.answer };
}

impl Envelope {
    fn new(alloc: Global) -> Result<Envelope, NoMemory> {
        let letter = Box::new(alloc, Letter::Nothing)?;
        Ok(Envelope { letter })
    }

    /// An envelope for each client.
    pub fn for_all(alloc: Global, clients: u32) -> Result<Vec<Envelope>, NoMemory>
        ensures { IfOk result (λ all. vec_len all ≡ clients) }
    {
        let mut all = Vec::with_capacity(alloc, clients as usize)?;
        // There are `made` envelopes, and room for all.
        for made in 0..clients {
            all.push_reserved(Envelope::new(alloc)?);
        }
        Ok(all)
    }

    /// Puts a request in.
    pub fn ask(mut self, request: Request) -> SealedRequest
        ensures { result ≡ request }
    {
        *self.letter = Letter::Asked(request);
        SealedRequest {
            letter: self.letter,
        }
    }

    /// Puts an answer in.
    pub fn tell(mut self, answer: Answer) -> SealedAnswer
        ensures { result ≡ answer }
    {
        *self.letter = Letter::Told(answer);
        SealedAnswer {
            letter: self.letter,
        }
    }
}

impl SealedRequest {
    pub fn as_request(&self) -> &Request
        ensures { result.now ≡ self.now }
    {
        match &*self.letter {
            Letter::Asked(request) => request,
            _ => unreachable!(),
        }
    }

    /// Takes the note out of the request.
    pub fn take_note(&mut self) -> Option<Note>
        ensures value { result ≡ self.old.note }
        ensures after { self.new ≡ record self.old { note = None } }
    {
        match &mut *self.letter {
            Letter::Asked(request) => request.note.take(),
            _ => unreachable!(),
        }
    }

    /// Puts a note into the request, in place of the one that it may have.
    pub fn put_note(&mut self, note: Note)
        ensures { self.new ≡ record self.old { note = Some note } }
    {
        match &mut *self.letter {
            Letter::Asked(request) => request.note = Some(note),
            _ => unreachable!(),
        }
    }

    /// Takes the request out.
    pub fn open(mut self) -> (Request, Envelope)
        ensures { result.0 ≡ self }
    {
        let Letter::Asked(request) = mem::replace(&mut *self.letter, Letter::Nothing) else {
            unreachable!()
        };
        let envelope = Envelope {
            letter: self.letter,
        };
        (request, envelope)
    }
}

impl SealedAnswer {
    /// Puts a note into the answer, in place of the one that it may have.
    pub fn put_note(&mut self, note: Note)
        ensures { self.new ≡ record self.old { note = Some note } }
    {
        match &mut *self.letter {
            Letter::Told(answer) => answer.note = Some(note),
            _ => unreachable!(),
        }
    }

    /// Takes the answer out.
    pub fn open(mut self) -> (Answer, Envelope)
        ensures { result.0 ≡ self }
    {
        let Letter::Told(answer) = mem::replace(&mut *self.letter, Letter::Nothing) else {
            unreachable!()
        };
        let envelope = Envelope {
            letter: self.letter,
        };
        (answer, envelope)
    }
}
