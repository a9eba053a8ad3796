//! The lists that a leader works with.
ghost use Rattle.std.specs.Prelude.{◌≡◌, ℕ, ◌<◌, vec_len, IfOk};
ghost use Rattle.line_writers.specs.Rooms.{AreReady, AllReady};

use line_rule::Older;
use std::alloc::{AllocError, Global};

/// The requests of a group in link order, each with its client.
#[derive(Drop)]
pub struct Requests<Request> {
    pub list: Vec<(u32, Request)>,
}

/// The replies to a group in link order, each with its client.
#[derive(Drop)]
pub struct Replies<Reply> {
    pub list: Vec<(u32, Reply)>,
}

/// How far a leader that stalls writes has walked through the queue, from the newest writer on.
#[derive(Clone, Copy)]
pub(crate) struct StallWalk {
    /// The newest writer, which `older_word(0)` names, or the group's newest member where the queue is empty.
    pub newest: u64,
    /// The last writer that it has passed and that stays in the queue, with its code; `None` where there is none.
    pub passed: Option<(u64, u64)>,
    /// The writer whose request it has.
    pub held: u64,
    /// The link of that writer.
    pub link: Older,
}

/// The lists that a leader works with, for its walk and its members, and how far its walk has come.
#[derive(Drop)]
pub struct Room {
    pub(crate) walk: Vec<(u64, u64)>,
    pub(crate) members: Vec<u32>,
    pub(crate) stall: StallWalk,
}

/// What one client needs to lead a group, with room for all clients.
#[derive(Drop)]
pub struct Lists<Request, Reply> {
    pub requests: Requests<Request>,
    pub replies: Replies<Reply>,
    pub room: Room,
}

impl<Request: Drop, Reply: Drop> Lists<Request, Reply> {
    fn new(alloc: Global, clients: u32) -> Result<Lists<Request, Reply>, AllocError>
        ensures { IfOk result (λ lists. AreReady clients lists) }
    {
        let requests = Requests {
            list: Vec::with_capacity(alloc, clients as usize)?,
        };
        let replies = Replies {
            list: Vec::with_capacity(alloc, clients as usize)?,
        };
        let walk = Vec::with_capacity(alloc, clients as usize)?;
        let members = Vec::with_capacity(alloc, clients as usize)?;
        let stall = StallWalk {
            newest: 0,
            passed: None,
            held: 0,
            link: Older { client: 0, code: 0 },
        };
        let room = Room {
            walk,
            members,
            stall,
        };
        Ok(Lists {
            requests,
            replies,
            room,
        })
    }

    /// Lists for each client.
    pub(crate) fn for_all(
        alloc: Global,
        clients: u32,
    ) -> Result<Vec<Lists<Request, Reply>>, AllocError>
        ensures { IfOk result (λ all. (vec_len all ≡ clients) × AllReady clients all.items) }
    {
        let mut all = Vec::with_capacity(alloc, clients as usize)?;
        // The lists of `made` clients are there, each with room for all.
        for made in 0..clients {
            all.push_reserved(Lists::new(alloc, clients)?);
        }
        Ok(all)
    }
}
