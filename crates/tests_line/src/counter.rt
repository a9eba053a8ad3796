//! A plain counter as the log, what it answers, and the clients.
ghost use Rattle.std.specs.Prelude.{◌≡◌, ◌≤◌, [], vec_len, vec_capacity, ⊤};
ghost use Rattle.line_writers.specs.Roles.{firsts};

use line_rule::{GivesRun, HasGroupingItem, LogOfGroups};
use line_writers::{Lists, Replies, Requests, Writer};
use model_base::Item;
use std::mem;

/// A request that the counter should count.
#[derive(Drop)]
pub struct CountRequest {
    pub item: Item,
}

impl HasGroupingItem for CountRequest {
    ghost item_of = { λ a. a.item };
}

/// The counter's number when it handled the request, and the size in the request.
#[derive(Drop, Clone, Copy)]
pub struct CountReply {
    pub number: u64,
    pub size: u64,
}

impl GivesRun for CountReply {
    ghost run_of = { λ a. (0, 0) };
}

/// How many requests were counted, and the sum of their sizes, with any kind of right. It promises nothing of the
/// handlings: the tests compare what it answered.
#[derive(Drop)]
pub struct CountLog {
    pub count: u64,
    pub sum: u64,
}

impl<Right> LogOfGroups<CountRequest, CountReply, Right> for CountLog {
    type About = u64;

    ghost stands = { λ about c hs. about ≡ about };

    ghost kept = { λ about hs. about ≡ about };

    ghost serves = { λ _ _ _. ⊤ };

    // No test stalls writes, so no request leaves the queue before it is counted.
    ghost drops = { λ _ _ _. ⊥ };

    ghost lawful = { λ _ _. ⊤ };

    ghost number_of = { λ c. 0 };

    fn number(&self) -> u64 {
        0
    }
}

/// Takes the place of the right to a second list, which this list doesn't have.
#[derive(Drop)]
pub struct Nothing {
    pub mark: u64,
}

/// A client: its writer, the lists that it leads with, the replies that it got, and the size of the group that it led
/// last.
#[derive(Drop)]
pub struct Player {
    pub writer: Writer<CountRequest, CountReply, CountLog, Nothing>,
    pub lists: Lists<CountRequest, CountReply>,
    pub told: Vec<CountReply>,
    pub led: usize,
}

/// Answers each request with the counter's next number and the request's own size.
pub fn answer_all(
    counter: &mut CountLog,
    requests: &mut Requests<CountRequest>,
    replies: &mut Replies<CountReply>,
)
    requires room { (replies.old.list.items ≡ []) × (vec_len replies.old.list ≡ 0)
        × (vec_len requests.old.list ≤ vec_capacity replies.old.list) }
    ensures replies { firsts replies.new.list.items ≡ firsts requests.old.list.items }
    ensures len { vec_len replies.new.list ≡ vec_len requests.old.list }
    ensures cleared { (requests.new.list.items ≡ []) × (vec_len requests.new.list ≡ 0) }
    ensures room { (vec_capacity requests.new.list ≡ vec_capacity requests.old.list)
        × (vec_capacity replies.new.list ≡ vec_capacity replies.old.list) }
{
    // The first `i` requests are answered, in their order.
    for i in 0..requests.list.len() {
        let client = requests.list[i].0;
        let size = requests.list[i].1.item.size;
        replies.list.push_reserved((
            client,
            CountReply {
                number: counter.count,
                size,
            },
        ));
        counter.count = counter.count.wrapping_add(1);
        counter.sum = counter.sum.wrapping_add(size);
    }
    requests.list.clear();
}

/// Notes a client's reply, where there is room for it.
pub fn note(told: &mut Vec<CountReply>, answer: CountReply) {
    if told.len() < told.capacity() {
        told.push_reserved(answer);
    }
}

/// Notes each number in a client's replies, whose requests all have this size. An `Err` has the first reply that is
/// wrong: its size is another, or its number was noted before, has no place in `noted`, or isn't above the number
/// before it.
pub fn note_numbers(told: &[CountReply], size: u64, noted: &mut [bool]) -> Result<(), CountReply> {
    let mut next = 0;
    // The numbers so far are noted, and all of them are below `next`.
    for answer in told {
        let number = answer.number;
        let is_new = match noted.get_mut(number as usize) {
            Some(place) => !mem::replace(place, true),
            None => false,
        };
        if answer.size != size || number < next || !is_new {
            return Err(*answer);
        }
        next = number.wrapping_add(1);
    }
    Ok(())
}
