//! Disks of which a call uses some, and how all of them come together again in their order.

ghost use Rattle.std.specs.Prelude.{◌≡◌, ◌+◌, ◌<◌, ◌≤◌, [], ◌∷◌, ◌++◌, take, drop, length, vec_len, vec_capacity, IfOk, IfErr};
ghost use Rattle.program_call.specs.Asking.{used_of as number_used};

use crate::ended::{Ended, EndedMany};
use std::alloc::Global;

/// How many disks hold a log of the call, where so many logs are asked for, and so many disks are handed in.
pub fn used_of(logs: Option<u64>, disks: usize) -> usize
    ensures { result ≡ number_used logs disks }
{
    match logs {
        Some(logs) => logs.min(disks as u64) as usize,
        None => 1,
    }
}

/// The first disk, and the others.
pub fn first_of<D>(mut disks: Vec<D>) -> (D, Vec<D>)
    requires { 0 < length disks.items }
    ensures items { disks.items ≡ result.0 ∷ result.1.items }
    ensures room { vec_len result.1 < vec_capacity result.1 }
{
    let first = disks.remove(0);
    (first, disks)
}

/// The end of a call over the first disk, with the others, which have room for it.
pub fn with_others<D>(ended: Ended<D>, mut others: Vec<D>) -> EndedMany<D>
    requires { vec_len others < vec_capacity others }
    ensures status { result.status ≡ ended.status }
    ensures disks { result.disks.items ≡ ended.disk ∷ others.items }
{
    let Ended { status, disk } = ended;
    let place = others.len();
    others.push_reserved(disk);
    others.rotate_left(place);
    EndedMany {
        status,
        disks: others,
    }
}

/// The first disks, the others, and room for all of them.
pub struct Parts<D> {
    pub front: Vec<D>,
    pub others: Vec<D>,
    pub room: Vec<D>,
}

/// Parts the disks behind the first ones, so many. Where there is no memory for it, they are handed back.
pub fn part<D>(alloc: Global, mut disks: Vec<D>, used: usize) -> Result<Parts<D>, Vec<D>>
    requires { used ≤ length disks.items }
    ensures front { IfOk result (λ parts. parts.front.items ≡ take used disks.items) }
    ensures others { IfOk result (λ parts. parts.others.items ≡ drop used disks.items) }
    ensures none { IfOk result (λ parts. parts.room.items ≡ []) }
    ensures room { IfOk result (λ parts. length disks.items ≤ vec_capacity parts.room) }
    ensures err { IfErr result (λ back. back.items ≡ disks.items) }
{
    let Ok(room) = Vec::with_capacity(alloc, disks.len()) else {
        return Err(disks);
    };
    let Ok(others) = disks.split_off(used) else {
        room.destroy_empty();
        return Err(disks);
    };
    Ok(Parts {
        front: disks,
        others,
        room,
    })
}

/// The first disks and then the others, in the room for all of them.
pub fn joined<D>(front: Vec<D>, others: Vec<D>, mut room: Vec<D>) -> Vec<D>
    requires none { room.items ≡ [] }
    requires room { length front.items + length others.items ≤ vec_capacity room }
    ensures { result.items ≡ front.items ++ others.items }
{
    move_to_end(front, &mut room);
    move_to_end(others, &mut room);
    room
}

/// Moves the disks to the end of others, which have room for them.
fn move_to_end<D>(mut disks: Vec<D>, others: &mut Vec<D>)
    requires { length others.old.items + length disks.items ≤ vec_capacity others.old }
    ensures items { others.new.items ≡ others.old.items ++ disks.items }
    ensures room { vec_capacity others.old ≤ vec_capacity others.new }
{
    let Ok(()) = others.append(&mut disks) else {
        unreachable!()
    };
    disks.destroy_empty();
}
