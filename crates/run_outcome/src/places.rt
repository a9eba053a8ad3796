//! Where the batches of several clients are in their lists.

ghost use Rattle.std.specs.Prelude.{◌≡◌, ◌<◌, ◌-◌, ◌^◌, ◌++◌, min, length, sum_by, IfOk, OnOk};
ghost use Rattle.run_outcome.specs.Places.{places_from, places_by};

use model_base::NoMemory;
use run_batches::BatchList;
use std::alloc::Global;

/// Where a batch is, with the first sequence of its run. It takes sixteen bytes.
#[derive(Drop)]
pub struct BatchPlace {
    pub first: u64,
    /// In which client's list. Clients are numbered from 1.
    pub client: u32,
    /// The batch's index in that list, from 0 on.
    pub at: u32,
}

/// The places of all clients' batches, client by client. There is no memory for more than 2^32 - 1 batches of a
/// client.
pub fn places_of(alloc: Global, lists: &[BatchList]) -> Result<Vec<BatchPlace>, NoMemory>
    requires { length lists.now < 2 ^ 32 }
    ensures { IfOk result (λ places. places.items ≡ places_by 1 lists.now) }
{
    // Memory for all of them at once: a vector that grows may take twice as much.
    let mut places = Vec::with_capacity(alloc, count_of(lists))?;
    for index in 0..lists.len() {
        add_places(&mut places, index as u32 + 1, &lists[index])?;
    }
    Ok(places)
}

/// How many batches there are, or the greatest `usize` where they are more.
fn count_of(lists: &[BatchList]) -> usize
    ensures { result ≡ min (sum_by length lists.now) (2 ^ 64 - 1) }
{
    let mut count = 0usize;
    for list in lists {
        count = count.saturating_add(list.len());
    }
    count
}

/// Appends the places of a client's batches.
fn add_places(places: &mut Vec<BatchPlace>, client: u32, list: &BatchList) -> Result<(), NoMemory>
    ensures { OnOk result (places.new.items ≡ places.old.items ++ places_from client 0 list.now) }
{
    let Ok(len) = u32::try_from(list.len()) else {
        return Err(NoMemory);
    };
    for at in 0..len {
        let first = list.get(at as usize).batch.sequence();
        places.push(BatchPlace { first, client, at })?;
    }
    Ok(())
}
