//! How many operations there are of each kind, by family.

ghost use Rattle.std.specs.Prelude.{◌≡◌, ◌<◌, [], set, get_or, vec_len, OnOk, OnErr};
ghost use Rattle.list_log.specs.Totals as totals;
ghost use Rattle.list_log.specs.declared.tallies.Tally.{Tally};

use model_base::NoMemory;
use std::alloc::Global;
use std::collections::BTreeMap;
use std::marker::Model;

/// How many operations there are of a tag and a family.
#[derive(Clone, Copy)]
pub struct Tally {
    pub tag: u8,
    pub family: Option<u32>,
    pub count: u64,
}

/// What operations are counted together.
#[derive(Clone, Copy, PartialEq, Eq, PartialOrd, Ord)]
struct Kind {
    tag: u8,
    family: Option<u32>,
}

/// Counts of operations, in the order in which their kinds came first. There are as many as tags with their families,
/// so that this grows with the number of families, and not with the log. A count stops at the greatest `u64`.
#[derive(Drop)]
pub struct Tallies {
    items: Vec<Tally>,
    /// Where the count of each kind is, so that no operation costs a walk through all of them.
    places: BTreeMap<Kind, usize>,
}

impl Model for Tallies {
    ghost use Rattle.std.specs.Prelude.{List};
    ghost use Rattle.list_log.specs.declared.tallies.Tally.{Tally};

    ghost Value = { List Tally };

    ghost use Rattle.list_log.specs.Places.{KnowsPlaces};

    ghost view = { λ t. t.items.items };

    ghost invariant = { λ t. KnowsPlaces t.places t.items.items };
}

impl Tallies {
    /// Nothing is counted yet. This takes no memory.
    pub fn new(alloc: Global) -> Tallies
        ensures { result ≡ [] }
    {
        Tallies {
            items: Vec::new(alloc),
            places: BTreeMap::new(alloc),
        }
    }

    /// Counts one more operation of this tag and family.
    pub fn add(&mut self, tag: u8, family: Option<u32>) -> Result<(), NoMemory>
        ensures ok { OnOk result (self.new ≡ totals.counted tag family self.old) }
        ensures err { OnErr result (self.new ≡ self.old) }
    {
        let kind = Kind { tag, family };
        if let Some(at) = self.places.get(&kind) {
            count_one(&mut self.items, *at);
            return Ok(());
        }
        // With room for the count, only its place may find no memory, and then nothing has changed.
        self.items.reserve(1)?;
        self.places.insert(kind, self.items.len())?;
        let first = Tally {
            tag,
            family,
            count: 1,
        };
        if self.items.push(first).is_err() {
            unreachable!();
        }
        Ok(())
    }

    /// The counts.
    pub fn as_slice(&self) -> &[Tally]
        ensures { result.now ≡ self.now }
    {
        &self.items
    }
}

/// Adds one to the count at this place.
fn count_one(items: &mut Vec<Tally>, at: usize)
    requires { at < vec_len items.old }
    ensures { (d : Tally) → items.new.items ≡ set items.old.items at (totals.one_more (get_or items.old.items at d)) }
{
    let tally = items[at];
    items[at] = Tally {
        tag: tally.tag,
        family: tally.family,
        count: tally.count.saturating_add(1),
    };
}
