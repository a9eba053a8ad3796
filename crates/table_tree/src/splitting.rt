//! How a full page is split.

ghost use Rattle.std.specs.Prelude.{◌≡◌, ◌+◌, ◌≤◌, ◌<◌, [], take, drop, insert, length, vec_len, vec_capacity, slice_index_or, IfOk, OnOk, OnErr};
ghost use Rattle.table_nodes.specs.Chains.{AreSorted};
ghost use Rattle.table_tree.specs.Pages.{Branch, woven, AreBelow, HasRoom};
ghost use Rattle.table_tree.specs.Splits.{IsSplit, Splits};

use crate::entry::{Entry, Families};
use crate::page::{LEAST_ENTRIES, MOST_BELOW, MOST_ENTRIES, Page};
use model_base::NoMemory;
use std::alloc::Global;

/// Puts an item into a list that has room for it.
pub(crate) fn put<T: Drop>(list: &mut Vec<T>, at: usize, item: T)
    requires within { at ≤ vec_len list.old }
    requires room { vec_len list.old < vec_capacity list.old }
    ensures items { list.new.items ≡ insert list.old.items at item }
    ensures capacity { vec_capacity list.old ≤ vec_capacity list.new }
{
    match list.insert(at, item) {
        Ok(()) => {}
        Err(_) => unreachable!(),
    }
}

/// Moves the items from a place on into a list that has none, and room for them.
fn move_back<T>(from: &mut Vec<T>, keep: usize, to: &mut Vec<T>)
    requires keep { keep ≤ vec_len from.old }
    requires empty { to.old.items ≡ [] }
    requires room { vec_len from.old ≤ keep + vec_capacity to.old }
    ensures kept { from.new.items ≡ take keep from.old.items }
    ensures moved { to.new.items ≡ drop keep from.old.items }
    ensures capacity { (vec_capacity from.new ≡ vec_capacity from.old) × (vec_capacity to.new ≡ vec_capacity to.old) }
{
    // The items popped so far are in `to`, the last one first.
    while from.len() > keep {
        let Some(item) = from.pop() else {
            unreachable!()
        };
        to.push_reserved(item);
    }
    to.reverse();
}

/// Takes the upper half of the pages below out, if there are any. Where there is no memory for that, they are as they
/// were.
fn upper_half(alloc: Global, below: &mut Vec<Page>) -> Result<Vec<Page>, NoMemory>
    requires { AreBelow 31 below.old.items }
    ensures lower { IfOk result (λ _. below.new.items ≡ take 16 below.old.items) }
    ensures upper { IfOk result (λ upper. upper.items ≡ drop 16 below.old.items) }
    ensures room { IfOk result (λ upper. HasRoom upper.items (vec_capacity upper)) }
    ensures capacity { vec_capacity below.new ≡ vec_capacity below.old }
    ensures err { OnErr result (below.new.items ≡ below.old.items) }
{
    if below.is_empty() {
        return Ok(Vec::new(alloc));
    }
    let mut upper = Vec::with_capacity(alloc, MOST_BELOW)?;
    move_back(below, LEAST_ENTRIES + 1, &mut upper);
    Ok(upper)
}

impl Page {
    /// Takes the middle entry out, and the page of what is after it. Where there is no memory for that, the page is as
    /// it was.
    pub(crate) fn split(&mut self, alloc: Global) -> Result<(Entry, Page), NoMemory>
        requires full { self.old.own ≡ 31 }
        requires sorted { AreSorted self.old.chains }
        ensures ok { IfOk result (λ parts. IsSplit self.old self.new parts.0 parts.1) }
        ensures err { OnErr result (self.new ≡ self.old) }
    {
        let mut entries = Vec::with_capacity(alloc, MOST_ENTRIES)?;
        let below = upper_half(alloc, &mut self.below)?;
        move_back(&mut self.entries, LEAST_ENTRIES + 1, &mut entries);
        let Some(middle) = self.entries.pop() else {
            unreachable!()
        };
        let (lower, upper) = self.families.cut_at(middle.family());
        self.families = lower;
        let page = Page {
            families: upper,
            entries,
            below,
        };
        Ok((middle, page))
    }
}

impl Families {
    /// Between which families keys are that come before a key of a family, and those that come after it.
    fn cut_at(self, family: u32) -> (Families, Families)
        ensures lower { (result.0.lowest ≡ self.lowest) × (result.0.greatest ≡ family) }
        ensures upper { (result.1.lowest ≡ family) × (result.1.greatest ≡ self.greatest) }
    {
        let lower = Families {
            lowest: self.lowest,
            greatest: family,
        };
        let upper = Families {
            lowest: family,
            greatest: self.greatest,
        };
        (lower, upper)
    }
}

/// Splits the full page below at a place: its middle entry goes up between its two halves. Where there is no memory
/// for that, all is as it was.
pub(crate) fn split_below(
    alloc: Global,
    entries: &mut Vec<Entry>,
    below: &mut Vec<Page>,
    at: usize,
) -> Result<(), NoMemory>
    requires within { at < length below.old.items }
    requires room { (length entries.old.items < vec_capacity entries.old)
        × (length below.old.items < vec_capacity below.old) }
    requires full { (b : Branch) → (slice_index_or below.old.items at b).own ≡ 31 }
    requires levels { AreBelow (length entries.old.items) below.old.items }
    requires sorted { AreSorted (woven below.old.items entries.old.items) }
    ensures ok { OnOk result (Splits entries.old.items below.old.items at entries.new.items below.new.items) }
    ensures err { OnErr result ((entries.new.items ≡ entries.old.items) × (below.new.items ≡ below.old.items)) }
    ensures capacity { (vec_capacity entries.old ≤ vec_capacity entries.new)
        × (vec_capacity below.old ≤ vec_capacity below.new) }
{
    let (middle, page) = below[at].split(alloc)?;
    put(entries, at, middle);
    put(below, at + 1, page);
    Ok(())
}
