//! How the rows of a range are gathered.

ghost use Rattle.std.specs.Prelude.{◌≡◌, ◌++◌, IfOk};
ghost use Rattle.std.specs.List.{AllByRecursion};
ghost use Rattle.table_nodes.specs.Chains.{AreFalling, AreSorted, Falls, chain_versions, key_of};
ghost use Rattle.table_nodes.specs.Newest.{first_up_to, said};
ghost use Rattle.table_nodes.specs.Nodes.{at_key};
ghost use Rattle.table_tree.specs.Places.{IsOfFamilies};
ghost use Rattle.table_tree.specs.Ranges.{IsStart, page_at};
ghost use Rattle.table_tree.specs.Rows.{between, pair_of, pairs_at, rows_in};
ghost use Rattle.table_tree.specs.Shapes.{chains_below};

use crate::entry::{Entry, Families};
use crate::page::Page;
use crate::places::place_of;
use base_bytes::{Bytes, PairList};
use base_keys::Front;
use model_base::NoMemory;
use std::alloc::Global;

/// Keys of a family from `lo` on and below `hi`, at a sequence.
#[derive(Clone, Copy)]
pub(crate) struct Range<'r> {
    pub(crate) family: u32,
    pub(crate) lo: &'r [u8],
    pub(crate) hi: &'r [u8],
    pub(crate) at: u64,
}

impl Entry {
    /// Appends the row of its key to others, if the key has a value at the sequence.
    fn gather(&self, alloc: Global, at: u64, rows: &mut PairList) -> Result<(), NoMemory>
        requires { Falls self.now.older }
        ensures { IfOk result (λ _. rows.new ≡ rows.old
            ++ rows_in (pair_of (key_of self.now) (said (first_up_to at (chain_versions self.now))))) }
    {
        let node = self.as_node();
        let Some(newest) = node.newest_up_to(at) else {
            return Ok(());
        };
        let Some(value) = newest.value() else {
            return Ok(());
        };
        let value = Bytes::copy(alloc, value)?;
        rows.push(Bytes::copy(alloc, node.key())?, value)?;
        Ok(())
    }
}

/// Before which entry of a page a key is: all entries before that are below the key, and the others aren't.
fn start_of(entries: &[Entry], families: Families, family: u32, key: &[u8]) -> usize
    requires families { AllByRecursion (IsOfFamilies families.lowest families.greatest) entries.now }
    requires sorted { AreSorted entries.now }
    ensures { IsStart (at_key family key.now) entries.now result }
{
    match place_of(entries, families, family, key, Front::of(key)) {
        Ok(at) => at,
        Err(at) => at,
    }
}

impl Page {
    /// How many keys of a range it has. It is only how much room a list of rows gets at once, so no clause says it.
    #[cycle(count)]
    fn count_within(&self, range: Range<'_>) -> usize
        requires { AreSorted self.now.chains }
    {
        let start = start_of(&self.entries, self.families, range.family, range.lo);
        let stop = start_of(&self.entries, self.families, range.family, range.hi);
        let mut count = self.count_below(start, range);
        // `count` is that of the entries so far, and of the pages on their two sides.
        for at in start..stop {
            count = count
                .saturating_add(1)
                .saturating_add(self.count_below(at + 1, range));
        }
        count
    }

    /// The same of the page below at a place, if there is one.
    #[cycle(count)]
    fn count_below(&self, at: usize, range: Range<'_>) -> usize
        requires { AreSorted self.now.chains }
    {
        if at < self.below.len() {
            self.below[at].count_within(range)
        } else {
            0
        }
    }

    /// Appends the rows of a range to others.
    #[cycle(gather)]
    fn gather(&self, alloc: Global, range: Range<'_>, rows: &mut PairList) -> Result<(), NoMemory>
        requires sorted { AreSorted self.now.chains }
        requires falling { AreFalling self.now.chains }
        ensures { IfOk result (λ _. rows.new ≡ rows.old
            ++ rows_in (pairs_at range.entry.at (between (at_key range.entry.family range.entry.lo.now)
            (at_key range.entry.family range.entry.hi.now) self.now.chains))) }
    {
        let start = start_of(&self.entries, self.families, range.family, range.lo);
        let stop = start_of(&self.entries, self.families, range.family, range.hi);
        gather_at(&self.below, start, alloc, range, rows)?;
        // The rows are those of the entries before `at`, and of the pages on their two sides.
        for at in start..stop {
            self.entries[at].gather(alloc, range.at, rows)?;
            gather_at(&self.below, at + 1, alloc, range, rows)?;
        }
        Ok(())
    }
}

/// Appends the rows of the page at a place, if there is one.
#[cycle(gather)]
fn gather_at(
    below: &[Page],
    at: usize,
    alloc: Global,
    range: Range<'_>,
    rows: &mut PairList,
) -> Result<(), NoMemory>
    requires sorted { AreSorted (page_at below.now at) }
    requires falling { AreFalling (page_at below.now at) }
    ensures { IfOk result (λ _. rows.new ≡ rows.old
        ++ rows_in (pairs_at range.entry.at (between (at_key range.entry.family range.entry.lo.now)
        (at_key range.entry.family range.entry.hi.now) (page_at below.now at)))) }
{
    if at < below.len() {
        below[at].gather(alloc, range, rows)
    } else {
        Ok(())
    }
}

/// How many keys of a range are below a root.
pub(crate) fn count_below(root: &Option<Page>, range: Range<'_>) -> usize
    requires { AreSorted (chains_below root.now) }
{
    match root {
        Some(page) => page.count_within(range),
        None => 0,
    }
}

/// Appends the rows of a range below a root to others.
pub(crate) fn gather_below(
    root: &Option<Page>,
    alloc: Global,
    range: Range<'_>,
    rows: &mut PairList,
) -> Result<(), NoMemory>
    requires sorted { AreSorted (chains_below root.now) }
    requires falling { AreFalling (chains_below root.now) }
    ensures { IfOk result (λ _. rows.new ≡ rows.old
        ++ rows_in (pairs_at range.entry.at (between (at_key range.entry.family range.entry.lo.now)
        (at_key range.entry.family range.entry.hi.now) (chains_below root.now)))) }
{
    match root {
        Some(page) => page.gather(alloc, range, rows),
        None => Ok(()),
    }
}
