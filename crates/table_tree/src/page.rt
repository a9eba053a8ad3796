//! The pages of the tree.

ghost use Rattle.std.specs.Prelude.{◌≡◌, ◌≤◌, ◌==◌, [], IfOk};
ghost use Rattle.table_tree.specs.Pages.{IsDense};

use crate::entry::{Entry, Families};
use model_base::NoMemory;
use std::alloc::Global;
use std::marker::Model;

/// The most entries of a page.
pub(crate) const MOST_ENTRIES: usize = 31;

/// The most pages below a page.
pub(crate) const MOST_BELOW: usize = MOST_ENTRIES + 1;

/// The least entries of a page that is below another: those of a page that was split.
pub(crate) const LEAST_ENTRIES: usize = MOST_ENTRIES / 2;

/// A page, with the pages below it. It has room for all entries that it may have, so that an entry takes no memory.
/// Contracts see the chains of all its keys, and how many entries it has itself, and how high it is.
#[derive(Drop)]
pub(crate) struct Page {
    pub(crate) families: Families,
    pub(crate) entries: Vec<Entry>,
    /// The pages before each entry, and after the last one. A leaf has none.
    pub(crate) below: Vec<Page>,
}

impl Model for Page {
    ghost use Rattle.std.specs.Prelude.{length};
    ghost use Rattle.table_tree.specs.Pages.{Branch, woven, height_of};
    ghost use Rattle.table_tree.specs.Shapes.{branch_code};

    ghost Value = { Branch };

    ghost coded = { branch_code };

    ghost use Rattle.table_tree.specs.Pages.{IsPage};

    ghost view = { λ p. record {
      chains = woven p.below.items p.entries.items;
      own = length p.entries.items;
      height = height_of p.below.items;
    } };

    ghost invariant = { λ p. IsPage p.families p.entries p.below };

    ghost size = { λ b. b.height };
}

impl Page {
    /// A leaf without entries.
    pub(crate) fn leaf(alloc: Global) -> Result<Page, NoMemory>
        ensures { IfOk result (λ page. page ≡ record { chains = []; own = 0; height = 0 }) }
    {
        Ok(Page {
            families: Families::none(),
            entries: Vec::with_capacity(alloc, MOST_ENTRIES)?,
            below: Vec::new(alloc),
        })
    }

    /// Whether it has as many entries as it may have.
    pub(crate) fn is_full(&self) -> bool
        ensures full { self.now.own ≤ 31 }
        ensures value { result ≡ (self.now.own == 31) }
    {
        self.entries.len() == MOST_ENTRIES
    }

    /// It has many chains for its height. At run time this does nothing.
    pub(crate) fn is_dense(&self)
        ensures { IsDense self.now }
    {
        let _ = &self.entries;
    }
}
