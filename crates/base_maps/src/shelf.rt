//! Shelves: some pages, one after another.

ghost use Rattle.std.specs.Prelude.{◌≡◌, ◌∷◌, [], IfOk};

use crate::page::{Page, PagePairs};
use crate::part::{Part, get_in, insert_in, remove_in};
use base_keys::Front;
use model_base::NoMemory;
use std::alloc::Global;
use std::marker::Model;
use std::slice;

/// A shelf with this many pages is split, if there is memory for that. A search goes through the first keys of the
/// shelves, and then through those of one shelf's pages; both lists are short with some hundred pages.
const MOST_PAGES: usize = 128;

/// Some pages, in the byte order of their keys. None of them is empty. Contracts see the list of their pairs.
#[derive(Debug, Drop)]
pub(crate) struct Shelf {
    pages: Vec<Page>,
    /// The front of the first key, its first sixteen bytes; of no pages, that of no bytes.
    front: Front,
}

impl Model for Shelf {
    ghost use Rattle.model_base.specs.Map.{Rows};
    ghost use Rattle.base_maps.specs.Parts.{all_in, AreFilled, IsFrontOf};

    ghost Value = { Rows };

    ghost view = { λ s. all_in s.pages.items };

    ghost invariant = { λ s. AreFilled s.pages.items × IsFrontOf s.front (all_in s.pages.items) };
}

impl Shelf {
    /// A shelf with one pair.
    pub(crate) fn of_pair(alloc: Global, key: &[u8], value: &[u8]) -> Result<Shelf, NoMemory>
        ensures { IfOk result (λ shelf. shelf ≡ (key.now, value.now) ∷ []) }
    {
        let mut page = Page::new(alloc);
        page.put(alloc, key, value)?;
        let mut pages = Vec::new(alloc);
        pages.push(page)?;
        let front = Front::of(key);
        Ok(Shelf { pages, front })
    }

    /// The pairs in order.
    pub(crate) fn pairs(&self) -> ShelfPairs<'_>
        ensures { result ≡ self.now }
    {
        ShelfPairs {
            pairs: PagePairs::none(),
            pages: self.pages.iter(),
        }
    }
}

impl Part for Shelf {
    ghost rows = { λ s. s };

    fn first_key(&self) -> &[u8] {
        self.pages[0].first_key()
    }

    fn front(&self) -> Front {
        self.front
    }

    fn is_empty(&self) -> bool {
        self.pages.is_empty()
    }

    fn get(&self, key: &[u8]) -> Option<&[u8]> {
        get_in(&self.pages, key)
    }

    fn insert(&mut self, alloc: Global, key: &[u8], value: &[u8]) -> Result<bool, NoMemory> {
        let added = insert_in(alloc, &mut self.pages, key, value);
        self.front = self.pages[0].front();
        added
    }

    fn remove(&mut self, key: &[u8]) -> bool {
        let removed = remove_in(&mut self.pages, key);
        if !self.pages.is_empty() {
            self.front = self.pages[0].front();
        }
        removed
    }

    fn split(&mut self, alloc: Global, key: &[u8]) -> Option<Shelf> {
        let len = self.pages.len();
        if len < MOST_PAGES {
            return None;
        }
        let is_last = key.cmp(self.pages[len - 1].first_key()).is_ge();
        // As in a page, the last two come out, and not one.
        let keep = if is_last { len - 2 } else { len / 2 };
        let Ok(pages) = self.pages.split_off(keep) else {
            return None;
        };
        let front = pages[0].front();
        Some(Shelf { pages, front })
    }
}

/// The pairs of a shelf in order. Contracts see the pairs that are left.
#[derive(Drop)]
pub(crate) struct ShelfPairs<'a> {
    /// The pairs of this page that are left.
    pairs: PagePairs<'a>,
    /// The pages after it.
    pages: slice::Iter<'a, Page>,
}

impl<'a> Model for ShelfPairs<'a> {
    ghost use Rattle.std.specs.Prelude.{◌++◌};
    ghost use Rattle.model_base.specs.Map.{Rows};
    ghost use Rattle.std.specs.Slice.Iter.{iter_rest};
    ghost use Rattle.base_maps.specs.Parts.{all_in};

    ghost Value = { Rows };

    ghost view = { λ i. i.pairs ++ all_in (iter_rest i.pages) };
}

impl<'a> ShelfPairs<'a> {
    /// No pairs.
    pub(crate) fn none() -> ShelfPairs<'a>
        ensures { result ≡ [] }
    {
        ShelfPairs {
            pairs: PagePairs::none(),
            pages: [].iter(),
        }
    }
}

impl<'a> Iterator for ShelfPairs<'a> {
    type Item = (&'a [u8], &'a [u8]);

    ghost use Rattle.std.specs.Iterator.{YieldsFirstBy, item_count};

    ghost next_gives = { YieldsFirstBy (λ p. (p.0.now, p.1.now)) (λ left. left) };

    ghost remaining = { item_count (λ left. left) };

    fn next(&mut self) -> Option<(&'a [u8], &'a [u8])> {
        // What is left is the rest of this page, and then the pages after it.
        loop {
            if let Some((key, value)) = self.pairs.next() {
                return Some((key, value));
            }
            let page = self.pages.next()?;
            self.pairs = page.pairs();
        }
    }
}
