//! Pages: some pairs, one after another in one piece of memory.

ghost use Rattle.std.specs.Prelude.{◌≡◌, ◌+◌, [], length, if◌then◌else◌, IfSome, IfOk, OnOk, OnErr};
ghost use Rattle.std.specs.Option.{option_copied};
ghost use Rattle.std.specs.BTreeMap.{insert_entry};
ghost use Rattle.std.specs.List.{AllByRecursion};
ghost use Rattle.model_base.specs.Map.{Rows, byte_order};
ghost use Rattle.base_maps.specs.Words.{bytes_of_pairs, IsShort};
ghost use Rattle.base_maps.specs.Pages.{IsPage, IsPage-prop};
ghost use Rattle.base_maps.specs.Cuts.{IsPlace, IsCutAfter};
ghost use Rattle.base_maps.specs.Parts.{AreInOrder, IsFrontOf};

use crate::pairs::{joined, keep_ends, split_pair};
use crate::part::Part;
use base_keys::Front;
use model_base::NoMemory;
use std::alloc::Global;
use std::cmp::Ordering;
use std::marker::Model;

/// A page with two pairs or more is full from this many bytes on. An insertion makes the bytes of its page anew, and a
/// search goes through them pair by pair: so larger pages take more time, and smaller ones more memory. A value that is
/// much longer than this is copied again with each change of its page.
const FULL: usize = 512;

/// Some pairs of keys and values, in the byte order of the keys. Contracts see the list of them.
///
/// They are in one piece of memory, each as its key after its length and its value after its length. So a pair costs
/// eight bytes besides its own. A page has little more memory than its bytes.
#[derive(Debug, Drop)]
pub(crate) struct Page {
    bytes: Vec<u8>,
    /// The front of the first key, its first sixteen bytes; of no pairs, that of no bytes.
    front: Front,
    ghost holds: { IsPage bytes.items } by { IsPage-prop bytes.items },
}

impl Model for Page {
    ghost use Rattle.model_base.specs.Map.{Rows};

    ghost Value = { Rows };

    ghost view = { λ p. p.holds.rows };

    ghost use Rattle.base_maps.specs.Parts.{IsFrontOf};

    ghost invariant = { λ p. IsFrontOf p.front p.holds.rows };
}

/// Where a key is in a page.
#[derive(Drop)]
struct Place<'a> {
    /// The bytes of the pairs before it.
    before: &'a [u8],
    /// Its value, if it has one.
    value: Option<&'a [u8]>,
    /// The bytes of the pairs after it.
    after: &'a [u8],
}

/// The front of the first key of some pairs, from their bytes.
fn front_of_first(bytes: &[u8]) -> Front
    ensures { (rows : Rows) → AllByRecursion IsShort rows → bytes.now ≡ bytes_of_pairs rows → IsFrontOf result rows }
{
    match split_pair(bytes) {
        Some((key, _, _)) => Front::of(key),
        None => Front::of(&[]),
    }
}

impl Page {
    /// No pairs. This takes no memory.
    pub(crate) fn new(alloc: Global) -> Page
        ensures { result ≡ [] }
    {
        Page {
            bytes: Vec::new(alloc),
            front: Front::of(&[]),
        }
    }

    /// The pairs with these bytes.
    fn of_bytes(bytes: Vec<u8>) -> Page
        requires { IsPage bytes.items }
        ensures short { AllByRecursion IsShort result }
        ensures spelled { bytes.items ≡ bytes_of_pairs result }
    {
        let front = front_of_first(&bytes);
        Page { bytes, front }
    }

    /// The pairs in order.
    pub(crate) fn pairs(&self) -> PagePairs<'_>
        ensures { result ≡ self.now }
    {
        PagePairs { bytes: &self.bytes }
    }

    /// Where a key is.
    fn place_of(&self, key: &[u8]) -> Place<'_>
        requires { AreInOrder self.now }
        ensures { IsPlace key.now self.now result.before.now (option_copied result.value) result.after.now }
    {
        let bytes: &[u8] = &self.bytes;
        let mut rest = bytes;
        // The pairs before `rest` are below the key.
        while let Some((own, value, after)) = split_pair(rest) {
            let (before, _) = bytes.split_at(bytes.len() - rest.len());
            match key.cmp(own) {
                Ordering::Less => {
                    return Place {
                        before,
                        value: None,
                        after: rest,
                    };
                }
                Ordering::Equal => {
                    return Place {
                        before,
                        value: Some(value),
                        after,
                    };
                }
                Ordering::Greater => rest = after,
            }
        }
        Place {
            before: bytes,
            value: None,
            after: rest,
        }
    }

    /// How many bytes the first pairs have: as many as have at most `goal` bytes, but at least one, and not all. There
    /// is no such cut where there are fewer than two pairs.
    fn cut_at(&self, goal: usize) -> Option<usize>
        ensures { IfSome result (λ at. IsCutAfter self.now at) }
    {
        let bytes: &[u8] = &self.bytes;
        let (_, _, mut rest) = split_pair(bytes)?;
        // At least one pair is before `rest`.
        while let Some((_, _, after)) = split_pair(rest) {
            if bytes.len() - after.len() > goal || after.is_empty() {
                return Some(bytes.len() - rest.len());
            }
            rest = after;
        }
        None
    }

    /// Gives a key a value, and answers whether it had none.
    pub(crate) fn put(&mut self, alloc: Global, key: &[u8], value: &[u8]) -> Result<bool, NoMemory>
        requires { AreInOrder self.old }
        ensures ok { OnOk result (self.new ≡ insert_entry byte_order self.old key.now value.now) }
        ensures added { IfOk result (λ added. length self.new ≡ length self.old + (if added then 1 else 0)) }
        ensures err { OnErr result (self.new ≡ self.old) }
    {
        let place = self.place_of(key);
        let added = place.value.is_none();
        let bytes = joined(alloc, place.before, key, value, place.after)?;
        *self = Page::of_bytes(bytes);
        Ok(added)
    }
}

impl Part for Page {
    ghost rows = { λ p. p };

    fn first_key(&self) -> &[u8] {
        match split_pair(&self.bytes) {
            Some((key, _, _)) => key,
            None => unreachable!(),
        }
    }

    fn front(&self) -> Front {
        self.front
    }

    fn is_empty(&self) -> bool {
        self.bytes.is_empty()
    }

    fn get(&self, key: &[u8]) -> Option<&[u8]> {
        self.place_of(key).value
    }

    fn insert(&mut self, alloc: Global, key: &[u8], value: &[u8]) -> Result<bool, NoMemory> {
        self.put(alloc, key, value)
    }

    fn remove(&mut self, key: &[u8]) -> bool {
        let place = self.place_of(key);
        if place.value.is_none() {
            return false;
        }
        let (front, back) = (place.before.len(), place.after.len());
        keep_ends(&mut self.bytes, front, back);
        self.front = front_of_first(&self.bytes);
        true
    }

    fn split(&mut self, alloc: Global, key: &[u8]) -> Option<Page> {
        let len = self.bytes.len();
        if len < FULL {
            return None;
        }
        let place = self.place_of(key);
        // After the last pair the one before it comes out too. So the next key below this one belongs to the new page,
        // and pages fill where keys fall as well as where they rise.
        let goal = if place.after.is_empty() {
            place.before.len().saturating_sub(1)
        } else {
            len / 2
        };
        let at = self.cut_at(goal)?;
        let (_, upper) = self.bytes.split_at(at);
        let Ok(upper) = Vec::from_slice(alloc, upper) else {
            return None;
        };
        self.bytes.truncate(at);
        self.bytes.shrink_to_fit();
        Some(Page::of_bytes(upper))
    }
}

/// The pairs of a page. Contracts see those that are left.
#[derive(Drop)]
pub(crate) struct PagePairs<'a> {
    bytes: &'a [u8],
    ghost holds: { IsPage bytes.now } by { IsPage-prop bytes.now },
}

impl<'a> Model for PagePairs<'a> {
    ghost use Rattle.model_base.specs.Map.{Rows};

    ghost Value = { Rows };

    ghost view = { λ p. p.holds.rows };
}

impl<'a> PagePairs<'a> {
    /// No pairs.
    pub(crate) fn none() -> PagePairs<'a>
        ensures { result ≡ [] }
    {
        PagePairs { bytes: &[] }
    }
}

impl<'a> Iterator for PagePairs<'a> {
    type Item = (&'a [u8], &'a [u8]);

    ghost use Rattle.std.specs.Iterator.{YieldsFirstBy, item_count};

    ghost next_gives = { YieldsFirstBy (λ p. (p.0.now, p.1.now)) (λ left. left) };

    ghost remaining = { item_count (λ left. left) };

    fn next(&mut self) -> Option<(&'a [u8], &'a [u8])> {
        let (key, value, rest) = split_pair(self.bytes)?;
        self.bytes = rest;
        Some((key, value))
    }
}
