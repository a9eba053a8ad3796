//! Parts of a map: each has some of its pairs, and those of each come before those of the next.

ghost use Rattle.std.specs.Prelude.{ℕ, List, ◌≡◌, ◌<◌, ◌+◌, ◌==◌, length, map, option_map, if◌then◌else◌, Some, IfOk, OnOk, OnErr};
ghost use Rattle.std.specs.Option.{option_copied};
ghost use Rattle.std.specs.BTreeMap.{insert_entry, is_at};
ghost use Rattle.std.specs.Map.{remove_entry};
ghost use Rattle.std.specs.Ordering.{is_lt};
ghost use Rattle.model_base.specs.Map.{Rows, byte_order, row_at};
ghost use Rattle.base_keys.specs.Fronts.{front_of};
ghost use Rattle.base_maps.specs.Parts.{all_in, AreFilled, AreInOrder, first_key_of, IsFrontOf, IsPartOf, HasSplit};

use base_keys::Front;
use model_base::NoMemory;
use std::alloc::Global;
use std::cmp::Ordering;

/// Some pairs, in the byte order of their keys: a page of them, or a shelf of pages.
pub(crate) trait Part {
    /// The pairs.
    ghost rows: { Self → Rows };

    /// The first key.
    fn first_key(&self) -> &[u8]
        requires { 0 < length (rows self.now) }
        ensures { first_key_of (rows self.now) ≡ Some result.now };

    /// The first bytes of the first key, which are kept in place: most comparisons need only these.
    fn front(&self) -> Front
        ensures { IsFrontOf result (rows self.now) };

    /// Whether it has no pairs.
    fn is_empty(&self) -> bool
        ensures { result ≡ (length (rows self.now) == 0) };

    /// The value of a key, if it has one. This takes no memory.
    fn get(&self, key: &[u8]) -> Option<&[u8]>
        requires { AreInOrder (rows self.now) }
        ensures { option_copied result ≡ row_at (rows self.now) key.now };

    /// Gives a key a value, and answers whether it had none.
    fn insert(&mut self, alloc: Global, key: &[u8], value: &[u8]) -> Result<bool, NoMemory>
        requires some { 0 < length (rows self.old) }
        requires order { AreInOrder (rows self.old) }
        ensures ok { OnOk result (rows self.new ≡ insert_entry byte_order (rows self.old) key.now value.now) }
        ensures added { IfOk result (λ added.
            length (rows self.new) ≡ length (rows self.old) + (if added then 1 else 0)) }
        ensures err { OnErr result (rows self.new ≡ rows self.old) };

    /// Removes a key, and answers whether it was there. This takes no memory.
    fn remove(&mut self, key: &[u8]) -> bool
        requires { AreInOrder (rows self.old) }
        ensures rows { rows self.new ≡ remove_entry (is_at (byte_order key.now)) (rows self.old) }
        ensures removed { length (rows self.new) + (if result then 1 else 0) ≡ length (rows self.old) };

    /// Takes its last pairs out as a part of their own, if it is full and there is memory for that. The key is the one
    /// that was inserted last. If it is the last of all, few pairs come out, so that parts stay full whose keys come in
    /// order.
    fn split(&mut self, alloc: Global, key: &[u8]) -> Option<Self>
        requires { AreInOrder (rows self.old) }
        ensures { HasSplit (rows self.old) (rows self.new) (option_map rows result) };
}

/// Whether a key is below the first key of a part. The caller gives the key's front too.
fn is_below<P: Part>(key: &[u8], front: Front, part: &P) -> bool
    requires front { front ≡ front_of 16 key.now }
    requires some { 0 < length (P.rows part.now) }
    ensures { (k : List ℕ) → first_key_of (P.rows part.now) ≡ Some k → result ≡ is_lt (byte_order key.now k) }
{
    match front.order(&part.front()) {
        Ordering::Less => true,
        Ordering::Greater => false,
        Ordering::Equal => key.cmp(part.first_key()).is_lt(),
    }
}

/// Which of some parts a key belongs to: the last one whose first key isn't above it, or else the first one.
fn part_of<P: Part>(parts: &[P], key: &[u8]) -> usize
    requires some { 0 < length parts.now }
    requires filled { AreFilled (map P.rows parts.now) }
    requires order { AreInOrder (all_in (map P.rows parts.now)) }
    ensures within { result < length parts.now }
    ensures place { IsPartOf key.now (map P.rows parts.now) result }
{
    let front = Front::of(key);
    let (mut low, mut high) = (0, parts.len());
    // The part at `low` begins not above the key or is the first one, and the part at `high` begins above it.
    while high - low > 1 {
        let middle = low + (high - low) / 2;
        if is_below(key, front, &parts[middle]) {
            high = middle;
        } else {
            low = middle;
        }
    }
    low
}

/// The value of a key, if it has one.
pub(crate) fn get_in<'a, P: Part>(parts: &'a [P], key: &[u8]) -> Option<&'a [u8]>
    requires filled { AreFilled (map P.rows parts.now) }
    requires order { AreInOrder (all_in (map P.rows parts.now)) }
    ensures { option_copied result ≡ row_at (all_in (map P.rows parts.now)) key.now }
{
    if parts.is_empty() {
        return None;
    }
    parts[part_of(parts, key)].get(key)
}

/// Splits the part at a place, if it is full and there is memory for that. The pairs stay as they are.
fn make_room<P: Part + Drop>(alloc: Global, parts: &mut Vec<P>, at: usize, key: &[u8])
    requires within { at < length parts.old.items }
    requires filled { AreFilled (map P.rows parts.old.items) }
    requires order { AreInOrder (all_in (map P.rows parts.old.items)) }
    ensures filled { AreFilled (map P.rows parts.new.items) }
    ensures same { all_in (map P.rows parts.new.items) ≡ all_in (map P.rows parts.old.items) }
    ensures some { 0 < length parts.new.items }
{
    if parts.reserve(1).is_err() {
        return;
    }
    if let Some(upper) = parts[at].split(alloc, key) {
        // There is room for it.
        if parts.insert(at + 1, upper).is_err() {
            unreachable!();
        }
    }
}

/// Gives a key a value, and answers whether it had none.
pub(crate) fn insert_in<P: Part + Drop>(
    alloc: Global,
    parts: &mut Vec<P>,
    key: &[u8],
    value: &[u8],
) -> Result<bool, NoMemory>
    requires some { 0 < length parts.old.items }
    requires filled { AreFilled (map P.rows parts.old.items) }
    requires order { AreInOrder (all_in (map P.rows parts.old.items)) }
    ensures filled { AreFilled (map P.rows parts.new.items) }
    ensures some { 0 < length parts.new.items }
    ensures ok { OnOk result (all_in (map P.rows parts.new.items)
        ≡ insert_entry byte_order (all_in (map P.rows parts.old.items)) key.now value.now) }
    ensures added { IfOk result (λ added. length (all_in (map P.rows parts.new.items))
        ≡ length (all_in (map P.rows parts.old.items)) + (if added then 1 else 0)) }
    ensures err { OnErr result (all_in (map P.rows parts.new.items) ≡ all_in (map P.rows parts.old.items)) }
{
    let at = part_of(parts, key);
    let added = parts[at].insert(alloc, key, value)?;
    make_room(alloc, parts, at, key);
    Ok(added)
}

/// Removes a key, and answers whether it was there. A part that has no pairs then goes.
pub(crate) fn remove_in<P: Part + Drop>(parts: &mut Vec<P>, key: &[u8]) -> bool
    requires filled { AreFilled (map P.rows parts.old.items) }
    requires order { AreInOrder (all_in (map P.rows parts.old.items)) }
    ensures filled { AreFilled (map P.rows parts.new.items) }
    ensures rows { all_in (map P.rows parts.new.items)
        ≡ remove_entry (is_at (byte_order key.now)) (all_in (map P.rows parts.old.items)) }
    ensures removed { length (all_in (map P.rows parts.new.items)) + (if result then 1 else 0)
        ≡ length (all_in (map P.rows parts.old.items)) }
{
    if parts.is_empty() {
        return false;
    }
    let at = part_of(parts, key);
    let removed = parts[at].remove(key);
    if parts[at].is_empty() {
        drop(parts.remove(at));
    }
    removed
}
