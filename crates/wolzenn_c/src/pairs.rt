//! The pairs of a recovery.

ghost use Rattle.std.specs.Prelude.{◌≡◌, slice_get, MatchOption};
ghost use Rattle.model_base.specs.Map.{key_at};
ghost use Rattle.wolzenn_c.specs.Objects.{as_recovery};
ghost use Rattle.wolzenn_c.specs.PairCalls.{CopiesPair, Finds, lens_of};

use crate::buffer::put;
use crate::codes::{CLOSED, DONE, END, SMALL};
use crate::handle::WzHandle;
use log_in_memory::{RecoveryPairs, order};
use std::alloc::Global;

/// The column family of a pair's key, and how many bytes its key and its value have.
#[repr(C)]
#[derive(Clone, Copy, Debug, Drop)]
pub struct WzPairLens {
    pub family: u32,
    pub key_len: usize,
    pub value_len: usize,
}

/// The column family of the key of the pair with this index, and how many bytes its key and its value have. The indexes
/// are from 0 on, by family, and in each family in the byte order of the keys.
///
/// `DONE`: `lens` says it. `END`: there is no such pair. `CLOSED`: the handle holds no recovery. With these two `lens`
/// stays as it was. The handle holds what it held.
#[unsafe(no_mangle)]
pub extern "C" fn wz_pair_len(
    alloc: Global,
    handle: &mut WzHandle,
    index: usize,
    lens: &mut WzPairLens,
) -> u32
    ensures same { handle.new.held.object ≡ handle.old.held.object }
    ensures lens { MatchOption (as_recovery handle.old.held.object) ((result ≡ CLOSED) × (lens.new ≡ lens.old))
        (λ pairs. MatchOption (slice_get pairs index) ((result ≡ END) × (lens.new ≡ lens.old))
        (λ p. (result ≡ DONE) × (lens.new ≡ lens_of p))) }
{
    let Some(object) = handle.take(alloc) else {
        return CLOSED;
    };
    let code = match object.recovery() {
        Some(recovery) => tell_lens(recovery, index, lens),
        None => CLOSED,
    };
    handle.put(alloc, object);
    code
}

/// Tells the family of a pair, and how many bytes it has.
fn tell_lens(recovery: &RecoveryPairs, index: usize, lens: &mut WzPairLens) -> u32
    ensures { MatchOption (slice_get recovery.now.pairs.items index) ((result ≡ END) × (lens.new ≡ lens.old))
        (λ p. (result ≡ DONE) × (lens.new ≡ lens_of p)) }
{
    match recovery.get(index) {
        Some((family, key, value)) => {
            *lens = WzPairLens {
                family,
                key_len: key.len(),
                value_len: value.len(),
            };
            DONE
        }
        None => END,
    }
}

/// Copies the key and the value of the pair with this index to the starts of the caller's two buffers, and touches
/// nothing after them.
///
/// `DONE`. `SMALL`: one of the buffers has too few bytes, and neither was written to. `END`: there is no such pair.
/// `CLOSED`: the handle holds no recovery. The handle holds what it held.
#[unsafe(no_mangle)]
pub extern "C" fn wz_pair(
    alloc: Global,
    handle: &mut WzHandle,
    index: usize,
    key: &mut [u8],
    value: &mut [u8],
) -> u32
    ensures same { handle.new.held.object ≡ handle.old.held.object }
    ensures pair { MatchOption (as_recovery handle.old.held.object)
        ((result ≡ CLOSED) × (key.new ≡ key.old) × (value.new ≡ value.old))
        (λ pairs. MatchOption (slice_get pairs index)
        ((result ≡ END) × (key.new ≡ key.old) × (value.new ≡ value.old))
        (λ p. CopiesPair (p.0.bytes, p.1) (key.old, value.old) result (key.new, value.new))) }
{
    let Some(object) = handle.take(alloc) else {
        return CLOSED;
    };
    let code = match object.recovery() {
        Some(recovery) => copy_pair(recovery, index, key, value),
        None => CLOSED,
    };
    handle.put(alloc, object);
    code
}

/// Copies a pair to two buffers.
fn copy_pair(
    recovery: &RecoveryPairs,
    index: usize,
    key_buffer: &mut [u8],
    value_buffer: &mut [u8],
) -> u32
    ensures { MatchOption (slice_get recovery.now.pairs.items index)
        ((result ≡ END) × (key_buffer.new ≡ key_buffer.old) × (value_buffer.new ≡ value_buffer.old))
        (λ p. CopiesPair (p.0.bytes, p.1) (key_buffer.old, value_buffer.old)
        result (key_buffer.new, value_buffer.new)) }
{
    let Some((_, key, value)) = recovery.get(index) else {
        return END;
    };
    if key_buffer.len() < key.len() || value_buffer.len() < value.len() {
        return SMALL;
    }
    put(key, key_buffer);
    put(value, value_buffer);
    DONE
}

/// How many pairs have a key before this one of this column family, by family and in a family in byte order: that is
/// the index of the key's own pair, if it has one, and otherwise the index where its pair would be.
///
/// `DONE`: the key has a pair, and `index` is its index. `END`: it has none, and `index` is that of the next key's
/// pair, or how many pairs there are. `CLOSED`: the handle holds no recovery, and `index` stays as it was. The handle
/// holds what it held.
#[unsafe(no_mangle)]
pub extern "C" fn wz_pair_find(
    alloc: Global,
    handle: &mut WzHandle,
    family: u32,
    key: &[u8],
    index: &mut usize,
) -> u32
    ensures same { handle.new.held.object ≡ handle.old.held.object }
    ensures found { MatchOption (as_recovery handle.old.held.object) ((result ≡ CLOSED) × (index.new ≡ index.old))
        (λ pairs. Finds pairs (key_at family key.now) result index.new) }
{
    let Some(object) = handle.take(alloc) else {
        return CLOSED;
    };
    let code = match object.recovery() {
        Some(recovery) => find(recovery, family, key, index),
        None => CLOSED,
    };
    handle.put(alloc, object);
    code
}

/// Looks for a key.
fn find(recovery: &RecoveryPairs, family: u32, key: &[u8], index: &mut usize) -> u32
    ensures { Finds recovery.now.pairs.items (key_at family key.now) result index.new }
{
    *index = recovery.index_of(family, key);
    match recovery.get(*index) {
        Some((of, found, _)) if order(family, key, of, found).is_eq() => DONE,
        _ => END,
    }
}
