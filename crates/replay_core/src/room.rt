//! Vectors whose room was reserved before.

ghost use Rattle.std.specs.Prelude.{◌≡◌, ◌<◌, ◌≤◌, ◌+◌, ◌++◌, ◌∷◌, [], vec_len, vec_capacity};

/// Puts an item after the others, if there is room. This takes no memory.
pub(crate) fn push_within<T: Copy>(items: &mut Vec<T>, item: T)
    ensures pushed { vec_len items.old < vec_capacity items.old → items.new.items ≡ items.old.items ++ item ∷ [] }
    ensures len { vec_len items.old < vec_capacity items.old → vec_len items.new ≡ vec_len items.old + 1 }
    ensures full { vec_capacity items.old ≤ vec_len items.old → items.new.items ≡ items.old.items }
    ensures lower { vec_len items.old ≤ vec_len items.new }
    ensures upper { vec_len items.new ≤ vec_len items.old + 1 }
    ensures capacity { vec_capacity items.new ≡ vec_capacity items.old }
{
    if items.len() < items.capacity() {
        items.push_reserved(item);
    }
}

/// Puts an item at the end of each of two lists of equal length, if both have room. This takes no memory.
pub(crate) fn push_both<A: Copy, B: Copy>(first: &mut Vec<A>, second: &mut Vec<B>, a: A, b: B)
    requires { vec_len first.old ≡ vec_len second.old }
    ensures same_len { vec_len first.new ≡ vec_len second.new }
    ensures first { vec_len first.old < vec_capacity first.old → vec_len second.old < vec_capacity second.old
        → first.new.items ≡ first.old.items ++ a ∷ [] }
    ensures second { vec_len first.old < vec_capacity first.old → vec_len second.old < vec_capacity second.old
        → second.new.items ≡ second.old.items ++ b ∷ [] }
    ensures len { vec_len first.old < vec_capacity first.old → vec_len second.old < vec_capacity second.old
        → vec_len first.new ≡ vec_len first.old + 1 }
    ensures lower { vec_len first.old ≤ vec_len first.new }
    ensures first_capacity { vec_capacity first.old ≤ vec_capacity first.new }
    ensures second_capacity { vec_capacity second.old ≤ vec_capacity second.new }
{
    if first.len() < first.capacity() && second.len() < second.capacity() {
        if first.push(a).is_ok() && second.push(b).is_err() {
            first.pop();
        }
    }
}
