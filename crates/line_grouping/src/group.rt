//! How long the group is that a leader takes.

ghost use Rattle.std.specs.Prelude.{◌≡◌, ◌+◌, ◌<◌, ◌≤◌, ℕ, List, length, ◌∷◌};
ghost use Rattle.model_base.specs.Grouping.{cap, fits, group_len};
ghost use Rattle.model_base.specs.declared.group.Item.{Item};
ghost use Rattle.line_grouping.specs.LongestGroup.{IsLongestGroup};

use model_base::Item;

/// The number of writers in the group that the queue's first writer leads, itself among them, where groups have at
/// most `max` bytes. The queue is in the order of linking.
pub fn group_len(queue: &[Item], max: u64) -> usize
    requires { 0 < length queue.now }
    ensures rule { result ≡ group_len max queue.now }
    ensures leader_in { 1 ≤ result }
    ensures within { result ≤ length queue.now }
{
    let leader = queue[0];
    let mut sum = leader.size;
    // The writers before `place` are in one group, and `sum` is the sum of their sizes.
    for place in 1..queue.len() {
        let writer = queue[place];
        if !fits(max, leader, sum, writer) {
            return place;
        }
        sum += writer.size;
    }
    queue.len()
}

/// Whether a writer joins a leader's group, where the sizes of those before it, the leader among them, add up to
/// `sum`.
pub fn fits(max: u64, leader: Item, sum: u64, writer: Item) -> bool
    ensures { result ≡ fits max leader (sum + writer.size) writer }
{
    let cap = cap(max, leader);
    !leader.alone
        && !writer.alone
        && (!writer.options.sync || leader.options.sync)
        && writer.options.no_slowdown == leader.options.no_slowdown
        && writer.options.no_log == leader.options.no_log
        && sum <= cap
        && writer.size <= cap - sum
}

/// The most bytes that the group of this leader may have.
fn cap(max: u64, leader: Item) -> u64
    ensures { result ≡ cap max leader }
{
    if leader.size <= max / 8 {
        leader.size + max / 8
    } else {
        max
    }
}

/// The group is the longest that the rule allows: each writer in it may join, and the next one, if there is one,
/// may not.
pub fn group_is_longest()
    ensures { (max : ℕ) (leader : Item) (behind : List Item)
        → IsLongestGroup max leader behind (group_len max (leader ∷ behind)) }
{}
