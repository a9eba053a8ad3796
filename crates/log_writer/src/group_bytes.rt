//! The bytes of a group's record, which are spread over its members.

ghost use Rattle.std.specs.Prelude.{◌≡◌, ◌+◌, ◌-◌, ◌≤◌, ◌<◌, ◌^◌, ◌++◌, length, take, drop, flat_map};
ghost use Rattle.model_base.specs.Batch as model;
ghost use Rattle.model_base.specs.Batch.{IsBatch};
ghost use Rattle.model_base.specs.History.{max_sequence};
ghost use Rattle.log_writer.specs.Groups.{batches_of, counts_of, body_lens_of, bodies_of, record_of_group};

use log_batch::{Batch, HEADER_LEN};
use std::marker::Model;

/// The bytes of a group's record that are still to be written: the rest of its header or of a member, and the members
/// after it. Contracts see the bytes.
#[derive(Drop)]
pub(crate) struct GroupBytes<'a> {
    front: &'a [u8],
    behind: &'a [Batch],
}

impl<'a> Model for GroupBytes<'a> {
    ghost use Rattle.std.specs.Prelude.{List, ℕ, ◌++◌};
    ghost use Rattle.log_writer.specs.Groups.{bodies_of};

    ghost Value = { List ℕ };

    ghost view = { λ g. g.front.now ++ bodies_of g.behind.now };
}

impl<'a> GroupBytes<'a> {
    /// This header, and the members' bytes after their headers.
    pub(crate) fn new(header: &'a [u8], members: &'a [Batch]) -> GroupBytes<'a>
        ensures { result ≡ header.now ++ bodies_of members.now }
    {
        GroupBytes {
            front: header,
            behind: members,
        }
    }

    /// Moves the first bytes into `part`, as many as `part` has.
    pub(crate) fn move_to(&mut self, part: &mut [u8])
        requires there { length part.old ≤ length self.old }
        ensures moved { part.new ≡ take (length part.old) self.old }
        ensures rest { self.new ≡ drop (length part.old) self.old }
    {
        let mut at = 0;
        // The first `at` bytes of `part` are the group's next ones, and `self` has those after them.
        while part.len() - at > self.front.len() {
            set_at(part, at, self.front);
            at += self.front.len();
            let (member, behind) = match self.behind {
                [member, behind @ ..] => (member, behind),
                [] => unreachable!(),
            };
            self.front = body_of(member);
            self.behind = behind;
        }
        let (now, later) = self.front.split_at(part.len() - at);
        set_at(part, at, now);
        self.front = later;
    }
}

/// A member's bytes after its header.
fn body_of(member: &Batch) -> &[u8]
    ensures { result.now ≡ model.body member.now.records }
{
    &member.bytes()[HEADER_LEN..]
}

/// The record of this group is a batch: each of its additions can be read back. That is all that this call says: it
/// does nothing.
pub(crate) fn assure_batch(first: u64, members: &[Batch])
    requires counts { counts_of members.now < 2 ^ 32 }
    requires run { first + counts_of members.now - 1 ≤ max_sequence }
    ensures { IsBatch (record_of_group first members.now) first
        (flat_map (λ records. records) (batches_of members.now)) }
{
    // The additions of the members so far can be read back.
    for member in members {
        drop(member.records());
    }
}

/// How many sequences a group takes.
pub(crate) fn count_of(members: &[Batch]) -> u32
    requires { counts_of members.now < 2 ^ 32 }
    ensures { result ≡ counts_of members.now }
{
    members.iter().map(|member| member.count()).sum()
}

/// How many bytes the members have after their headers.
pub(crate) fn bodies_len(members: &[Batch]) -> usize
    requires { body_lens_of members.now < 2 ^ 63 }
    ensures { result ≡ body_lens_of members.now }
{
    members.iter().map(|member| body_of(member).len()).sum()
}

/// The header of a group's record.
pub(crate) fn group_header(first: u64, count: u32) -> [u8; 12]
    ensures { result ≡ model.header first count }
{
    let [s0, s1, s2, s3, s4, s5, s6, s7] = first.to_le_bytes();
    let [c0, c1, c2, c3] = count.to_le_bytes();
    [s0, s1, s2, s3, s4, s5, s6, s7, c0, c1, c2, c3]
}

/// Writes bytes over those from the place `at` on.
pub(crate) fn set_at(bytes: &mut [u8], at: usize, more: &[u8])
    requires { at + length more.now ≤ length bytes.old }
    ensures there { take (at + length more.now) bytes.new ≡ take at bytes.old ++ more.now }
    ensures behind { drop (at + length more.now) bytes.new ≡ drop (at + length more.now) bytes.old }
{
    bytes[at..at + more.len()].copy_from_slice(more);
}
