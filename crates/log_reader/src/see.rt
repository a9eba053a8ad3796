//! What a reader of a log sees in a block.

ghost use Rattle.std.specs.Prelude.{◌≡◌, ◌+◌, ◌≤◌, ℕ, List, length};
ghost use Rattle.log_reader.specs.Blocks.{IsBlock, SeesSameFrom, SeenThere, PartIn};

use log_block::{BLOCK_LEN, Seen, read_fragment};

/// What is at the place `at` of a block, of which the file has these bytes, in a log with this number, if it has one.
/// A reader at this place sees this next, except at the end of a whole block: there it goes on in the next one.
pub fn see(number: Option<u32>, block: &[u8], at: usize) -> Seen
    requires in_block { length block.now ≤ BLOCK_LEN }
    requires in_file { at ≤ length block.now }
    ensures lies { PartIn (length block.now) at result }
    ensures seen { (file : List ℕ) (start offset : ℕ) → IsBlock file start block.now
        → SeesSameFrom number file offset (start + at) → SeenThere number file offset start block.now at result }
{
    read_fragment(number, block, at)
}
