//! A law of what is written for a record.

ghost use Rattle.std.specs.Prelude.{◌≡◌, ◌%◌, ℕ, List, Option};
ghost use Rattle.model_base.specs.Log as log;

use crate::headers::BLOCK_LEN;

/// What is written for a record depends on the log's length only by the place in its block where the log ends.
pub fn text_by_place()
    // So whoever writes a log needs the place in the block and not the log's length.
    ensures { (number : Option ℕ) (m n : ℕ) (bytes : List ℕ) → m % BLOCK_LEN ≡ n % BLOCK_LEN
        → log.record_text number m bytes ≡ log.record_text number n bytes }
{}
