//! Records in a log without a number of its own.

ghost use Rattle.std.specs.Prelude.{◌≡◌, [], ◌∷◌, length, map, take, drop, replicate, codes, None};
ghost use Rattle.model_base.specs.Batch.{batch};
ghost use Rattle.model_base.specs.Log.{text, first, middle, last, full, parts_of, as_fragments, kinds_of, trailer, plain_log};
ghost use Rattle.model_base.specs.Text.{hex};
ghost use Rattle.model_rows.specs.Examples.{put_a1};

/// The log of the batch of `put a 1`: a header of seven bytes, which are the checksum, the length 17 and the type 1,
/// and then the batch.
pub fn log_of_one_batch()
    ensures bytes { hex (text plain_log (batch 1 (put_a1 ∷ []) ∷ []))
        ≡ codes "e99f78191100010100000000000000010000000101610131" }
    ensures len { length (text plain_log (batch 1 (put_a1 ∷ []) ∷ [])) ≡ 24 }
    ensures length_and_type { take 3 (drop 4 (text plain_log (batch 1 (put_a1 ∷ []) ∷ []))) ≡ 0x11 ∷ 0x00 ∷ 0x01 ∷ [] }
    ensures batch { drop 7 (text plain_log (batch 1 (put_a1 ∷ []) ∷ [])) ≡ batch 1 (put_a1 ∷ []) }
{}

/// A record of no bytes is a header alone.
pub fn record_of_no_bytes()
    ensures bytes { text plain_log ([] ∷ []) ≡ 0x05 ∷ 0x2b ∷ 0x28 ∷ 0x43 ∷ 0x00 ∷ 0x00 ∷ 0x01 ∷ [] }
{}

/// Where seven bytes are left of a block, a record of five bytes begins there, with an empty first part. Where six
/// bytes are left, they are zeros.
pub fn end_of_block()
    ensures parts_at_seven { map length (parts_of plain_log 32761 (replicate 5 0)) ≡ 0 ∷ 5 ∷ [] }
    ensures kinds_at_seven { kinds_of (as_fragments (parts_of plain_log 32761 (replicate 5 0))) ≡ first ∷ last ∷ [] }
    ensures none_at_seven { kinds_of (as_fragments (parts_of plain_log 32761 [])) ≡ full ∷ [] }
    ensures zeros_at_seven { trailer plain_log 32761 ≡ 0 }
    ensures zeros_at_six { trailer plain_log 32762 ≡ 6 }
    ensures kinds_at_six { kinds_of (as_fragments (parts_of plain_log 32762 (replicate 5 0))) ≡ full ∷ [] }
{}

/// The example of LevelDB's doc/log_format.md: records of 1000, 97270 and 8000 bytes. The second one is in three parts,
/// and leaves six bytes of its last block.
pub fn long_records()
    ensures first_record { map length (parts_of plain_log 0 (replicate 1000 0)) ≡ 1000 ∷ [] }
    ensures parts_of_second { map length (parts_of plain_log 1007 (replicate 97270 0)) ≡ 31754 ∷ 32761 ∷ 32755 ∷ [] }
    ensures kinds_of_second { kinds_of (as_fragments (parts_of plain_log 1007 (replicate 97270 0)))
        ≡ first ∷ middle ∷ last ∷ [] }
    ensures zeros_behind_second { trailer plain_log 98298 ≡ 6 }
    ensures third_record { map length (parts_of plain_log 98298 (replicate 8000 0)) ≡ 8000 ∷ [] }
{}
