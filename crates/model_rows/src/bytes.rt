//! Numbers and write batches as bytes.

ghost use Rattle.std.specs.Prelude.{◌≡◌, [], ◌∷◌, ◌++◌, Some, None, codes};
ghost use Rattle.model_base.specs.declared.batch.BatchError.TheVariants as refused;
ghost use Rattle.model_base.specs.Varint.{varint};
ghost use Rattle.model_base.specs.Batch.{deletion, single_deletion, log_data, header, batch, group_record, size_of_batch, IsBatchError};
ghost use Rattle.model_base.specs.Text.{hex};
ghost use Rattle.model_rows.specs.Examples.{put_a1, put_a2, put_b2, put_1a2, del_1a, sdel_1a};

/// Varint32s of one, two, three and five bytes.
pub fn varints()
    ensures greatest_of_one_byte { varint 127 ≡ 0x7f ∷ [] }
    ensures least_of_two_bytes { varint 128 ≡ 0x80 ∷ 0x01 ∷ [] }
    ensures three_hundred { varint 300 ≡ 0xac ∷ 0x02 ∷ [] }
    ensures least_of_three_bytes { varint 16384 ≡ 0x80 ∷ 0x80 ∷ 0x01 ∷ [] }
    ensures greatest { varint 4294967295 ≡ 0xff ∷ 0xff ∷ 0xff ∷ 0xff ∷ 0x0f ∷ [] }
{}

/// Batches: the sequence in eight bytes and the count in four, the low ones first, and then the records. A note isn't
/// counted.
pub fn batches()
    ensures one_value { batch 1 (put_a1 ∷ []) ≡ 1 ∷ 0 ∷ 0 ∷ 0 ∷ 0 ∷ 0 ∷ 0 ∷ 0 ∷ 1 ∷ 0 ∷ 0 ∷ 0 ∷ 1 ∷ 1 ∷ 0x61 ∷ 1 ∷ 0x31
        ∷ [] }
    ensures three_records { hex (batch 1 (put_a1 ∷ put_a2 ∷ deletion None (codes "a") ∷ []))
        ≡ codes "01000000000000000300000001016101310101610132000161" }
    ensures noted { hex (batch 1 (log_data (codes "x") ∷ put_a1 ∷ []))
        ≡ codes "0100000000000000010000000301780101610131" }
    ensures single_deletion { hex (batch 3 (single_deletion None (codes "a") ∷ []))
        ≡ codes "030000000000000001000000070161" }
{}

/// Records that name their families: tag 5 for a value, 4 for a deletion and 8 for a single one, and then the family's
/// number as a varint32. The default family need not be named, and may be.
pub fn batches_in_families()
    ensures one_of_each { hex (batch 1 (put_a1 ∷ put_1a2 ∷ []))
        ≡ codes "0100000000000000020000000101610131050101610132" }
    ensures three_records { hex (batch 1 (put_1a2 ∷ del_1a ∷ sdel_1a ∷ []))
        ≡ codes "0100000000000000030000000501016101320401016108010161" }
    ensures long_number { hex (batch 1 (deletion (Some 300) (codes "a") ∷ []))
        ≡ codes "01000000000000000100000004ac020161" }
    ensures default_named { hex (batch 1 (deletion (Some 0) (codes "a") ∷ []))
        ≡ codes "01000000000000000100000004000161" }
{}

/// A record with a tag that isn't read. The refusal names the tag.
pub fn batch_with_another_tag()
    ensures { IsBatchError (header 1 1 ++ (2 ∷ 1 ∷ 0x61 ∷ 1 ∷ 0x31 ∷ [])) (refused.Tag 2) }
{}

/// A record that should name a family, where the bytes end before the number does.
pub fn batch_without_a_family()
    ensures { IsBatchError (header 1 1 ++ (5 ∷ 0x80 ∷ [])) refused.Short }
{}

/// Sizes of batches.
pub fn sizes_of_batches()
    ensures no_record { size_of_batch [] ≡ 12 }
    ensures one_value { size_of_batch (put_a1 ∷ []) ≡ 17 }
    ensures three_records { size_of_batch (put_a1 ∷ put_a2 ∷ deletion None (codes "a") ∷ []) ≡ 25 }
{}

/// The log record of a group of two batches is one batch of both.
pub fn group_of_two_batches()
    ensures one_batch { hex (group_record 1 ((put_a1 ∷ []) ∷ (put_b2 ∷ []) ∷ []))
        ≡ codes "01000000000000000200000001016101310101620132" }
{}
