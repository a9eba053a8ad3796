//! Some values of the definitions, each as RocksDB writes it.

ghost use Rattle.std.specs.Prelude.{◌≡◌, [], ◌∷◌, Some, None, true, false};
ghost use Rattle.batch_operations.specs.Operations.{count_of, layout_of, operation_bytes};
ghost use Rattle.batch_operations.specs.Rows as rows;

/// What follows some tags: `ValueType` of RocksDB's db/dbformat.h.
pub fn layouts_of_tags()
    ensures value { layout_of 0x01 ≡ Some (record { names_family = false; strings = 2; counts = true }) }
    ensures log_data { layout_of 0x03 ≡ Some (record { names_family = false; strings = 1; counts = false }) }
    ensures merge_in_family { layout_of 0x06 ≡ Some (record { names_family = true; strings = 2; counts = true }) }
    ensures single_deletion { layout_of 0x07 ≡ Some (record { names_family = false; strings = 1; counts = true }) }
    ensures begin_prepare { layout_of 0x09 ≡ Some (record { names_family = false; strings = 0; counts = false }) }
    ensures rollback { layout_of 0x0c ≡ Some (record { names_family = false; strings = 1; counts = false }) }
    ensures no_operation { layout_of 0x0d ≡ Some (record { names_family = false; strings = 0; counts = false }) }
    // Of range deletions and blob indexes the lower tag is the one that names a family.
    ensures range_in_family { layout_of 0x0e ≡ Some (record { names_family = true; strings = 2; counts = true }) }
    ensures range { layout_of 0x0f ≡ Some (record { names_family = false; strings = 2; counts = true }) }
    ensures blob_in_family { layout_of 0x10 ≡ Some (record { names_family = true; strings = 2; counts = true }) }
    ensures deletion_with_timestamp { layout_of 0x14 ≡ None }
    ensures commit_with_timestamp { layout_of 0x15
        ≡ Some (record { names_family = false; strings = 2; counts = false }) }
    ensures wide_columns { layout_of 0x16 ≡ Some (record { names_family = false; strings = 2; counts = true }) }
    ensures last { layout_of 0x19 ≡ Some (record { names_family = true; strings = 2; counts = true }) }
    ensures after_last { layout_of 0x1a ≡ None }
    ensures none { layout_of 0xff ≡ None }
{}

/// How some operations are spelled.
pub fn spelled_operations()
    ensures merge { operation_bytes rows.merge ≡ 0x02 ∷ 0x04 ∷ 0x68 ∷ 0x69 ∷ 0x74 ∷ 0x73 ∷ 0x01 ∷ 0x31 ∷ [] }
    ensures range { operation_bytes rows.range ≡ 0x0e ∷ 0x02 ∷ 0x01 ∷ 0x61 ∷ 0x01 ∷ 0x63 ∷ [] }
    ensures far_family { operation_bytes rows.far_family ≡ 0x04 ∷ 0xac ∷ 0x02 ∷ 0x00 ∷ [] }
    ensures mark { operation_bytes rows.mark ≡ 0x09 ∷ [] }
    ensures commit { operation_bytes rows.commit ≡ 0x0b ∷ 0x04 ∷ 0x78 ∷ 0x69 ∷ 0x64 ∷ 0x31 ∷ [] }
    ensures counted { count_of (rows.merge ∷ rows.range ∷ rows.far_family ∷ rows.mark ∷ rows.commit ∷ []) ≡ 3 }
{}
