//! Logs with a number of their own.

ghost use Rattle.std.specs.Prelude.{◌≡◌, [], ◌∷◌, length, take, Some, codes};
ghost use Rattle.model_base.specs.declared.log.Damage.TheVariants.{ShortHeader, BadLength, BadType, OldLog};
ghost use Rattle.model_base.specs.Batch.{batch};
ghost use Rattle.model_base.specs.Log.{text, full, trailer, plain_log};
ghost use Rattle.model_base.specs.Reading.{seen_at, fragment, damage};
ghost use Rattle.model_base.specs.Recovery.{IsRecovered};
ghost use Rattle.model_base.specs.Text.{hex, recovered_text};
ghost use Rattle.model_rows.specs.Examples.{put_a1};
ghost use Rattle.model_rows.specs.NumberedLogs.{older_log, older_recovered, written_over, newer_recovered};

/// The log 8 of the batch of `put a 1`: a header of eleven bytes, which has the type 5 and ends with the number, and
/// then the batch. Where ten bytes are left of a block, they are zeros.
pub fn numbered_log_of_one_batch()
    ensures bytes { hex (text (Some 8) (batch 1 (put_a1 ∷ []) ∷ []))
        ≡ codes "6bc9dd41110005080000000100000000000000010000000101610131" }
    ensures len { length (text (Some 8) (batch 1 (put_a1 ∷ []) ∷ [])) ≡ 28 }
    ensures zeros_at_eleven { trailer (Some 8) 32757 ≡ 0 }
    ensures zeros_at_ten { trailer (Some 8) 32758 ≡ 10 }
{}

/// What a reader sees in a log that was written over an older one. Of a fragment of another log it reports the number,
/// whether the fragment is whole or cut off.
pub fn log_over_an_older_one()
    ensures own { seen_at (Some 8) written_over 0
        ≡ fragment (record { kind = full; part = batch 1 (put_a1 ∷ []) }) }
    ensures behind { seen_at (Some 8) written_over 28 ≡ damage (OldLog 7) }
    ensures behind_cut_off { seen_at (Some 8) (take 40 written_over) 28 ≡ damage (OldLog 7) }
    ensures own_cut_off { seen_at (Some 8) (take 27 written_over) 0 ≡ damage BadLength }
    ensures ten_bytes { seen_at (Some 8) (take 10 written_over) 0 ≡ damage ShortHeader }
    ensures by_the_older_number { seen_at (Some 7) written_over 0 ≡ damage (OldLog 8) }
    ensures without_a_number { seen_at plain_log written_over 0 ≡ damage (BadType 5) }
    ensures text { recovered_text newer_recovered ≡ codes "groups 1\n1 1 17\nstate 1 1\n61 31\nend 28 oldlog 7\n" }
{}

/// Before it was written over, the older log recovers both batches, up to its end.
pub fn numbered_log_recovered()
    ensures recovered { IsRecovered (Some 7) older_log older_recovered }
{}
